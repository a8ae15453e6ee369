// The packed size of a composite's operands, and what its construction makes.
#![tactic(auto)]

ghost use Rattle.std.specs.Prelude.{◌≡◌};
ghost use Rattle.packing.specs.Packing.{span_with, scalar_span, body_span, bodies_of, body_kinds, packed_one, and_then, within, constructed, construction};

use cells::Cell;
use extents::{BodyExtent, Extent};
use flows::{Flow, Predicate};
use masks::Mask;

// The least and the largest packed size, or that there is none.
#[derive(Clone, Copy)]
pub enum Packed {
    Nothing,
    Bytes { min: u32, max: u32 },
}

// The range with one more size, where that is possible.
fn span_with(sofar: Packed, present: bool, low: u32, high: u32) -> Packed
    ensures { result ≡ span_with sofar present low high }
{
    match sofar {
        Packed::Nothing => Packed::Nothing,
        Packed::Bytes { min, max } => if present {
            Packed::Bytes {
                min: min.min(low),
                max: max.max(high),
            }
        } else {
            Packed::Bytes { min, max }
        },
    }
}

// The sizes of the scalar kinds of a folded mask.
fn scalar_span(tag: Mask, float: u32, handle: u32) -> Packed
    ensures { result ≡ scalar_span tag float handle }
{
    let s = Packed::Bytes {
        min: 4294967295,
        max: 0,
    };
    let s = span_with(s, tag.has(Mask::UNIT), 0, 0);
    let s = span_with(s, tag.has(Mask::FALSE), 1, 1);
    let s = span_with(s, tag.has(Mask::BYTE), 1, 1);
    let s = span_with(s, tag.has(Mask::WORD), 8, 8);
    let s = span_with(s, tag.has(Mask::FIXED), 8, 8);
    let s = span_with(s, tag.has(Mask::FLOAT), float, float);
    span_with(s, tag.has(Mask::OPAQUE), handle, handle)
}

// The range with the sizes of one body kind, where the mask has it.
fn body_span(sofar: Packed, present: bool, extent: Extent) -> Packed
    ensures { result ≡ body_span sofar present extent }
{
    let e = extent.body;
    match e {
        BodyExtent::Range { min, max } => span_with(sofar, present, min, max),
        BodyExtent::Absent => if present { Packed::Nothing } else { sofar },
        BodyExtent::Unknown => if present { Packed::Nothing } else { sofar },
    }
}

// The range with the sizes of the body kinds of a folded mask.
fn body_spans(tag: Mask, bodies: [Extent; 4], sofar: Packed) -> Packed
    ensures { result ≡ bodies_of tag body_kinds bodies sofar }
{
    let s = body_span(sofar, tag.has(Mask::TUPLE), bodies[0]);
    let s = body_span(s, tag.has(Mask::ARRAY), bodies[1]);
    let s = body_span(s, tag.has(Mask::STRUCT), bodies[2]);
    body_span(s, tag.has(Mask::ENUM), bodies[3])
}

// The packed size of one operand; float and handle: the sizes of a float and of an opaque handle.
pub fn packed_one(cell: Cell, float: u32, handle: u32) -> Packed
    ensures { result ≡ packed_one cell float handle }
{
    let m = cell.mask;
    let tag = m.kind();
    let flow = cell.flow;
    let bodies = flow.bodies;
    let s = body_spans(tag, bodies, scalar_span(tag, float, handle));
    if (tag.bits == 0) | !tag.within(Mask::PACKED) {
        return Packed::Nothing;
    }
    s
}

impl Packed {
    // No operand packs to nothing.
    pub const EMPTY: Packed = Packed::Bytes { min: 0, max: 0 };

    // One operand after others; a sum that is no u32 is none.
    pub fn and_then(self, next: Packed) -> Packed
        ensures { result ≡ and_then self next }
    {
        match self {
            Packed::Nothing => Packed::Nothing,
            Packed::Bytes { min: a, max: b } => match next {
                Packed::Nothing => Packed::Nothing,
                Packed::Bytes { min: c, max: d } => sums(a as u64 + c as u64, b as u64 + d as u64),
            },
        }
    }

    // The extent of a composite of this kind and size whose operands pack so; Unknown where they don't fit.
    pub fn constructed(self, kind: u8, size: u32) -> Extent
        ensures { result ≡ constructed self kind size }
    {
        match self {
            Packed::Nothing => Extent::UNKNOWN,
            Packed::Bytes { min, max } => if size < max {
                Extent::UNKNOWN
            } else if 1 < kind {
                Extent::range(size, size)
            } else {
                Extent::range(min, max)
            },
        }
    }
}

// Two sums, where both are u32.
fn sums(low: u64, high: u64) -> Packed
    ensures { result ≡ within low high }
{
    if (low < 4294967296) & (high < 4294967296) {
        Packed::Bytes {
            min: low as u32,
            max: high as u32,
        }
    } else {
        Packed::Nothing
    }
}

// The cell of a new composite of this kind, with its extent.
pub fn construction(kind: u8, extent: Extent) -> Cell
    ensures { result ≡ construction kind extent }
{
    let mask = Mask::body(kind);
    let index = (u16::trailing_zeros(mask.bits) - 8) as usize;
    let mut bodies = [Extent::ABSENT; 4];
    bodies[index] = extent;
    Cell {
        mask,
        width: extent.exact_width(),
        flow: Flow {
            bodies,
            owned: false,
            origin: None,
            predicate: Predicate::Nothing,
        },
    }
}
