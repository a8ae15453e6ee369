// The visit of an instruction found in the workspace, and what all its operands come to.
ghost use Rattle.std.specs.Prelude.{◌≡◌, ◌+◌, ◌-◌, ◌<◌, ◌≤◌, length, get_or};
ghost use Rattle.masks.specs.Mask.{of};
ghost use Rattle.packing.specs.Packing.{packed_extent};
ghost use Rattle.definition.specs.Module.{module_of};
ghost use Rattle.definition.specs.Outputs.{common_kinds, constructed_extent};
ghost use Rattle.layout.specs.Layout.{row_at};
ghost use Rattle.layout.specs.Indexed.{Indexed, chunk_at, tables_of};
ghost use Rattle.visit.specs.Held.{Looking, Standing, args_in, visit_in};

use crate::RowVisit;
use extents::Extent;
use index::{field_of, instr_of, row_height};
use layout::{Chunk, Tables, place_at, row_at};
use masks::Mask;
use ops::rule_of;
use packing::{Packed, packed_one};
use words::{load, mask_at};

// The height less what is taken, 0 where less is there.
fn less(height: usize, taken: usize) -> usize
    ensures { result ≡ height - taken }
{
    if taken <= height { height - taken } else { 0 }
}

// The visit of the instruction at, which has a state.
pub fn visit_at(s: &[u8], ws: &[u32], c: usize, ch: Chunk, at: usize) -> RowVisit
    requires indexed { Indexed s.now ws.now }
    requires c_in_bounds { c < length (module_of s.now).chunks }
    requires ch_value { ch ≡ chunk_at s.now ws.now c }
    requires at_lt_count { at < ch.count }
    requires nonzero { 0 < get_or ws.now (row_at (module_of s.now) c at) 0 }
    requires at_bound { get_or ws.now (row_at (module_of s.now) c at) 0 ≤ ch.stack + 1 }
    ensures { Looking s.now ws.now result × (result.chunk ≡ c) × (result.at ≡ at) }
{
    let row = row_at(ch, at);
    let ins = instr_of(s, ws, c, ch, at);
    let height = less(row_height(ws, row) as usize, 1);
    RowVisit {
        chunk: c,
        at,
        ins,
        rule: rule_of(ins.op),
        field: field_of(s, ws, c, ch, at),
        row,
        height,
        start: less(height, ins.taken as usize),
    }
}

// The kinds that all operands have in common.
pub fn common_kinds(ws: &[u32], v: RowVisit) -> Mask
    requires { Standing ws.now v }
    ensures { result ≡ common_kinds (of 65535) (args_in ws.now v) }
{
    let mut m = Mask { bits: 65535 };
    for p in v.start..v.height {
        let x = mask_at(ws, place_at(v.row, p));
        m = m.common(x.kind());
    }
    m
}

// The packed size of all operands; float and handle: the sizes of a float and of an opaque handle.
pub fn packed_at(ws: &[u32], v: RowVisit, float: u32, handle: u32) -> Packed
    requires { Standing ws.now v }
    ensures { result ≡ packed_extent (args_in ws.now v) float handle }
{
    let mut sum = Packed::EMPTY;
    for p in v.start..v.height {
        let x = load(ws, place_at(v.row, p));
        sum = sum.and_then(packed_one(x, float, handle));
    }
    sum
}

// The extent of what a flat `NewComposite` makes.
pub fn constructed_at(s: &[u8], ws: &[u32], t: Tables, v: RowVisit) -> Extent
    requires looking { Looking s.now ws.now v }
    requires t_value { t ≡ tables_of s.now }
    ensures { result ≡ constructed_extent (visit_in s.now ws.now v) }
{
    let ins = v.ins;
    let p = packed_at(ws, v, t.float, t.handle);
    p.constructed((ins.b % 256) as u8, ins.c)
}
