// New values: a constant, a part that is read, what a native gives, a private read; the outputs after the first (`results`); the kinds of bit
// instructions and of a negation (`kinds`).
#![tactic(auto)]

mod kinds;
pub mod results;

ghost use Rattle.std.specs.Prelude.{◌≡◌};
ghost use Rattle.flows.specs.Flow.{absent};
ghost use Rattle.definition.specs.Data.{whole_extent, private_cell, fresh};
ghost use Rattle.definition.specs.Outputs.{constant_cell, field_cell, owned_if};
ghost use Rattle.new_values.specs.Making.{native_by};

use cells::Cell;
use description::Instr;
use extents::Extent;
use flows::Flow;
pub use kinds::{bits_mask, negation};
use masks::Mask;
pub use results::{rest_output, second_output, with_origin, with_predicate};
use widths::{Shape, Width};

// A new value of this mask and width.
pub fn fresh(mask: Mask, width: Width, owned: bool) -> Cell
    ensures { result ≡ fresh mask width owned }
{
    Cell {
        mask,
        width,
        flow: Flow::new(mask, width, owned),
    }
}

// `Const`: a composite that is copied into a site has its packed length.
pub fn constant_cell(i: Instr, float: u32) -> Cell
    ensures { result ≡ constant_cell i float }
{
    let mask = Mask::constant((i.a % 256) as u8, i.b == 1);
    if i.c == 0 {
        return Cell::made(mask, float);
    }
    fresh(mask, Width::Body(i.c - 1), false)
}

// Field and index reads; owned: of the composite that is read.
pub fn field_cell(i: Instr, owned: bool, float: u32) -> Cell
    ensures { result ≡ field_cell i owned float }
{
    let form = i.a;
    match form {
        0 => Cell::made(Mask::scalar((i.b % 256) as u8), float),
        1 => fresh(Mask::body((i.b % 256) as u8), Width::Body(i.c), owned),
        _ => Cell::made(Mask::UNKNOWN, float),
    }
}

fn owned_if(snapshot: bool) -> bool
    ensures { result ≡ owned_if snapshot }
{
    snapshot
}

pub fn native_cell(shape: Shape, snapshot: bool) -> Cell
    ensures { result ≡ native_by shape snapshot }
{
    fresh(shape.mask(), shape.declared_width(), owned_if(snapshot))
}

// The joined extent of all body kinds.
fn whole_extent(bodies: [Extent; 4]) -> Extent
    ensures { result ≡ whole_extent absent bodies }
{
    let e = Extent::ABSENT.with(bodies[0]);
    let e = e.with(bodies[1]);
    let e = e.with(bodies[2]);
    e.with(bodies[3])
}

// A private read: the joined flow of its slots; the width is exact where only a body is possible.
pub fn read_private(mask: Mask, flow: Flow) -> Cell
    ensures { result ≡ private_cell mask flow }
{
    let folded = mask.kind();
    if folded.within(Mask::BODY) {
        let bodies = flow.bodies;
        let e = whole_extent(bodies);
        return Cell {
            mask,
            width: e.exact_width(),
            flow,
        };
    }
    Cell {
        mask,
        width: Width::Unknown,
        flow,
    }
}
