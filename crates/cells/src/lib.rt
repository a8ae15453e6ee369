// Cells: mask, width and flow of one place, joined, made, declared and narrowed; and the width behind a guard (`guarding`).
#![tactic(auto)]

mod guarding;

ghost use Rattle.std.specs.Prelude.{◌≡◌};
ghost use Rattle.cells.specs.Cell.{join_cell, joined_cell, made, declared, invalidated_cell, bare_cell, narrow_enum, unit_cell, owned_width};

use flows::Flow;
pub use guarding::guarded_width;
use masks::Mask;
use widths::{Shape, Width, scalar_width};

// What is known of the value in one place.
#[derive(Clone, Copy, PartialEq, Eq)]
pub struct Cell {
    pub mask: Mask,
    pub width: Width,
    pub flow: Flow,
}

#[derive(Clone, Copy)]
pub struct JoinedCell {
    pub cell: Cell,
    pub changed: bool,
}

// Owned, if a body of known size is.
pub fn owned_width(width: Width, owns: bool) -> bool
    ensures { result ≡ owned_width width owns }
{
    match width {
        Width::Body(_) => owns,
        Width::Scalar(_) => false,
        Width::Unknown => false,
    }
}

impl Cell {
    // A local that was not written: Unit of no bytes.
    pub fn unit() -> Cell
        ensures { result ≡ unit_cell }
    {
        Cell {
            mask: Mask::UNIT,
            width: Width::Scalar(0),
            flow: Flow::none(),
        }
    }

    // What a rule that gives only a mask makes of it.
    pub fn made(mask: Mask, float: u32) -> Cell
        ensures { result ≡ made mask float }
    {
        let width = scalar_width(mask, float);
        Cell {
            mask,
            width,
            flow: Flow::new(mask, width, false),
        }
    }

    // What a declared shape says of a value; owns: the plan owns bodies.
    pub fn declared(shape: Shape, owns: bool) -> Cell
        ensures { result ≡ declared shape owns }
    {
        let mask = shape.mask();
        let width = shape.declared_width();
        Cell {
            mask,
            width,
            flow: Flow::new(mask, width, owned_width(width, owns)),
        }
    }

    pub fn with(self, other: Cell) -> Cell
        ensures { result ≡ join_cell self other }
    {
        let m1 = self.mask;
        let m2 = other.mask;
        let w1 = self.width;
        let w2 = other.width;
        let f1 = self.flow;
        let f2 = other.flow;
        Cell {
            mask: m1.union(m2),
            width: w1.join(w2),
            flow: f1.with(f2),
        }
    }

    pub fn join(self, other: Cell) -> JoinedCell
        ensures { result ≡ joined_cell self other }
    {
        let c = self.with(other);
        JoinedCell {
            cell: c,
            changed: self != c,
        }
    }

    // Forgets what names this local.
    pub fn invalidate(self, local: u16) -> Cell
        ensures { result ≡ invalidated_cell self local }
    {
        let mask = self.mask;
        let width = self.width;
        let f = self.flow;
        Cell {
            mask,
            width,
            flow: f.invalidate(local),
        }
    }

    // Without origin and predicate.
    pub fn bare(self) -> Cell
        ensures { result ≡ bare_cell self }
    {
        let mask = self.mask;
        let width = self.width;
        let f = self.flow;
        Cell {
            mask,
            width,
            flow: f.bare(),
        }
    }

    // The cell once its value is known to be an enum. Its other extents stay.
    pub fn narrow_enum(self) -> Cell
        ensures { result ≡ narrow_enum self }
    {
        let flow = self.flow;
        let bodies = flow.bodies;
        let e = bodies[3];
        Cell {
            mask: Mask::ENUM,
            width: e.exact_width(),
            flow,
        }
    }
}
