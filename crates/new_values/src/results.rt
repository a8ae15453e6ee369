// The outputs after the first, from the first; and a cell with another origin or predicate.
ghost use Rattle.std.specs.Prelude.{◌≡◌};
ghost use Rattle.definition.specs.Outputs.{with_predicate, with_origin, inspection, predicate_on, tested, status_mask, second_output, rest_output};

use cells::Cell;
use description::Instr;
use flows::{Flow, Predicate};
use masks::Mask;
use ops::Others;

// A native that gives two values gives a word second.
fn status_mask(given: u8) -> Mask
    ensures { result ≡ status_mask given }
{
    if given == 2 {
        return Mask::WORD;
    }
    Mask::UNKNOWN
}

// The second output, from the first.
pub fn second_output(others: Others, i: Instr, first: Cell, float: u32) -> Cell
    ensures { result ≡ second_output others i first float }
{
    match others {
        Others::Unknowns => Cell::made(Mask::UNKNOWN, float),
        Others::Words => Cell::made(Mask::WORD, float),
        Others::Checked => Cell::made(first.mask, float),
        Others::Copies => first,
        Others::Tested(kind) => tested(kind, first, float),
        Others::Status => Cell::made(status_mask(i.given), float),
    }
}

// The outputs past the second.
pub fn rest_output(others: Others, first: Cell, float: u32) -> Cell
    ensures { result ≡ rest_output others first float }
{
    match others {
        Others::Unknowns => Cell::made(Mask::UNKNOWN, float),
        Others::Words => Cell::made(Mask::WORD, float),
        Others::Checked => Cell::made(Mask::WORD, float),
        Others::Copies => first,
        Others::Tested(_) => Cell::made(Mask::UNKNOWN, float),
        Others::Status => Cell::made(Mask::UNKNOWN, float),
    }
}

// The Bool of an inspection for this composite kind: none of no kind, false where the kind is not possible.
fn inspection(m: Mask, kind: Mask) -> Mask
    ensures { result ≡ inspection m kind }
{
    if m.bits == 0 {
        return Mask::NONE;
    }
    if m.has(kind) {
        return Mask::BOOL;
    }
    Mask::FALSE
}

// A test for ENUM of a value with an origin remembers the local.
fn predicate_on(kind: Mask, origin: Option<u16>) -> Predicate
    ensures { result ≡ predicate_on kind origin }
{
    match origin {
        None => Predicate::Nothing,
        Some(receiver) => if kind == Mask::ENUM {
            Predicate::Tests {
                receiver,
                when: true,
            }
        } else {
            Predicate::Nothing
        },
    }
}

fn tested(kind: Mask, receiver: Cell, float: u32) -> Cell
    ensures { result ≡ tested kind receiver float }
{
    let m = receiver.mask;
    let f = receiver.flow;
    let origin = f.origin;
    with_predicate(
        Cell::made(inspection(m, kind), float),
        predicate_on(kind, origin),
    )
}

fn with_both(c: Cell, origin: Option<u16>, predicate: Predicate) -> Cell
    ensures { result ≡ with_predicate (with_origin c origin) predicate }
{
    let mask = c.mask;
    let width = c.width;
    let f = c.flow;
    let bodies = f.bodies;
    let owned = f.owned;
    Cell {
        mask,
        width,
        flow: Flow {
            bodies,
            owned,
            origin,
            predicate,
        },
    }
}

pub fn with_predicate(c: Cell, predicate: Predicate) -> Cell
    ensures { result ≡ with_predicate c predicate }
{
    let f = c.flow;
    let from = f.origin;
    with_both(c, from, predicate)
}

pub fn with_origin(c: Cell, origin: Option<u16>) -> Cell
    ensures { result ≡ with_origin c origin }
{
    let f = c.flow;
    let test = f.predicate;
    with_both(c, origin, test)
}
