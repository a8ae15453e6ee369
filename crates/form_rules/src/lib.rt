// The rules of the form, one field at a time: the lowest number of a fault, or 0. What each instruction takes and gives stands in `fits`.
#![tactic(auto)]

mod chunks;
mod contents;
mod fits;
mod instrs;
mod tables;

ghost use Rattle.std.specs.Prelude.{◌≡◌, ◌<◌, ◌^◌};
ghost use Rattle.definition.specs.Form.{lowest, handle_fine, header_fault, shape_fine, site_fault};

pub use chunks::chunk_fault;
use description::{Header, shape_at};
pub use instrs::instr_fault;
pub use tables::table_fault;
use widths::Shape;

// The bytes of field 1.
const HEADER_LEN: u16 = 16;

// Document 01's largest values of the header.
const MOST_FLOAT: u8 = 31;

const MOST_CHUNKS: u16 = 64;

const MOST_SLOTS: u16 = 1024;

// The lowest of the numbers whose fault is there, or 0.
pub fn low(one: bool, two: bool, three: bool, four: bool) -> u8
    ensures { (result ≡ lowest one two three four) × (result < 5) }
{
    if one {
        return 1;
    }
    if two {
        return 2;
    }
    if three {
        return 3;
    }
    if four {
        return 4;
    }
    0
}

// An opaque handle has four bytes or eight.
fn handle_fine(bytes: u8) -> bool
    ensures { result ≡ handle_fine bytes }
{
    (bytes == 4) | (bytes == 8)
}

pub fn header_fault(due: bool, len: u16, h: Header) -> u8
    ensures { result ≡ header_fault due len h }
{
    low(
        !due | (len != HEADER_LEN)
            | !handle_fine(h.handle)
            | (1 < h.layout)
            | (1 < h.owns)
            | ((h.layout == 0) & (h.slots != 0)),
        (MOST_FLOAT < h.float)
            | (MOST_CHUNKS < h.chunks)
            | (h.chunks < h.signatures)
            | (MOST_SLOTS < h.slots),
        h.signatures <= h.entry,
        false,
    )
}

pub fn shape_fine(s: Shape) -> bool
    ensures { result ≡ shape_fine s }
{
    (s.tag < 3) & (s.width < 3)
}

pub fn site_fault(s: &[u8], p: usize, due: bool, len: u16) -> u8
    requires { p < 2 ^ 61 }
    ensures { result ≡ site_fault s.now p due len }
{
    let yielded = shape_fine(shape_at(s, p + 3));
    let reply = shape_fine(shape_at(s, p + 10));
    low(!due | (len != 14) | !yielded | !reply, false, false, false)
}
