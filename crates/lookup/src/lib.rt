// The records of a report, one field after another; lookup: the part that is one instruction's record.
#![tactic(auto)]

ghost use Rattle.std.specs.Prelude.{◌≡◌, ◌<◌, ◌^◌};
ghost use Rattle.description.specs.Fields.{next_at};
ghost use Rattle.lookup.specs.Find.{is_record, entry_at, names_at, found, Within, Lent};

use le::{u8_at, u16_at};

// The tag of a record.
const RECORD: u8 = 19;

// A part of bytes: its first place, and how many they are.
#[derive(Clone, Copy)]
pub struct Part {
    pub first: usize,
    pub size: usize,
}

// What an index has of a record: the chunk and the instruction that it names, its first byte and its length.
#[derive(Clone, Copy, PartialEq, Eq)]
pub struct Entry {
    pub chunk: u16,
    pub instruction: u16,
    pub first: usize,
    pub length: usize,
}

// The place after the field at a place.
pub fn end_at(report: &[u8], at: usize) -> usize
    requires { at < 2 ^ 63 }
    ensures { (result ≡ next_at report.now at) × (at < result) }
{
    at + 3 + (u16_at(report, at + 1) as usize)
}

// A record: a field of its tag, of four bytes or more.
pub fn is_record(report: &[u8], at: usize) -> bool
    requires { at < 2 ^ 63 }
    ensures { result ≡ is_record report.now at }
{
    (u8_at(report, at) == RECORD) & (3 < u16_at(report, at + 1))
}

// The entry of the record at a place.
pub fn entry_at(report: &[u8], at: usize) -> Entry
    requires { at < 2 ^ 63 }
    ensures { result ≡ entry_at report.now at }
{
    Entry {
        chunk: u16_at(report, at + 3),
        instruction: u16_at(report, at + 5),
        first: at,
        length: end_at(report, at) - at,
    }
}

// A record that names this chunk and instruction.
fn names(report: &[u8], at: usize, chunk: u16, instruction: u16) -> bool
    requires { at < 2 ^ 63 }
    ensures { result ≡ names_at report.now chunk instruction at }
{
    is_record(report, at)
        & ((u16_at(report, at + 3) == chunk) & (u16_at(report, at + 5) == instruction))
}

// Where that part of the report stands: the first such field, tag and length included, or the empty part at the end.
pub fn part_of(report: &[u8], chunk: u16, instruction: u16) -> Part
    ensures { Within report.now result (found report.now chunk instruction) }
{
    let n = report.len();
    let mut at = 0;
    while at < n {
        let end = end_at(report, at);
        if n < end {
            return Part { first: n, size: 0 };
        }
        if names(report, at, chunk, instruction) {
            return Part {
                first: at,
                size: end - at,
            };
        }
        at = end;
    }
    Part { first: n, size: 0 }
}

// That part, lent.
pub fn lookup(report: &[u8], chunk: u16, instruction: u16) -> &[u8]
    ensures { Lent report.entry result (found report.now chunk instruction) }
{
    let part = part_of(report, chunk, instruction);
    let first = part.first;
    let end = first + part.size;
    &report[first..end]
}
