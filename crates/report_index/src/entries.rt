// The entries of an index: written, read by their number, sought by chunk and instruction.
ghost use Rattle.std.specs.Prelude.{◌≡◌, true, ◌+◌, ◌*◌, ◌<◌, ◌≤◌, length};
ghost use Rattle.le.specs.Wrote.{WroteN};
ghost use Rattle.report_index.specs.Index.{entry_bytes, entry_no, entries_no, is_before, rises};
ghost use Rattle.report_index.specs.entries.Split.{Split};

use le::{put16, put32, u16_inside, u32_inside};
use lookup::Entry;

// The bytes of an entry.
pub const ENTRY: usize = 12;

pub fn put_entry(index: &mut [u8], at: usize, e: Entry) -> usize
    requires at_in_bounds { at + 12 ≤ length index.old }
    requires first_bound { (e.first < 4294967296) × (e.length < 4294967296) }
    ensures { WroteN index.old at 12 (entry_bytes e) index.new result }
{
    let at = put16(index, at, e.chunk);
    let at = put16(index, at, e.instruction);
    let at = put32(index, at, e.first as u32);
    put32(index, at, e.length as u32)
}

pub fn entry_no(index: &[u8], k: usize) -> Entry
    requires { 12 * k + 12 ≤ length index.now }
    ensures { result ≡ entry_no index.now k }
{
    let at = ENTRY * k;
    Entry {
        chunk: u16_inside(index, at),
        instruction: u16_inside(index, at + 2),
        first: u32_inside(index, at + 4) as usize,
        length: u32_inside(index, at + 8) as usize,
    }
}

// The entry with this number stands before this chunk and instruction.
pub fn is_before(index: &[u8], k: usize, chunk: u16, instruction: u16) -> bool
    requires { 12 * k + 12 ≤ length index.now }
    ensures { result ≡ is_before chunk instruction (entry_no index.now k) }
{
    let at = ENTRY * k;
    let c = u16_inside(index, at);
    (c < chunk) | ((c == chunk) & (u16_inside(index, at + 2) < instruction))
}

// Of n entries that rise, the first that does not stand before this chunk and instruction; n where all do.
pub fn seek(index: &[u8], n: usize, chunk: u16, instruction: u16) -> usize
    requires n_in_bounds { 12 * n ≤ length index.now }
    requires n_value { rises (entries_no index.now 0 n) ≡ true }
    ensures { Split index.now n chunk instruction result }
{
    let mut low = 0;
    let mut high = n;
    while low < high {
        let middle = low + (high - low) / 2;
        if is_before(index, middle, chunk, instruction) {
            low = middle + 1;
        } else {
            high = middle;
        }
    }
    low
}
