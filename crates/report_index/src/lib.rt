// An index beside a report: an entry of twelve bytes for each record. Written from the report's bytes; tested against any bytes; the lookup
// through it.
#![tactic(auto)]

mod agreement;
mod entries;

ghost use Rattle.std.specs.Prelude.{◌<◌, ◌≤◌, length};
ghost use Rattle.le.specs.Wrote.{Wrote};
ghost use Rattle.lookup.specs.Find.{entries_in};
ghost use Rattle.report_index.specs.Index.{index_bytes, Answered};

pub use agreement::agree;
use answers::{Refusal, nowhere};
pub use entries::ENTRY;
use entries::{entry_no, put_entry, seek};
use lookup::{Entry, Part, end_at, entry_at, is_record};

// Writes the index of a report, and answers its length.
pub fn write_index(report: &[u8], index: &mut [u8]) -> usize
    requires report_len_bound { length report.now < 4294967296 }
    requires report_in_bounds { length (index_bytes (entries_in report.now)) ≤ length index.old }
    ensures { Wrote index.old 0 (index_bytes (entries_in report.now)) index.new result }
{
    let n = report.len();
    let mut at = 0;
    let mut to = 0;
    while at < n {
        let end = end_at(report, at);
        if n < end {
            return to;
        }
        if is_record(report, at) {
            to = put_entry(index, to, entry_at(report, at));
        }
        at = end;
    }
    to
}

// The part of the report that is the record of an instruction, its place taken from the index; 20 where they disagree.
pub fn lookup_indexed(
    report: &[u8],
    index: &[u8],
    chunk: u16,
    instruction: u16,
) -> Result<Part, Refusal>
    ensures { Answered report.now index.now chunk instruction result }
{
    if !agree(report, index) {
        return Err(nowhere(20, 0));
    }
    let n = index.len() / ENTRY;
    let k = seek(index, n, chunk, instruction);
    if k < n {
        let e = entry_no(index, k);
        if (e.chunk == chunk) & (e.instruction == instruction) {
            return Ok(Part {
                first: e.first,
                size: e.length,
            });
        }
    }
    Ok(Part {
        first: report.len(),
        size: 0,
    })
}
