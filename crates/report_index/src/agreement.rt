// Whether an index and a report agree: no bytes left over, entries that rise, one for each record and each a record's.
ghost use Rattle.std.specs.Prelude.{◌≡◌, true, ◌+◌, ◌*◌, ◌≤◌, length};
ghost use Rattle.lookup.specs.Find.{entries_in};
ghost use Rattle.report_index.specs.Index.{entry_no, entries_no, rises, same, among, matched, agrees};

use crate::entries::{ENTRY, entry_no, is_before, seek};
use lookup::{Entry, end_at, entry_at, is_record};

// The entries rise.
fn rise(index: &[u8], n: usize) -> bool
    requires { 12 * n ≤ length index.now }
    ensures { result ≡ rises (entries_no index.now 0 n) }
{
    for k in 1..n {
        let e = entry_no(index, k);
        if !is_before(index, k - 1, e.chunk, e.instruction) {
            return false;
        }
    }
    true
}

// The entry with this number is this one.
fn is_entry(index: &[u8], k: usize, e: Entry) -> bool
    requires { 12 * k + 12 ≤ length index.now }
    ensures { result ≡ same e (entry_no index.now k) }
{
    let f = entry_no(index, k);
    e == f
}

// This one is among n entries that rise. It is looked for at a place first: the records of an accepted report stand in the order of the
// entries.
fn is_among(index: &[u8], n: usize, place: usize, e: Entry) -> bool
    requires n_in_bounds { 12 * n ≤ length index.now }
    requires n_value { rises (entries_no index.now 0 n) ≡ true }
    ensures { result ≡ among e (entries_no index.now 0 n) }
{
    if place < n {
        if is_entry(index, place, e) {
            return true;
        }
    }
    let k = seek(index, n, e.chunk, e.instruction);
    if k < n { is_entry(index, k, e) } else { false }
}

// As many records as entries, the entry of each record among them.
fn match_records(report: &[u8], index: &[u8], n: usize) -> bool
    requires n_in_bounds { 12 * n ≤ length index.now }
    requires n_value { rises (entries_no index.now 0 n) ≡ true }
    ensures { result ≡ matched (entries_in report.now) (entries_no index.now 0 n) }
{
    let m = report.len();
    let mut at = 0;
    let mut records = 0;
    while at < m {
        let end = end_at(report, at);
        if m < end {
            return records == n;
        }
        if is_record(report, at) {
            if !is_among(index, n, records, entry_at(report, at)) {
                return false;
            }
            records += 1;
        }
        at = end;
    }
    records == n
}

// Report and index agree.
pub fn agree(report: &[u8], index: &[u8]) -> bool
    ensures { result ≡ agrees report.now index.now }
{
    let n = index.len() / ENTRY;
    if index.len() % ENTRY != 0 {
        return false;
    }
    if !rise(index, n) {
        return false;
    }
    match_records(report, index, n)
}
