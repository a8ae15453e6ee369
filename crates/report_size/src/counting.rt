// How many records the report has: what an index is long.
ghost use Rattle.std.specs.Prelude.{◌≡◌, cond, ℕ, ◌<◌, ◌≤◌, length};
ghost use Rattle.definition.specs.Module.{module_of};
ghost use Rattle.layout.specs.Indexed.{Indexed, tables_of};
ghost use Rattle.report_size.specs.Reporting.{report_in};
ghost use Rattle.report_size.specs.recorded.Told.{recorded};
ghost use Rattle.report_size.specs.counting.Marks.{marks_in};

use crate::recorded::{is_recorded, recorded_count};
use index::chunk_at;
use layout::{Tables, row_at};

// The records of a row: one, or none.
fn row_records(ws: &[u32], row: usize) -> usize
    requires { row < length ws.now }
    ensures { (result ≡ cond (recorded ws.now row) 1 0) × (result ≤ 1) }
{
    usize::from(is_recorded(ws, row))
}

// The records of a chunk.
fn chunk_records(s: &[u8], ws: &[u32], c: usize) -> usize
    requires indexed { Indexed s.now ws.now }
    requires c_in_bounds { c < length (module_of s.now).chunks }
    ensures { (result ≡ length (marks_in s.now ws.now c)) × (result ≤ 4096) }
{
    let ch = chunk_at(s, ws, c);
    let count = recorded_count(ch);
    let mut n = 0;
    for i in 0..count {
        n += row_records(ws, row_at(ch, i));
    }
    n
}

// The records of the report, whatever the reply's largest body.
pub fn count_records(s: &[u8], ws: &[u32], t: Tables) -> usize
    requires indexed { Indexed s.now ws.now }
    requires t_value { t ≡ tables_of s.now }
    ensures { ((reply : ℕ) → result ≡ length (report_in s.now ws.now reply).records) × (result ≤ 262144) }
{
    let mut n = 0;
    for c in 0..t.chunks {
        n += chunk_records(s, ws, c);
    }
    n
}
