// The length of the report: what of a row is recorded, the sizes of its record, the number of a visit's guards; how many records there are.
#![tactic(auto)]

mod counting;
mod recorded;

ghost use Rattle.std.specs.Prelude.{◌≡◌, ℕ, ◌+◌, ◌*◌, ◌<◌, ◌≤◌, length};
ghost use Rattle.definition.specs.Module.{module_of};
ghost use Rattle.definition.specs.Wants.{guards};
ghost use Rattle.definition.specs.Report.{report_bytes};
ghost use Rattle.form_laws.specs.Good.{chunk_no};
ghost use Rattle.layout.specs.Indexed.{Indexed, tables_of};
ghost use Rattle.visit.specs.Held.{visit_in};
ghost use Rattle.run_state.specs.Course.{Ended};
ghost use Rattle.checks.specs.asked.Proving.{Asking};
ghost use Rattle.report_size.specs.Reporting.{Faultless, report_in};
ghost use Rattle.report_size.specs.Span.{cut};
ghost use Rattle.report_size.specs.Adds.{signature_at};
ghost use Rattle.report_size.specs.Here.{Finished, Here};
ghost use Rattle.report_size.specs.Measured.{all_for, all_in};

use checks::{check_place, places_asked, want_at};
pub use counting::count_records;
use definition::Want;
use index::chunk_at;
use layout::{Chunk, Tables, row_at};
use recorded::is_guard;
pub use recorded::{
    branch_value, false_inspection, is_recorded, known_branch, record_len, recorded_count,
};
use visit::{RowVisit, visit_at};

pub fn count_guards(s: &[u8], ws: &[u32], t: Tables, v: RowVisit, want: Want) -> usize
    requires asking { Asking s.now ws.now v want }
    requires t_value { t ≡ tables_of s.now }
    ensures { (result ≡ length (guards (visit_in s.now ws.now v))) × (result ≤ 64) }
{
    let places = places_asked(v, want);
    let mut n = 0;
    for p in places.from..places.end {
        if is_guard(check_place(s, ws, t, v, want, p)) {
            n += 1;
        }
    }
    n
}

// The bytes that an instruction adds to the report.
fn instr_bytes(s: &[u8], ws: &[u32], t: Tables, c: usize, ch: Chunk, i: usize) -> usize
    requires finished { Finished s.now ws.now t }
    requires here { Here s.now ws.now c ch i }
    ensures { (result ≡ length (all_for s.now ws.now c i)) × (result ≤ 16170) }
{
    let row = row_at(ch, i);
    if !is_recorded(ws, row) {
        return 0;
    }
    let v = visit_at(s, ws, c, ch, i);
    let want = want_at(s, ws, ch, v, c == t.entry);
    let ins = v.ins;
    let inspection = if false_inspection(ws, row, ins.op) {
        7
    } else {
        0
    };
    let branch = if known_branch(ws, row, ins.op) { 8 } else { 0 };
    3 + record_len(ch, v, count_guards(s, ws, t, v, want)) + inspection + branch
}

fn chunk_bytes(s: &[u8], ws: &[u32], t: Tables, c: usize) -> usize
    requires finished { Finished s.now ws.now t }
    requires c_in_bounds { c < length (module_of s.now).chunks }
    ensures { (result ≡ length (all_in s.now ws.now c)) × (result ≤ 16170 * length (chunk_no (module_of s.now) c).code) }
{
    let ch = chunk_at(s, ws, c);
    let count = recorded_count(ch);
    let mut n = 0;
    for i in 0..count {
        n += instr_bytes(s, ws, t, c, ch, i);
    }
    n
}

fn signature_bytes(s: &[u8], ws: &[u32], t: Tables, c: usize) -> usize
    requires indexed { Indexed s.now ws.now }
    requires t_value { t ≡ tables_of s.now }
    requires c_in_bounds { c < length (module_of s.now).chunks }
    ensures { (result ≡ length (cut (signature_at s.now ws.now) t.signatures c)) × (result ≤ 1024) }
{
    if c < t.signatures {
        let ch = chunk_at(s, ws, c);
        5 + 49 * (ch.params + 1)
    } else {
        0
    }
}

// The length of the report, whatever the reply's largest body.
pub fn measure(s: &[u8], ws: &[u32], t: Tables) -> usize
    requires ended { Ended s.now ws.now }
    requires faultless { Faultless s.now ws.now }
    requires t_value { t ≡ tables_of s.now }
    ensures { ((reply : ℕ) → result ≡ length (report_bytes (report_in s.now ws.now reply))) × (result < 4294967296) }
{
    let mut n = 7 + 52 * t.slots;
    for c in 0..t.chunks {
        n += signature_bytes(s, ws, t, c) + chunk_bytes(s, ws, t, c);
    }
    n
}
