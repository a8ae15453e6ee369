// The form checks: refusals 1 to 4 and W, then 5 (`room`). One walk over the fields, in byte order (`field_steps`, `code_steps`); then the two
// late looks (`late_checks`). Nothing is written. The scan takes a reader; every other caller has check_form.
#![tactic(auto)]

mod code_steps;
mod field_steps;
mod late_checks;
pub mod room;

ghost use Rattle.std.specs.Prelude.{◌≡◌, true, ◌≤◌, ◌^◌, length};
ghost use Rattle.description.specs.Fields.{fields_from};
ghost use Rattle.definition.specs.Bounds.{most_bytes};
ghost use Rattle.definition.specs.Form.{finished, form_of};
ghost use Rattle.description.specs.reader.Reading.{left};
ghost use Rattle.form.specs.late_checks.Counted.{counted};
ghost use Rattle.form.specs.code_steps.Bounds.{Bounded};

use answers::{Refusal, nowhere};
use definition::Scan;
use description::reader::{Reader, place_after, start};
use field_steps::field_step;
use late_checks::late_look;
pub use room::check_room;

// Document 01's longest description.
const MOST_BYTES: usize = 1048576;

// After the last field: no header or a chunk missing is 1; then the late looks.
fn finish(s: &[u8], scan: Scan) -> Result<u64, Refusal>
    requires { (length s.now ≤ most_bytes) × Bounded scan (2 ^ 31)
        × (counted s.now 0 0 (fields_from s.now 0) ≡ true) }
    ensures { result ≡ finished s.now scan }
{
    if (scan.place == 0) | (scan.seen < scan.chunks) {
        return Err(nowhere(1, 0));
    }
    late_look(s, scan.signatures)?;
    Ok(16 * scan.cells)
}

// All fields of a description, one by one.
fn read_all(s: &[u8]) -> Result<u64, Refusal>
    ensures { result ≡ form_of s.now }
{
    if MOST_BYTES < s.len() {
        return Err(nowhere(2, 0));
    }
    let mut at: usize = 0;
    let mut scan = Scan {
        place: 0,
        chunks: 0,
        signatures: 0,
        layout: 0,
        seen: 0,
        locals: 0,
        stack: 0,
        instrs: 0,
        count: 0,
        cells: 0,
    };
    while at < s.len() {
        scan = field_step(s, at, scan)?;
        at = place_after(s, at);
    }
    finish(s, scan)
}

// The form of what stands from a place on, taken as a description.
fn scan_from(s: &[u8], at: usize) -> Result<u64, Refusal>
    ensures { result ≡ form_of (left s.now at) }
{
    let n = s.len();
    if at < n {
        return read_all(&s[at..]);
    }
    read_all(&s[n..])
}

// The form of what a reader has left to read.
pub fn scan<'a>(r: Reader<'a>) -> Result<u64, Refusal>
    ensures { result ≡ form_of (left r.entry.src.now r.entry.at) }
{
    scan_from(r.src, r.at)
}

// The form of a whole description: a reader starts, and has all of it left.
pub fn check_form(s: &[u8]) -> Result<u64, Refusal>
    ensures { result ≡ form_of s.now }
{
    scan(start(s))
}
