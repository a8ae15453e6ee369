// One field of the walk: the next state, or the refusal.
ghost use Rattle.std.specs.Prelude.{◌≡◌, ◌<◌, ◌^◌};
ghost use Rattle.definition.specs.Form.{header_step, placed, site_step, so_far, table_step, field_step};
ghost use Rattle.form.specs.code_steps.Bounds.{Bounded};

use crate::code_steps::{chunk_step, instr_step, or_stop};
use answers::{Refusal, nowhere};
use definition::Scan;
use description::{header_at, len_at, next_at, tag_at};
use form_rules::{header_fault, site_fault, table_fault};

fn header_step(s: &[u8], p: usize, scan: Scan) -> Result<Scan, Refusal>
    requires { p < 2 ^ 61 }
    ensures { result ≡ header_step s.now p scan }
{
    let h = header_at(s, p);
    let n = header_fault(scan.place == 0, len_at(s, p), h);
    or_stop(
        n,
        nowhere(n, 0),
        Scan {
            place: 1,
            chunks: h.chunks,
            signatures: h.signatures,
            layout: h.layout,
            seen: 0,
            locals: 0,
            stack: 0,
            instrs: 0,
            count: 0,
            cells: 4 + (h.slots as u64),
        },
    )
}

// The scan past a field of tags 4 to 8.
fn placed(tag: u8, count: u32, scan: Scan) -> Scan
    ensures { result ≡ placed tag count scan }
{
    let mut next = scan;
    next.place = tag;
    next.count = count;
    next
}

fn site_step(s: &[u8], p: usize, scan: Scan) -> Result<Scan, Refusal>
    requires { p < 2 ^ 61 }
    ensures { result ≡ site_step s.now p scan }
{
    let n = site_fault(s, p, scan.place == 3, len_at(s, p));
    or_stop(n, nowhere(n, 0), placed(4, scan.count, scan))
}

// The fields of one tag so far, where the last was of this tag; else none.
fn so_far(scan: Scan, tag: u8) -> u32
    ensures { result ≡ so_far scan tag }
{
    if scan.place == tag {
        return scan.count;
    }
    0
}

// Tags 5 to 8.
fn table_step(s: &[u8], p: usize, tag: u8, scan: Scan) -> Result<Scan, Refusal>
    requires { (p < 2 ^ 61) × Bounded scan (2 ^ 31) }
    ensures { result ≡ table_step s.now p tag scan }
{
    let count = so_far(scan, tag);
    let n = table_fault(
        s,
        p,
        tag,
        (0 < scan.place) & (scan.place <= tag) & ((tag == 5) | (scan.layout == 1)),
        len_at(s, p),
        count,
    );
    let more = count + 1;
    or_stop(n, nowhere(n, 0), placed(tag, more, scan))
}

pub fn field_step(s: &[u8], p: usize, scan: Scan) -> Result<Scan, Refusal>
    requires { (p < 2 ^ 61) × Bounded scan (2 ^ 31) }
    ensures { result ≡ field_step s.now p scan }
{
    if s.len() < next_at(s, p) {
        return Err(nowhere(1, 0));
    }
    let tag = tag_at(s, p);
    if tag == 1 {
        return header_step(s, p, scan);
    }
    if tag == 2 {
        return chunk_step(s, p, scan);
    }
    if tag == 3 {
        return instr_step(s, p, scan);
    }
    if tag == 4 {
        return site_step(s, p, scan);
    }
    if (4 < tag) & (tag < 9) {
        return table_step(s, p, tag, scan);
    }
    Err(nowhere(1, 0))
}
