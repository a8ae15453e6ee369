// One field of a chunk or an instruction: the next state, or the refusal.
ghost use Rattle.std.specs.Prelude.{◌≡◌, ◌<◌, ◌^◌};
ghost use Rattle.definition.specs.Form.{or_stop, chunk_step, instr_step};
ghost use Rattle.form.specs.code_steps.Bounds.{Bounded};

use crate::late_checks::before;
use answers::{Refusal, in_field};
use definition::{Scan, params_in};
use description::{chunk_head_at, instr_at, len_at};
use form_rules::{chunk_fault, instr_fault};

pub fn or_stop(number: u8, refusal: Refusal, next: Scan) -> Result<Scan, Refusal>
    ensures { result ≡ or_stop number refusal next }
{
    if number == 0 { Ok(next) } else { Err(refusal) }
}

pub fn chunk_step(s: &[u8], p: usize, scan: Scan) -> Result<Scan, Refusal>
    requires { (p < 2 ^ 61) × Bounded scan (2 ^ 31) }
    ensures { result ≡ chunk_step s.now p scan }
{
    let h = chunk_head_at(s, p);
    let signed = scan.seen < scan.signatures;
    let n = chunk_fault(
        s,
        p,
        (0 < scan.place) & (scan.place < 5) & (scan.seen < scan.chunks),
        len_at(s, p),
        signed,
        h,
    );
    let mut next = scan;
    next.place = 2;
    next.seen = scan.seen + 1;
    next.locals = h.locals;
    next.stack = h.stack;
    next.instrs = 0;
    next.cells = scan.cells + u64::from(params_in(s, p, signed)) + 2;
    or_stop(n, in_field(n, scan.seen, 65535), next)
}

pub fn instr_step(s: &[u8], p: usize, scan: Scan) -> Result<Scan, Refusal>
    requires { (p < 2 ^ 61) × Bounded scan (2 ^ 31) }
    ensures { result ≡ instr_step s.now p scan }
{
    let i = instr_at(s, p);
    let n = instr_fault((1 < scan.place) & (scan.place < 5), len_at(s, p), i, scan);
    let last = before(scan.seen);
    let mut next = scan;
    next.place = 3;
    next.instrs = scan.instrs + 1;
    next.cells = scan.cells + (scan.locals as u64) + (scan.stack as u64) + 6;
    or_stop(n, in_field(n, last, scan.instrs as u16), next)
}
