// What leaves a visit, passed along each of its ways into the rows of its targets; a target that changed is queued.
#![tactic(auto)]

ghost use Rattle.std.specs.Prelude.{◌≡◌, List, [], ◌∷◌, ℕ, ◌+◌, ◌<◌, ◌≤◌, length};
ghost use Rattle.row_join.specs.joining.Leave.{row_words};
ghost use Rattle.propagate.specs.Passing.{Passed, leaves_with, exit_in, passes, ways_in};
ghost use Rattle.propagate.specs.Steps.{may_be, cut_in, local_on, QueueStands, EnqueuedIn, Open, PassReady, Beside};

use layout::{Chunk, NO_LOCAL, Tables, local_at, row_at};
use masks::Mask;
use ops::Exit;
use ring::{Queue, push};
use row_join::{Leaving, Met, Way, leave};
use visit::{RowVisit, operand};
use ways::{Ways, exit_of, narrowing, ways_of};
use words::mask_at;

fn maybe_enum(ws: &[u32], ch: Chunk, v: RowVisit, local: usize) -> bool
    requires { v.row + row_words ch ≤ length ws.now }
    ensures { result ≡ may_be ws.now ch v local }
{
    if local < ch.locals {
        let m = mask_at(ws, local_at(ch, v.row, local));
        return m.has(Mask::ENUM);
    }
    false
}

// A way on which the receiver can't be an enum is cut.
fn cut(ws: &[u32], ch: Chunk, v: RowVisit, narrow: Option<u16>) -> bool
    requires { v.row + row_words ch ≤ length ws.now }
    ensures { result ≡ cut_in ws.now ch v narrow }
{
    match narrow {
        None => false,
        Some(receiver) => !maybe_enum(ws, ch, v, receiver as usize),
    }
}

fn narrowed_local(narrow: Option<u16>) -> u16
    ensures { result ≡ local_on narrow }
{
    match narrow {
        None => NO_LOCAL,
        Some(receiver) => receiver,
    }
}

// The queue after a way, or the number of the refusal: 8 where the queue is full.
fn enqueue(ws: &mut [u32], t: Tables, q: Queue, to: usize) -> Result<Queue, u8>
    requires queue_stands { QueueStands ws.old t q }
    requires to_bound { to < 4294967296 }
    ensures { EnqueuedIn ws.old ws.new t q to result }
{
    if q.count < ws.len() - t.queue_at {
        return Ok(push(ws, t.queue_at, q, to as u32));
    }
    Err(8)
}

// One way that is not cut, to an instruction inside the chunk.
fn pass(
    ws: &mut [u32],
    t: Tables,
    ch: Chunk,
    v: RowVisit,
    l: Leaving,
    q: Queue,
    to: usize,
    narrow: u16,
) -> Result<Queue, u8>
    requires { Open ws.old t ch v l q to narrow }
    ensures { (s : List ℕ) → PassReady s ws.old t ch v l q → to < ch.count
        → Passed s ws.old ws.new v q ((to, leaves_with ws.old ch v l narrow) ∷ []) result
        × Beside s v to ws.old ws.new }
{
    let w = Way {
        from: v.row,
        to: row_at(ch, to),
        start: v.start,
        narrow,
    };
    match leave(ws, ch, w, l) {
        Met::Same => Ok(q),
        Met::Changed => enqueue(ws, t, q, to),
        Met::Unequal => Err(18),
    }
}

// One way: nothing passes where it is cut or leads past the end. exit: how control leaves the visit.
fn go(
    s: &[u8],
    ws: &mut [u32],
    t: Tables,
    ch: Chunk,
    v: RowVisit,
    l: Leaving,
    q: Queue,
    exit: Exit,
    to: usize,
) -> Result<Queue, u8>
    requires pass_ready { PassReady s.now ws.old t ch v l q }
    requires value { exit ≡ exit_in v }
    ensures passed { Passed s.now ws.old ws.new v q (passes ws.old ch v l to) result }
    ensures beside { Beside s.now v to ws.old ws.new }
{
    let narrow = narrowing(exit, v.ins, operand(ws, v, 0), to);
    if cut(ws, ch, v, narrow) | (ch.count <= to) {
        return Ok(q);
    }
    pass(ws, t, ch, v, l, q, to, narrowed_local(narrow))
}

// All ways, the next instruction first.
pub fn go_all(
    s: &[u8],
    ws: &mut [u32],
    t: Tables,
    ch: Chunk,
    v: RowVisit,
    l: Leaving,
    q: Queue,
) -> Result<Queue, u8>
    requires { PassReady s.now ws.old t ch v l q }
    ensures { Passed s.now ws.old ws.new v q (ways_in ws.old ch v l) result }
{
    let condition = operand(ws, v, 0);
    let rule = v.rule;
    let ruled = rule.exit;
    let exit = exit_of(ruled, v.ins, v.at);
    match ways_of(exit, v.ins, v.at, condition.mask) {
        Ways::Zero => Ok(q),
        Ways::One(to) => go(s, ws, t, ch, v, l, q, exit, to),
        Ways::Two(next, target) => {
            let q = go(s, ws, t, ch, v, l, q, exit, next)?;
            go(s, ws, t, ch, v, l, q, exit, target)
        }
    }
}
