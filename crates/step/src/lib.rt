// One taking of an entry from the queue: the visit of its instruction.
#![tactic(auto)]

ghost use Rattle.std.specs.Prelude.{◌≡◌, cond, ◌+◌, ◌<◌, ◌≤◌, ◌^◌};
ghost use Rattle.ring.specs.Ring.{due_of, popped_of};
ghost use Rattle.definition.specs.Machine.{adds};
ghost use Rattle.definition.specs.Module.{module_of};
ghost use Rattle.definition.specs.Ways.{is_reset};
ghost use Rattle.definition.specs.Leaves.{always, gives};
ghost use Rattle.definition.specs.Wants.{unfit};
ghost use Rattle.form_laws.specs.Good.{words_of};
ghost use Rattle.layout.specs.Indexed.{tables_of};
ghost use Rattle.visit.specs.Held.{live_in, Visiting, visit_in};
ghost use Rattle.run_state.specs.Course.{analysis_in, Between, FactsOnly};
ghost use Rattle.step.specs.Alike.{Alike};
ghost use Rattle.step.specs.Taking.{VisitDue, fault_of};
ghost use Rattle.step.specs.Took.{Took};

use answers::{Refusal, refuse};
use checks::{always_fault, proven};
use fact_join::give;
use index::{chunk_at, row_height};
use layout::{Chunk, Tables, row_at};
use ops::Acts;
use outputs::{made_at, set_local};
use propagate::go_all;
use ring::{Queue, peek, popped};
use row_join::Leaving;
use run_state::Run;
use visit::{RowVisit, visit_at};

fn resets(v: RowVisit) -> bool
    ensures { result ≡ is_reset v.rule.acts }
{
    v.rule.acts == Acts::Resets
}

// The height after the visit; `Reset` drops what was there.
fn height_after(v: RowVisit) -> usize
    requires { v.start < 2 ^ 32 }
    ensures { result ≡ cond (is_reset v.rule.acts) v.ins.given (v.start + v.ins.given) }
{
    let ins = v.ins;
    let given = ins.given as usize;
    if resets(v) { given } else { v.start + given }
}

// What validation refuses the visit for, or 0.
fn unproven(s: &[u8], ws: &[u32], t: Tables, ch: Chunk, v: RowVisit, validating: bool) -> u8
    requires visiting { Visiting s.now ws.now t ch v }
    requires v_value { always (visit_in s.now ws.now v) ≡ 0 }
    ensures { result ≡ cond validating (unfit (visit_in s.now ws.now v)) 0 }
{
    if validating {
        return proven(s, ws, t, ch, v, v.chunk == t.entry);
    }
    0
}

// What refuses the visit: 13, 14, 15 or 18, or 0.
fn fault(s: &[u8], ws: &[u32], t: Tables, ch: Chunk, v: RowVisit, validating: bool) -> u8
    requires { Visiting s.now ws.now t ch v }
    ensures { result ≡ fault_of validating (visit_in s.now ws.now v) }
{
    let n = always_fault(s, ws, t, v);
    if n != 0 {
        return n;
    }
    let m = unproven(s, ws, t, ch, v, validating);
    if m != 0 {
        return m;
    }
    if ch.stack < height_after(v) { 18 } else { 0 }
}

// What leaves the visit, whatever the way.
fn leaving(s: &[u8], ws: &[u32], t: Tables, ch: Chunk, v: RowVisit) -> Leaving
    requires visiting { Visiting s.now ws.now t ch v }
    requires v_value { always (visit_in s.now ws.now v) ≡ 0 }
    ensures { Alike ws.now ch v (visit_in s.now ws.now v) result }
{
    let made = made_at(s, ws, t, ch, v);
    let set = set_local(s, ws, ch, v);
    Leaving {
        made,
        set,
        resets: resets(v),
        height: height_after(v),
    }
}

// Only the rounds add to the facts; whether the facts of this round changed so far.
fn give_in_rounds(s: &[u8], ws: &mut [u32], t: Tables, ch: Chunk, v: RowVisit, r: Run) -> bool
    requires visiting { Visiting s.now ws.old t ch v }
    requires chunk_bound { v.chunk < (module_of s.now).signatures }
    requires v_value { always (visit_in s.now ws.old v) ≡ 0 }
    ensures { FactsOnly s.now ws.old ws.new
        × (live_in s.now ws.new result
        ≡ adds (analysis_in s.now ws.old) r.validating
        (live_in s.now ws.old r.changed) (gives (visit_in s.now ws.old v))) }
{
    if r.validating {
        return r.changed;
    }
    give(s, ws, t, ch, v, v.chunk == t.entry, r.changed)
}

// The visit of the entry that was due; q is the queue without it.
fn visited(
    s: &[u8],
    ws: &mut [u32],
    t: Tables,
    ch: Chunk,
    v: RowVisit,
    r: Run,
    q: Queue,
) -> Result<Run, Refusal>
    requires { VisitDue s.now ws.old t ch v r q }
    ensures { Took s.now ws.old ws.new r q v.at result }
{
    let steps = r.steps + 1;
    let n = fault(s, ws, t, ch, v, r.validating);
    if n != 0 {
        return Err(refuse(n, r.chunk, v.at, steps));
    }
    let l = leaving(s, ws, t, ch, v);
    let changed = give_in_rounds(s, ws, t, ch, v, r);
    match go_all(s, ws, t, ch, v, l, q) {
        Err(n) => Err(refuse(n, r.chunk, v.at, steps)),
        Ok(queue) => Ok(Run {
            queue,
            steps,
            changed,
            ..r
        }),
    }
}

// The run with this queue and one step more; an entry without a state is dropped.
fn dropped(r: Run, q: Queue) -> Run
    requires { r.steps + 1 < 2 ^ 32 }
    ensures { result ≡ record { validating = r.validating; chunk = r.chunk; queue = q; steps = r.steps + 1; changed = r.changed } }
{
    Run {
        queue: q,
        steps: r.steps + 1,
        ..r
    }
}

// One taking of the entry due: the run after it, or the refusal.
pub fn take(s: &[u8], ws: &mut [u32], t: Tables, r: Run) -> Result<Run, Refusal>
    requires between { Between s.now ws.old r }
    requires count_nonzero { 0 < r.queue.count }
    requires t_value { t ≡ tables_of s.now }
    requires steps_bound { r.steps + 1 < 2 ^ 32 }
    ensures { Took s.now ws.old ws.new r
        (popped_of ws.old (words_of (module_of s.now)) r.queue)
        (due_of ws.old (words_of (module_of s.now)) r.queue) result }
{
    let ch = chunk_at(s, ws, r.chunk);
    let queue = r.queue;
    let at = peek(ws, t.queue_at, queue) as usize;
    let q = popped(ws, t.queue_at, queue);
    if row_height(ws, row_at(ch, at)) == 0 {
        return Ok(dropped(r, q));
    }
    let v = visit_at(s, ws, r.chunk, ch, at);
    visited(s, ws, t, ch, v, r, q)
}
