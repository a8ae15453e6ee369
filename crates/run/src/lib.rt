// Rounds until nothing changes, then validation, as one sequence of takings.
#![tactic(auto)]

ghost use Rattle.std.specs.Prelude.{◌≡◌, false, ◌+◌, ◌-◌, ◌<◌, ◌≤◌, ◌^◌};
ghost use Rattle.ring.specs.Ring.{due_of};
ghost use Rattle.answers.specs.Answers.{refusal};
ghost use Rattle.definition.specs.Machine.{due, begun};
ghost use Rattle.definition.specs.Module.{module_of};
ghost use Rattle.definition.specs.Leaves.{opened};
ghost use Rattle.definition.specs.Start.{first_facts};
ghost use Rattle.form_laws.specs.Good.{words_of};
ghost use Rattle.layout.specs.Indexed.{tables_of};
ghost use Rattle.visit.specs.Held.{live_in};
ghost use Rattle.run_state.specs.Course.{machine_in, analysis_in, Prepared, Between};
ghost use Rattle.run.specs.Running.{SettledAs, Turned, RanTo, RanAs};

use answers::{Refusal, refuse};
use layout::Tables;
use ring::peek;
use rounds::{open_round, settle};
use run_state::Run;
use step::take;

// Where a run stands at a limit: an entry is due, or it is over after so many steps.
#[derive(Clone, Copy)]
pub enum RunTo {
    Due(Run),
    Over(u32),
}

// The run goes on where an entry is due, else it settles.
fn settled(s: &[u8], ws: &mut [u32], t: Tables, r: Run) -> Result<Option<Run>, Refusal>
    requires between { Between s.now ws.old r }
    requires t_value { t ≡ tables_of s.now }
    ensures { SettledAs s.now ws.old ws.new r result }
{
    let queue = r.queue;
    if 0 < queue.count {
        return Ok(Some(r));
    }
    settle(s, ws, t, r)
}

// One taking, and on to where an entry is due again.
fn turn(s: &[u8], ws: &mut [u32], t: Tables, r: Run) -> Result<Option<Run>, Refusal>
    requires between { Between s.now ws.old r }
    requires count_nonzero { 0 < r.queue.count }
    requires t_value { t ≡ tables_of s.now }
    requires steps_bound { r.steps + 1 < 2 ^ 32 }
    ensures { Turned s.now ws.old ws.new r result }
{
    let next = take(s, ws, t, r)?;
    settled(s, ws, t, next)
}

// From an entry due up to the limit.
pub fn run_to(s: &[u8], ws: &mut [u32], t: Tables, first: Run, limit: u32) -> Result<RunTo, Refusal>
    requires between { Between s.now ws.old first }
    requires count_nonzero { 0 < first.queue.count }
    requires t_value { t ≡ tables_of s.now }
    requires steps_le_limit { first.steps ≤ limit }
    ensures { RanTo s.now ws.old ws.new (limit - first.steps) first.steps
        (due (machine_in s.now ws.old first))
        result }
{
    let mut r = first;
    while r.steps < limit {
        match turn(s, ws, t, r)? {
            None => {
                return Ok(RunTo::Over(r.steps + 1));
            }
            Some(next) => {
                r = next;
            }
        }
    }
    Ok(RunTo::Due(r))
}

// From the facts at the start up to the limit.
pub fn run_first(s: &[u8], ws: &mut [u32], t: Tables, limit: u32) -> Result<RunTo, Refusal>
    requires prepared { Prepared s.now ws.old }
    requires false_value { live_in s.now ws.old false ≡ opened (first_facts (module_of s.now)) }
    requires t_value { t ≡ tables_of s.now }
    ensures { RanTo s.now ws.old ws.new limit 0
        (begun (analysis_in s.now ws.old) (first_facts (module_of s.now)))
        result }
{
    match open_round(s, ws, t, false, 0)? {
        None => Ok(RunTo::Over(0)),
        Some(r) => run_to(s, ws, t, r, limit),
    }
}

// 7: an entry is due and the limit is used up.
pub fn spent(s: &[u8], ws: &[u32], t: Tables, r: Run) -> Refusal
    requires between { Between s.now ws.now r }
    requires count_nonzero { 0 < r.queue.count }
    requires t_value { t ≡ tables_of s.now }
    ensures { result ≡ refusal 7 r.chunk (due_of ws.now (words_of (module_of s.now)) r.queue) r.steps }
{
    let at = peek(ws, t.queue_at, r.queue) as usize;
    refuse(7, r.chunk, at, r.steps)
}

// The whole run, from the facts at the start: its steps, or the refusal.
#[tactic(auto, using(crate::proofs::Runs::run_refused, crate::proofs::Runs::run_over, crate::proofs::Runs::run_spent, crate::proofs::Runs::still_between, crate::proofs::Runs::still_some))]
pub fn run(s: &[u8], ws: &mut [u32], t: Tables, limit: u32) -> Result<u32, Refusal>
    requires prepared { Prepared s.now ws.old }
    requires false_value { live_in s.now ws.old false ≡ opened (first_facts (module_of s.now)) }
    requires t_value { t ≡ tables_of s.now }
    ensures { RanAs s.now ws.old ws.new limit result }
{
    match run_first(s, ws, t, limit)? {
        RunTo::Over(steps) => Ok(steps),
        RunTo::Due(r) => Err(spent(s, ws, t, r)),
    }
}
