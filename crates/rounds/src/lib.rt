// From chunk to chunk and round to round, where no entry is due: on to the next chunk, the next round, validation (with 16 and 17 after each
// chunk, `inspecting`) or the end. It takes no step.
#![tactic(auto)]

mod entering;
mod inspecting;

ghost use Rattle.std.specs.Prelude.{◌≡◌};
ghost use Rattle.layout.specs.Indexed.{tables_of};
ghost use Rattle.run_state.specs.Course.{Between, Ended};
ghost use Rattle.rounds.specs.Settling.{Onward};
ghost use Rattle.rounds.specs.Ends.{EndsAs, GoesOn};

use answers::Refusal;
pub use entering::open_round;
use entering::{begin, next_reachable};
use fact_join::merge_writes;
use inspecting::inspected;
use layout::Tables;
use run_state::Run;

// The end of a round: another, where the facts moved, else validation. The end of validation: done.
fn end_round(s: &[u8], ws: &mut [u32], t: Tables, r: Run) -> Result<Option<Run>, Refusal>
    requires ended { Ended s.now ws.old }
    requires t_value { t ≡ tables_of s.now }
    ensures { EndsAs s.now ws.old ws.new r result }
{
    if r.validating {
        return Ok(None);
    }
    let moved = merge_writes(s, ws, t, r.changed);
    open_round(s, ws, t, !moved, r.steps)
}

fn onward(s: &[u8], ws: &mut [u32], t: Tables, r: Run) -> Result<Option<Run>, Refusal>
    requires between { Between s.now ws.old r }
    requires t_value { t ≡ tables_of s.now }
    ensures { GoesOn s.now ws.old ws.new r result }
{
    let next = next_reachable(s, ws, t, r.chunk + 1);
    if next < t.chunks {
        return Ok(Some(begin(s, ws, t, next, r.validating, r.changed, r.steps)));
    }
    end_round(s, ws, t, r)
}

// The queue is empty: the run with which an entry is due again, none where all is done, or the refusal.
#[tactic(auto, using(crate::proofs::Settles::round_settles, crate::proofs::Settles::fault_settles, crate::proofs::Settles::faultless_settles))]
pub fn settle(s: &[u8], ws: &mut [u32], t: Tables, r: Run) -> Result<Option<Run>, Refusal>
    requires between { Between s.now ws.old r }
    requires count_value { r.queue.count ≡ 0 }
    requires t_value { t ≡ tables_of s.now }
    ensures { Onward s.now ws.old ws.new r result }
{
    if !r.validating {
        return onward(s, ws, t, r);
    }
    inspected(s, ws, r.chunk, r.steps)?;
    onward(s, ws, t, r)
}
