// From an index of the description to where the run stands at its limit: paused, refused or over. A run begins with refusals 9 to 12, and goes on
// where words that the host may have changed show that it can.
ghost use Rattle.std.specs.Prelude.{◌≡◌, ◌<◌, length};
ghost use Rattle.definition.specs.Module.{module_of};
ghost use Rattle.form_laws.specs.Good.{Good, words_of};
ghost use Rattle.layout.specs.Indexed.{Indexed, Fresh, tables_of};
ghost use Rattle.run_state.specs.Course.{Prepared, Between, Ended};
ghost use Rattle.start.specs.Starting.{SitesSuspend};
ghost use Rattle.pausing.specs.declared.reaching.Stage.TheVariants.{Over};
ghost use Rattle.pausing.specs.reaching.Stages.{total_of, pause_stage, pause_words, stage_of, stage_words, RanReady, StageReady, StageEnded, Running, Begun, TakenUp, Tested};

use answers::Refusal;
use index_fill::fill;
use layout::Tables;
use mark::put_mark;
use paused::{put_run, run_at};
use resumable::{can_go_on, is_faultless};
use run::{RunTo, run_first, run_to, spent};
use run_state::Run;
use start::{restart, start};

// The end of a run: the reply's largest body and the steps, the facts standing in the workspace.
#[derive(Clone, Copy)]
pub struct End {
    pub reply: u32,
    pub steps: u32,
}

// What a run has come to: paused after so many steps, stored and marked; refused; over.
#[derive(Clone, Copy)]
pub enum Stage {
    Paused(u32),
    Refused(Refusal),
    Over(End),
}

// The word of the mark, behind those of the run.
const MARK: usize = 24;

// No run takes more steps, whatever it is allowed.
const MOST_STEPS: u32 = 4294967295;

// The most steps in all, with so many more allowed.
fn total(steps: u32, allowance: u32) -> u32
    ensures { result ≡ total_of steps allowance }
{
    if MOST_STEPS - steps < allowance {
        return MOST_STEPS;
    }
    steps + allowance
}

// An entry is due and the limit is used up: a pause, or 7 where no more steps can be allowed. The mark is put last, since it is over all words.
fn pause(s: &[u8], ws: &mut [u32], t: Tables, r: Run) -> Stage
    requires between { Between s.now ws.old r }
    requires count_nonzero { 0 < r.queue.count }
    requires t_value { t ≡ tables_of s.now }
    ensures { (result ≡ pause_stage s.now ws.old r) × (ws.new ≡ pause_words ws.old r) }
{
    if r.steps == MOST_STEPS {
        return Stage::Refused(spent(s, ws, t, r));
    }
    put_run(ws, r);
    put_mark(ws, MARK);
    Stage::Paused(r.steps)
}

fn stage_of(s: &[u8], ws: &mut [u32], t: Tables, reply: u32, ran: Result<RunTo, Refusal>) -> Stage
    requires ran_ready { RanReady s.now ws.old ran }
    requires t_value { t ≡ tables_of s.now }
    ensures { (result ≡ stage_of s.now ws.old reply ran) × (ws.new ≡ stage_words ws.old ran) }
{
    match ran {
        Ok(RunTo::Due(r)) => pause(s, ws, t, r),
        Err(refusal) => Stage::Refused(refusal),
        Ok(RunTo::Over(steps)) => Stage::Over(End { reply, steps }),
    }
}

// From the start, in words that hold the index and no fact.
pub fn begin(s: &[u8], ws: &mut [u32], t: Tables, allowance: u32) -> Stage
    requires indexed { Indexed s.now ws.old }
    requires fresh { Fresh s.now ws.old }
    requires s_in_bounds { words_of (module_of s.now) < length ws.old }
    requires t_value { t ≡ tables_of s.now }
    ensures { Begun s.now ws.old ws.new allowance result }
{
    match start(s, ws, t) {
        Err(refusal) => Stage::Refused(refusal),
        Ok(reply) => {
            let ran = run_first(s, ws, t, allowance);
            stage_of(s, ws, t, reply, ran)
        }
    }
}

// From the start, in words that hold anything: marked, and no paused run's.
fn begin_afresh(s: &[u8], ws: &mut [u32], t: Tables, allowance: u32) -> Stage
    requires good { Good s.now (words_of (module_of s.now)) }
    requires s_in_bounds { words_of (module_of s.now) < length ws.old }
    requires t_value { t ≡ tables_of s.now }
    ensures { StageReady s.now ws.new result × (length ws.new ≡ length ws.old) }
{
    let filled = fill(s, ws, t.queue_at);
    begin(s, ws, filled, allowance)
}

// A report is written only of rows without fault, which forged words may not be.
fn if_faultless(s: &[u8], ws: &mut [u32], t: Tables, end: End, allowance: u32) -> Stage
    requires ended { Ended s.now ws.old }
    requires t_value { t ≡ tables_of s.now }
    ensures { Tested s.now ws.old ws.new (Over end) result }
{
    if is_faultless(s, ws, t) {
        return Stage::Over(end);
    }
    begin_afresh(s, ws, t, allowance)
}

// The stage of a run that was taken up.
fn tested(s: &[u8], ws: &mut [u32], t: Tables, stage: Stage, allowance: u32) -> Stage
    requires stage_ended { StageEnded s.now ws.old stage }
    requires good { Good s.now (words_of (module_of s.now)) }
    requires s_in_bounds { words_of (module_of s.now) < length ws.old }
    requires t_value { t ≡ tables_of s.now }
    ensures { Tested s.now ws.old ws.new stage result }
{
    match stage {
        Stage::Paused(steps) => Stage::Paused(steps),
        Stage::Refused(refusal) => Stage::Refused(refusal),
        Stage::Over(end) => if_faultless(s, ws, t, end, allowance),
    }
}

// From where the run stands, in words that hold what a run knows from its start on.
fn go_on(s: &[u8], ws: &mut [u32], t: Tables, reply: u32, allowance: u32) -> Stage
    requires prepared { Prepared s.now ws.old }
    requires running { Running s.now reply }
    requires t_value { t ≡ tables_of s.now }
    ensures { TakenUp s.now ws.old ws.new allowance result }
{
    let r = run_at(ws);
    if !can_go_on(s, ws, t, r) {
        return begin_afresh(s, ws, t, allowance);
    }
    let ran = run_to(s, ws, t, r, total(r.steps, allowance));
    let stage = stage_of(s, ws, t, reply, ran);
    tested(s, ws, t, stage, allowance)
}

// From where a run was left, in words that hold the index.
pub fn take_up(s: &[u8], ws: &mut [u32], t: Tables, allowance: u32) -> Stage
    requires indexed { Indexed s.now ws.old }
    requires sites_suspend { SitesSuspend s.now ws.old }
    requires s_in_bounds { words_of (module_of s.now) < length ws.old }
    requires t_value { t ≡ tables_of s.now }
    ensures { TakenUp s.now ws.old ws.new allowance result }
{
    match restart(s, ws, t) {
        Err(refusal) => Stage::Refused(refusal),
        Ok(reply) => go_on(s, ws, t, reply, allowance),
    }
}
