// What is answered of the stage that a run has come to: the pause, whose words stay, or a refusal or the report, with zeros in the workspace.
ghost use Rattle.std.specs.Prelude.{◌≡◌, ℕ, true, false, List};
ghost use Rattle.definition.specs.Call.{reported};
ghost use Rattle.layout.specs.Indexed.{tables_of};
ghost use Rattle.run_state.specs.Course.{Ended};
ghost use Rattle.report_size.specs.Reporting.{Faultless, report_in};
ghost use Rattle.pausing.specs.reaching.Stages.{StageReady};
ghost use Rattle.pausing.specs.closing.Closed.{ToldTurn, Closed};

use crate::Turn;
use crate::reaching::{End, Stage};
use call::{deliver, deliver_indexed};
use layout::Tables;
use words::clear;

// The report alone.
fn told(s: &[u8], ws: &[u32], buf: &mut [u8], t: Tables, end: End) -> Turn
    requires ended { Ended s.now ws.now }
    requires faultless { Faultless s.now ws.now }
    requires t_value { t ≡ tables_of s.now }
    ensures { (idx : List ℕ) → ToldTurn (reported (report_in s.now ws.now end.reply) end.steps) false buf.old idx result buf.new idx }
{
    match deliver(s, ws, buf, t, end.reply, end.steps) {
        Err(refusal) => Turn::Refused(refusal),
        Ok(accepted) => Turn::Accepted {
            length: accepted.length,
            steps: accepted.steps,
            index: 0,
        },
    }
}

// The report and its index.
fn told_indexed(s: &[u8], ws: &[u32], buf: &mut [u8], idx: &mut [u8], t: Tables, end: End) -> Turn
    requires ended { Ended s.now ws.now }
    requires faultless { Faultless s.now ws.now }
    requires t_value { t ≡ tables_of s.now }
    ensures { ToldTurn (reported (report_in s.now ws.now end.reply) end.steps) true buf.old idx.old result buf.new idx.new }
{
    match deliver_indexed(s, ws, buf, idx, t, end.reply, end.steps) {
        Err(refusal) => Turn::Refused(refusal),
        Ok(accepted) => Turn::Accepted {
            length: accepted.length,
            steps: accepted.steps,
            index: accepted.index,
        },
    }
}

fn tell(
    s: &[u8],
    ws: &[u32],
    buf: &mut [u8],
    idx: &mut [u8],
    indexed: bool,
    t: Tables,
    end: End,
) -> Turn
    requires ended { Ended s.now ws.now }
    requires faultless { Faultless s.now ws.now }
    requires t_value { t ≡ tables_of s.now }
    ensures { ToldTurn (reported (report_in s.now ws.now end.reply) end.steps) indexed buf.old idx.old result buf.new idx.new }
{
    if indexed {
        return told_indexed(s, ws, buf, idx, t, end);
    }
    told(s, ws, buf, t, end)
}

pub fn close(
    s: &[u8],
    ws: &mut [u32],
    buf: &mut [u8],
    idx: &mut [u8],
    indexed: bool,
    t: Tables,
    stage: Stage,
) -> Turn
    requires stage_ready { StageReady s.now ws.old stage }
    requires t_value { t ≡ tables_of s.now }
    ensures { Closed s.now ws.old buf.old idx.old indexed stage result buf.new idx.new ws.new }
{
    let room = ws.len();
    match stage {
        Stage::Paused(steps) => Turn::Paused { steps },
        Stage::Refused(refusal) => {
            clear(ws, room);
            Turn::Refused(refusal)
        }
        Stage::Over(end) => {
            let turn = tell(s, ws, buf, idx, indexed, t, end);
            clear(ws, room);
            turn
        }
    }
}
