// From an index of the description to what is decided: refusals 9 to 12, the run; and the answers of both calls.
ghost use Rattle.std.specs.Prelude.{◌≡◌, ◌<◌, length};
ghost use Rattle.definition.specs.Module.{module_of};
ghost use Rattle.definition.specs.Call.{decided};
ghost use Rattle.form_laws.specs.Good.{words_of};
ghost use Rattle.layout.specs.Indexed.{Indexed, Fresh, tables_of};
ghost use Rattle.run_state.specs.Course.{room_in};
ghost use Rattle.call.specs.delivering.Told.{Told, ToldIndexed};
ghost use Rattle.call.specs.analyzing.Reached.{ReachedBy};

use crate::delivering::{deliver, deliver_indexed};
use answers::{Accepted, AcceptedIndexed, Refusal};
use layout::Tables;
use run::run;
use start::start;

// What an accepted run has come to: the reply's largest body and the steps, the facts standing in the workspace.
#[derive(Clone, Copy)]
pub struct End {
    pub reply: u32,
    pub steps: u32,
}

// Refusals 9 to 12, and the run.
fn decide_run(s: &[u8], ws: &mut [u32], t: Tables, limit: u32) -> Result<End, Refusal>
    requires indexed { Indexed s.now ws.old }
    requires fresh { Fresh s.now ws.old }
    requires s_in_bounds { words_of (module_of s.now) < length ws.old }
    requires t_value { t ≡ tables_of s.now }
    ensures { ReachedBy (decided (module_of s.now) (room_in s.now ws.old) limit) s.now ws.new result }
{
    let reply = start(s, ws, t)?;
    let steps = run(s, ws, t, limit)?;
    Ok(End { reply, steps })
}

// Then the report.
pub fn analyze(
    s: &[u8],
    ws: &mut [u32],
    buf: &mut [u8],
    t: Tables,
    limit: u32,
) -> Result<Accepted, Refusal>
    requires indexed { Indexed s.now ws.old }
    requires fresh { Fresh s.now ws.old }
    requires s_in_bounds { words_of (module_of s.now) < length ws.old }
    requires t_value { t ≡ tables_of s.now }
    ensures { Told (decided (module_of s.now) (room_in s.now ws.old) limit) buf.old result buf.new }
{
    let end = decide_run(s, ws, t, limit)?;
    deliver(s, ws, buf, t, end.reply, end.steps)
}

// Then the report and its index.
pub fn analyze_indexed(
    s: &[u8],
    ws: &mut [u32],
    buf: &mut [u8],
    idx: &mut [u8],
    t: Tables,
    limit: u32,
) -> Result<AcceptedIndexed, Refusal>
    requires indexed { Indexed s.now ws.old }
    requires fresh { Fresh s.now ws.old }
    requires s_in_bounds { words_of (module_of s.now) < length ws.old }
    requires t_value { t ≡ tables_of s.now }
    ensures { ToldIndexed (decided (module_of s.now) (room_in s.now ws.old) limit)
        buf.old idx.old result buf.new idx.new }
{
    let end = decide_run(s, ws, t, limit)?;
    deliver_indexed(s, ws, buf, idx, t, end.reply, end.steps)
}
