// A run that pauses: two calls, one that begins it and one that takes it up. Refusals 1 to 5, on taking up 21, the index of the description;
// then the run up to its limit (`reaching`), and the report or the pause (`closing`).
#![tactic(auto)]

mod closing;
mod reaching;

ghost use Rattle.std.specs.Prelude.{◌≡◌, Ok, length};
ghost use Rattle.form.specs.room.Room.{room_of};
ghost use Rattle.pausing.specs.Resumed.{StartedRun, ResumedRun};

use answers::{Refusal, nowhere};
use closing::close;
use form::check_room;
use index_fill::{fill, refill};
use mark::is_marked;
use reaching::{begin, take_up};
use words::clear;

// What a call comes to: a run paused after so many steps in all, a refusal, or the lengths of report and index and the steps. The index's is 0
// where none was asked for.
#[derive(Clone, Copy)]
pub enum Turn {
    Paused {
        steps: u32,
    },
    Refused(Refusal),
    Accepted {
        length: usize,
        steps: u32,
        index: usize,
    },
}

// The mark is wrong.
const WRONG_MARK: u8 = 21;

// Begins a run that takes so many steps at most, then pauses. All words are cleared first: the mark sums every word, also those that the run
// never writes, and a host may keep a paused workspace in a file, which then has nothing in it but the run.
pub fn start_run(
    description: &[u8],
    workspace: &mut [u32],
    report: &mut [u8],
    index: &mut [u8],
    indexed: bool,
    allowance: u32,
) -> Turn
    ensures { StartedRun description.now workspace.old report.old index.old indexed allowance result report.new index.new workspace.new }
{
    let room = workspace.len();
    match check_room(description, room) {
        Err(refusal) => Turn::Refused(refusal),
        Ok(words) => {
            clear(workspace, room);
            let t = fill(description, workspace, words as usize);
            let stage = begin(description, workspace, t, allowance);
            close(description, workspace, report, index, indexed, t, stage)
        }
    }
}

// The workspace is large enough: 21, or on with the run that stands in it.
fn resume_in(
    s: &[u8],
    ws: &mut [u32],
    buf: &mut [u8],
    idx: &mut [u8],
    indexed: bool,
    words: usize,
    allowance: u32,
) -> Turn
    requires { room_of s.now (length ws.old) ≡ Ok words }
    ensures { ResumedRun s.now ws.old buf.old idx.old indexed allowance result buf.new idx.new ws.new }
{
    if !is_marked(ws) {
        return Turn::Refused(nowhere(WRONG_MARK, 0));
    }
    let t = refill(s, ws, words);
    let stage = take_up(s, ws, t, allowance);
    close(s, ws, buf, idx, indexed, t, stage)
}

// Takes a paused run up, for so many steps more. Workspace, description and lengths are those that it was begun with.
pub fn resume_run(
    description: &[u8],
    workspace: &mut [u32],
    report: &mut [u8],
    index: &mut [u8],
    indexed: bool,
    allowance: u32,
) -> Turn
    ensures { ResumedRun description.now workspace.old report.old index.old indexed allowance result report.new index.new workspace.new }
{
    match check_room(description, workspace.len()) {
        Err(refusal) => Turn::Refused(refusal),
        Ok(words) => resume_in(
            description,
            workspace,
            report,
            index,
            indexed,
            words as usize,
            allowance,
        ),
    }
}
