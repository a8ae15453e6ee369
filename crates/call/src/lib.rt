// The whole call: refusals 1 to 5, the index of the description, the analysis (`analyzing`: 9 to 12, the run), the report with 6 and its index
// with 19 (`delivering`). The workspace is cleared at the end.
#![tactic(auto)]

mod analyzing;
mod delivering;

ghost use Rattle.call.specs.Checked.{Checked};
ghost use Rattle.call.specs.CheckedIndexed.{CheckedIndexed};

use analyzing::{analyze, analyze_indexed};
use answers::{Accepted, AcceptedIndexed, Refusal};
pub use delivering::{deliver, deliver_indexed};
use form::check_room;
use index_fill::fill;
use words::clear;

// The facts of a description: the report's length and the steps, or the refusal.
pub fn check(
    description: &[u8],
    workspace: &mut [u32],
    report: &mut [u8],
    limit: u32,
) -> Result<Accepted, Refusal>
    ensures { Checked description.now workspace.old report.old limit result report.new workspace.new }
{
    let n = workspace.len();
    let words = check_room(description, n)?;
    let t = fill(description, workspace, words as usize);
    let answer = analyze(description, workspace, report, t, limit);
    clear(workspace, n);
    answer
}

// The same with an index beside the report: its length, too.
pub fn check_indexed(
    description: &[u8],
    workspace: &mut [u32],
    report: &mut [u8],
    index: &mut [u8],
    limit: u32,
) -> Result<AcceptedIndexed, Refusal>
    ensures { CheckedIndexed description.now workspace.old report.old index.old limit result
        report.new index.new workspace.new }
{
    let room = workspace.len();
    let words = check_room(description, room)?;
    let t = fill(description, workspace, words as usize);
    let answer = analyze_indexed(description, workspace, report, index, t, limit);
    clear(workspace, room);
    answer
}
