// The library: `sizes`, `check`, `lookup`; with an index beside the report `check_indexed`, `lookup_indexed`; in turns `start_run`,
// `resume_run`.
#![tactic(auto)]

ghost use Rattle.report_index.specs.Index.{Answered};
ghost use Rattle.call.specs.Checked.{Checked};
ghost use Rattle.call.specs.CheckedIndexed.{CheckedIndexed};

pub use answers::{Accepted, AcceptedIndexed, Refusal};
pub use lookup::{Part, lookup};
pub use pausing::{Turn, resume_run, start_run};
pub use report_bound::{Room, sizes};

// The facts of a description: the report's length and the steps, or the refusal.
pub fn check(
    description: &[u8],
    workspace: &mut [u32],
    report: &mut [u8],
    limit: u32,
) -> Result<Accepted, Refusal>
    ensures { Checked description.now workspace.old report.old limit result report.new workspace.new }
{
    call::check(description, workspace, report, limit)
}

// The same with an index beside the report: its length, too.
pub fn check_indexed(
    description: &[u8],
    workspace: &mut [u32],
    report: &mut [u8],
    index: &mut [u8],
    limit: u32,
) -> Result<AcceptedIndexed, Refusal>
    ensures { CheckedIndexed description.now workspace.old report.old index.old limit result
        report.new index.new workspace.new }
{
    call::check_indexed(description, workspace, report, index, limit)
}

// The part of a report that is the record of an instruction, through an index; 20 where report and index disagree.
pub fn lookup_indexed(
    report: &[u8],
    index: &[u8],
    chunk: u16,
    instruction: u16,
) -> Result<Part, Refusal>
    ensures { Answered report.now index.now chunk instruction result }
{
    report_index::lookup_indexed(report, index, chunk, instruction)
}
