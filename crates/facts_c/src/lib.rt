// The static library: the call, the sizes that it is lent and the lookup, the call and the lookup with an index, the two calls of a run that pauses, for programs in C and Rust. A slice is two arguments, pointer and length.
#![tactic(auto)]

ghost use Rattle.std.specs.Prelude.{◌<◌, ◌≡◌, cond, [], ◌∷◌, eqb, get_or};
ghost use Rattle.answers.specs.Answers.{numbers, indexed_numbers};
ghost use Rattle.definition.specs.Form.{form_of};
ghost use Rattle.lookup.specs.Find.{found};
ghost use Rattle.report_index.specs.Index.{sought};
ghost use Rattle.facts_c.specs.Called.{CallOf, IndexedCallOf, WordsOf, SizesOf, PartOf, SoughtOf, StartOf, ResumeOf};
ghost use Rattle.pausing.specs.Turned.{turn_numbers};
ghost use Rattle.pausing.specs.Resumed.{ShortTurn};

use answers::{Accepted, AcceptedIndexed, Refusal};
use facts::{Turn, check, check_indexed, lookup_indexed, resume_run, start_run};
use form::check_form;
use lookup::{Part, part_of};

// An answer as five words.
fn in_words(answer: Result<Accepted, Refusal>) -> [u32; 5]
    requires { get_or (numbers answer) 4 0 < 4294967296 }
    ensures { result ≡ numbers answer }
{
    match answer {
        Ok(a) => [0, 65535, 65535, a.steps, a.length as u32],
        Err(r) => [
            r.number as u32,
            r.chunk as u32,
            r.instruction as u32,
            r.steps,
            0,
        ],
    }
}

// The first of them.
fn number_of(answer: Result<Accepted, Refusal>) -> u32
    ensures { result ≡ get_or (numbers answer) 0 0 }
{
    match answer {
        Ok(_) => 0,
        Err(r) => r.number as u32,
    }
}

// The call. 0 where it is accepted, else the refusal's number; `answer` has number, chunk, instruction, steps and the report's length.
#[unsafe(no_mangle)]
pub extern "C" fn facts_check(
    description: &[u8],
    workspace: &mut [u32],
    report: &mut [u8],
    limit: u32,
    answer: &mut [u32; 5],
) -> u32
    ensures { CallOf description.now workspace.old report.old limit result answer.new report.new workspace.new }
{
    let given = check(description, workspace, report, limit);
    *answer = in_words(given);
    number_of(given)
}

// The least workspace of a description of good form, W + 1 words, and 0; or 0 words and the refusal's number.
#[unsafe(no_mangle)]
pub extern "C" fn facts_words(description: &[u8], words: &mut [u64; 1]) -> u32
    ensures { WordsOf (form_of description.now) result words.new }
{
    match check_form(description) {
        Err(r) => {
            *words = [0];
            r.number as u32
        }
        Ok(w) => {
            *words = [w + 1];
            0
        }
    }
}

// The least workspace and a length that no report of the description passes, and 0; or zeros and the refusal's number.
#[unsafe(no_mangle)]
pub extern "C" fn facts_sizes(description: &[u8], sizes: &mut [u64; 2]) -> u32
    ensures { SizesOf description.now result sizes.new }
{
    match facts::sizes(description) {
        Err(r) => {
            *sizes = [0, 0];
            r.number as u32
        }
        Ok(room) => {
            *sizes = [room.words, room.report];
            0
        }
    }
}

// A part as two words, first byte and length.
fn in_two_words(part: Part) -> [u64; 2]
    ensures { result ≡ part.first ∷ part.size ∷ [] }
{
    [part.first as u64, part.size as u64]
}

// Whether there is a record: no record is empty.
fn is_there(part: Part) -> u32
    ensures { result ≡ cond (eqb part.size 0) 0 1 }
{
    u32::from(part.size != 0)
}

// The part of a report that is an instruction's record, as first byte and length, and 1; or the empty part at the end, and 0.
#[unsafe(no_mangle)]
pub extern "C" fn facts_lookup(
    report: &[u8],
    chunk: u16,
    instruction: u16,
    part: &mut [u64; 2],
) -> u32
    ensures { PartOf (found report.now chunk instruction) result part.new }
{
    let found = part_of(report, chunk, instruction);
    *part = in_two_words(found);
    is_there(found)
}

// An answer of a call with an index as six words.
fn in_six_words(answer: Result<AcceptedIndexed, Refusal>) -> [u32; 6]
    requires { (get_or (indexed_numbers answer) 4 0 < 4294967296) × (get_or (indexed_numbers answer) 5 0 < 4294967296) }
    ensures { result ≡ indexed_numbers answer }
{
    match answer {
        Ok(a) => [0, 65535, 65535, a.steps, a.length as u32, a.index as u32],
        Err(refusal) => [
            refusal.number as u32,
            refusal.chunk as u32,
            refusal.instruction as u32,
            refusal.steps,
            0,
            0,
        ],
    }
}

// The call with an index. 0 where it is accepted, else the refusal's number; `answer` has number, chunk, instruction, steps, the report's
// length and the index's.
#[unsafe(no_mangle)]
pub extern "C" fn facts_check_indexed(
    description: &[u8],
    workspace: &mut [u32],
    report: &mut [u8],
    index: &mut [u8],
    limit: u32,
    answer: &mut [u32; 6],
) -> u32
    ensures { IndexedCallOf description.now workspace.old report.old index.old limit result
        answer.new report.new index.new workspace.new }
{
    let words = in_six_words(check_indexed(description, workspace, report, index, limit));
    *answer = words;
    words[0]
}

// The lookup through an index: as `facts_lookup`, or the empty part at the end, and 20, where the two disagree.
#[unsafe(no_mangle)]
pub extern "C" fn facts_lookup_indexed(
    report: &[u8],
    index: &[u8],
    chunk: u16,
    instruction: u16,
    part: &mut [u64; 2],
) -> u32
    ensures { SoughtOf report.now (sought report.now index.now chunk instruction) result part.new }
{
    match lookup_indexed(report, index, chunk, instruction) {
        Err(r) => {
            *part = [report.len() as u64, 0];
            r.number as u32
        }
        Ok(found) => {
            *part = in_two_words(found);
            is_there(found)
        }
    }
}

// The number of a pause: no refusal has it.
const PAUSED: u32 = 255;

// What a call of a run that pauses comes to, as six words.
fn turn_words(turn: Turn) -> [u32; 6]
    requires { ShortTurn turn }
    ensures { result ≡ turn_numbers turn }
{
    match turn {
        Turn::Paused { steps } => [PAUSED, 65535, 65535, steps, 0, 0],
        Turn::Refused(refusal) => in_six_words(Err(refusal)),
        Turn::Accepted {
            length,
            steps,
            index,
        } => in_six_words(Ok(AcceptedIndexed {
            length,
            steps,
            index,
        })),
    }
}

// Begins a run that pauses after so many steps. 0 where it is accepted, 255 where it is paused, else the refusal's number; `answer` as of
// `facts_check_indexed`, with the steps so far and no lengths in a pause. Where `indexed` is 0 no index is written.
#[unsafe(no_mangle)]
pub extern "C" fn facts_start(
    description: &[u8],
    workspace: &mut [u32],
    report: &mut [u8],
    index: &mut [u8],
    indexed: u8,
    allowance: u32,
    answer: &mut [u32; 6],
) -> u32
    ensures { StartOf description.now workspace.old report.old index.old indexed allowance result
        answer.new report.new index.new workspace.new }
{
    let turn = turn_words(start_run(
        description,
        workspace,
        report,
        index,
        indexed != 0,
        allowance,
    ));
    *answer = turn;
    turn[0]
}

// Takes it up, for so many steps more; 21 where the mark is wrong.
#[unsafe(no_mangle)]
pub extern "C" fn facts_resume(
    description: &[u8],
    workspace: &mut [u32],
    report: &mut [u8],
    index: &mut [u8],
    indexed: u8,
    allowance: u32,
    answer: &mut [u32; 6],
) -> u32
    ensures { ResumeOf description.now workspace.old report.old index.old indexed allowance result
        answer.new report.new index.new workspace.new }
{
    let turn = turn_words(resume_run(
        description,
        workspace,
        report,
        index,
        indexed != 0,
        allowance,
    ));
    *answer = turn;
    turn[0]
}
