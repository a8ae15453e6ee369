// A run between two takings, stored in the front of its workspace and read back from there.
#![tactic(auto)]

ghost use Rattle.std.specs.Prelude.{◌≡◌, ◌+◌, ◌*◌, ◌/◌, ◌%◌, ◌<◌, ◌≤◌, length};
ghost use Rattle.mark.specs.Marks.{word_range};
ghost use Rattle.layout.specs.Layout.{head_words};
ghost use Rattle.paused.specs.Stored.{phase_of, run_words, stored, run_in};

use ring::Queue;
use run_state::Run;
use words::put_words;

// The words behind the reply's.
const PHASE: usize = 16;

const CHANGED: usize = 17;

const CHUNK: usize = 18;

const STEPS: usize = 19;

// Head and count of the queue have two words each, the low one first.
const HEAD: usize = 20;

const HEAD_HIGH: usize = 21;

const COUNT: usize = 22;

const COUNT_HIGH: usize = 23;

const PAUSED_WORDS: usize = 8;

const VALIDATION: u32 = 1;

// A number of 64 bits in two words.
const WORD_RANGE: usize = 4294967296;

fn low(x: usize) -> u32
    ensures { result ≡ x % word_range }
{
    (x % WORD_RANGE) as u32
}

fn high(x: usize) -> u32
    ensures { result ≡ x / word_range }
{
    (x / WORD_RANGE) as u32
}

fn whole(low: u32, high: u32) -> usize
    ensures { result ≡ low + word_range * high }
{
    (low as usize) + WORD_RANGE * (high as usize)
}

fn phase(validating: bool) -> u32
    ensures { result ≡ phase_of validating }
{
    if validating { VALIDATION } else { 0 }
}

fn run_words(r: Run) -> [u32; 8]
    requires { r.chunk < word_range }
    ensures { result ≡ run_words r }
{
    let q = r.queue;
    [
        phase(r.validating),
        u32::from(r.changed),
        r.chunk as u32,
        r.steps,
        low(q.head),
        high(q.head),
        low(q.count),
        high(q.count),
    ]
}

pub fn put_run(ws: &mut [u32], r: Run)
    requires head_words_in_bounds { head_words ≤ length ws.old }
    requires chunk_lt_word_range { r.chunk < word_range }
    ensures { ws.new ≡ stored ws.old r }
{
    let words = run_words(r);
    put_words(ws, PHASE, &words, PAUSED_WORDS);
}

// Whatever the words hold: they may be anybody's.
pub fn run_at(ws: &[u32]) -> Run
    requires { head_words ≤ length ws.now }
    ensures { result ≡ run_in ws.now }
{
    Run {
        validating: ws[PHASE] == VALIDATION,
        chunk: ws[CHUNK] as usize,
        queue: Queue {
            head: whole(ws[HEAD], ws[HEAD_HIGH]),
            count: whole(ws[COUNT], ws[COUNT_HIGH]),
        },
        steps: ws[STEPS],
        changed: ws[CHANGED] == 1,
    }
}
