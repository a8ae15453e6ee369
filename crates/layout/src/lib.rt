// The layout of the workspace, in cells of 16 words: the reply, three for numbers; one of numbers for each chunk; one for each slot; then for
// each chunk its inputs, its result, and a row for each instruction: 6 cells of numbers, D stack places, L locals.
#![tactic(auto)]

ghost use Rattle.std.specs.Prelude.{◌≡◌, ◌+◌, ◌*◌, ◌<◌, ◌^◌};
ghost use Rattle.layout.specs.Layout.{numbers_at, place_at, local_at};

// No local.
pub const NO_LOCAL: u16 = 65535;

// The words before the chunks' numbers: the reply and three cells more.
pub const HEAD_WORDS: usize = 64;

// The words of a chunk's numbers, in the order of the fields of `Chunk`.
pub const WORD_AT: usize = 0;

pub const WORD_ROWS: usize = 1;

pub const WORD_COUNT: usize = 2;

pub const WORD_LOCALS: usize = 3;

pub const WORD_STACK: usize = 4;

pub const WORD_REACHABLE: usize = 5;

pub const WORD_SUSPENDS: usize = 6;

pub const WORD_INPUTS: usize = 7;

pub const WORD_PARAMS: usize = 8;

pub const WORD_STREAMS: usize = 9;

// The words of numbers at the head of a row, 6 cells: the height and one, where the instruction's field stands, free ones.
pub const ROW_HEAD: usize = 96;

pub const ROW_FIELD: usize = 1;

// The numbers that every taking uses.
#[derive(Clone, Copy)]
pub struct Tables {
    pub chunks: usize,
    pub signatures: usize,
    pub entry: usize,
    pub slots: usize,
    pub float: u32,
    pub handle: u32,
    pub owns: bool,
    pub layout: bool,
    pub natives_at: usize,
    pub natives: usize,
    pub shared_at: usize,
    pub shared: usize,
    pub inits: usize,
    pub past_placed: bool,
    pub queue_at: usize,
}

// The numbers of one chunk.
#[derive(Clone, Copy)]
pub struct Chunk {
    pub at: usize,
    pub rows: usize,
    pub count: usize,
    pub locals: usize,
    pub stack: usize,
    pub reachable: bool,
    pub suspends: bool,
    pub inputs: usize,
    pub params: usize,
    pub streams: bool,
    pub size: usize,
}

pub fn numbers_at(c: usize) -> usize
    requires { c < 2 ^ 32 }
    ensures { result ≡ numbers_at c }
{
    HEAD_WORDS + 16 * c
}

pub fn input_at(ch: Chunk, k: usize) -> usize
    requires { ch.inputs + 16 * k < 2 ^ 63 }
    ensures { result ≡ ch.inputs + 16 * k }
{
    ch.inputs + 16 * k
}

pub fn result_at(ch: Chunk) -> usize
    requires { ch.inputs + 16 * ch.params < 2 ^ 63 }
    ensures { result ≡ ch.inputs + 16 * ch.params }
{
    ch.inputs + 16 * ch.params
}

pub fn row_at(ch: Chunk, i: usize) -> usize
    requires { ch.rows + i * ch.size < 2 ^ 63 }
    ensures { result ≡ ch.rows + i * ch.size }
{
    ch.rows + i * ch.size
}

// A stack place, and a local, of the row.
pub fn place_at(row: usize, p: usize) -> usize
    requires { place_at row p < 2 ^ 63 }
    ensures { result ≡ place_at row p }
{
    row + ROW_HEAD + 16 * p
}

pub fn local_at(ch: Chunk, row: usize, i: usize) -> usize
    requires { local_at row ch.stack i < 2 ^ 63 }
    ensures { result ≡ local_at row ch.stack i }
{
    row + ROW_HEAD + 16 * (ch.stack + i)
}

pub fn slot_at(t: Tables, slot: usize) -> usize
    requires { numbers_at t.chunks + 16 * slot < 2 ^ 63 }
    ensures { result ≡ numbers_at t.chunks + 16 * slot }
{
    HEAD_WORDS + 16 * t.chunks + 16 * slot
}
