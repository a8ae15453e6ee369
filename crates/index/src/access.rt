// A chunk's numbers, and its rows.
ghost use Rattle.std.specs.Prelude.{◌≡◌, ◌+◌, ◌*◌, ◌<◌, ◌≤◌, ◌^◌, not, eqb, length, get_or, set};
ghost use Rattle.definition.specs.Module.{module_of};
ghost use Rattle.layout.specs.Layout.{numbers_at, word_suspends};
ghost use Rattle.layout.specs.Indexed.{Indexed, chunk_place, chunk_at};
ghost use Rattle.layout.specs.Read.{chunk_read};

use layout::{
    Chunk, ROW_FIELD, WORD_COUNT, WORD_INPUTS, WORD_LOCALS, WORD_PARAMS, WORD_REACHABLE, WORD_ROWS,
    WORD_STACK, WORD_STREAMS, WORD_SUSPENDS, numbers_at, row_at,
};

fn word(ws: &[u32], at: usize) -> usize
    requires { at < length ws.now }
    ensures { (result ≡ get_or ws.now at 0) × (result < 2 ^ 32) }
{
    ws[at] as usize
}

fn flag(ws: &[u32], at: usize) -> bool
    requires { at < length ws.now }
    ensures { result ≡ not (eqb (get_or ws.now at 0) 0) }
{
    ws[at] != 0
}

// The numbers of a chunk, which stand from n on.
fn read_chunk(ws: &[u32], n: usize) -> Chunk
    requires { n + 16 ≤ length ws.now }
    ensures { result ≡ chunk_read ws.now n }
{
    let locals = word(ws, n + WORD_LOCALS);
    let stack = word(ws, n + WORD_STACK);
    Chunk {
        at: word(ws, n),
        rows: word(ws, n + WORD_ROWS),
        count: word(ws, n + WORD_COUNT),
        locals,
        stack,
        reachable: flag(ws, n + WORD_REACHABLE),
        suspends: flag(ws, n + WORD_SUSPENDS),
        inputs: word(ws, n + WORD_INPUTS),
        params: word(ws, n + WORD_PARAMS),
        streams: flag(ws, n + WORD_STREAMS),
        size: 16 * (locals + stack + 6),
    }
}

pub fn chunk_at(s: &[u8], ws: &[u32], c: usize) -> Chunk
    requires indexed { Indexed s.now ws.now }
    requires c_in_bounds { c < length (module_of s.now).chunks }
    ensures { result ≡ chunk_at s.now ws.now c }
{
    read_chunk(ws, numbers_at(c))
}

// The chunk c suspends, as its numbers say from now on.
pub fn set_suspends(ws: &mut [u32], c: usize)
    requires { (c < 2 ^ 32) × (numbers_at c + word_suspends < length ws.old) }
    ensures { ws.new ≡ set ws.old (numbers_at c + word_suspends) 1 }
{
    let at = numbers_at(c) + WORD_SUSPENDS;
    ws[at] = 1;
}

// 0 where the instruction has no state, else one more than the height of its stack.
pub fn row_height(ws: &[u32], row: usize) -> u32
    requires { row < length ws.now }
    ensures { result ≡ get_or ws.now row 0 }
{
    ws[row]
}

pub fn set_row(ws: &mut [u32], row: usize, height: u32)
    requires { row < length ws.old }
    ensures { ws.new ≡ set ws.old row height }
{
    ws[row] = height;
}

// Where the field of the instruction i of the chunk c stands.
pub fn field_of(s: &[u8], ws: &[u32], c: usize, ch: Chunk, i: usize) -> usize
    requires indexed { Indexed s.now ws.now }
    requires c_in_bounds { c < length (module_of s.now).chunks }
    requires ch_value { ch ≡ chunk_at s.now ws.now c }
    requires i_lt_count { i < ch.count }
    ensures { result ≡ get_or (chunk_place s.now c).code i 0 }
{
    word(ws, row_at(ch, i) + ROW_FIELD)
}
