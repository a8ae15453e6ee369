// The next reachable chunk; a chunk begins, a round or validation begins.
ghost use Rattle.std.specs.Prelude.{◌≡◌, true, ◌<◌, ◌≤◌, length};
ghost use Rattle.definition.specs.Module.{module_of};
ghost use Rattle.form_laws.specs.Good.{chunk_no};
ghost use Rattle.layout.specs.Indexed.{Indexed, tables_of};
ghost use Rattle.run_state.specs.Course.{Prepared, LowBefore};
ghost use Rattle.rounds.specs.entering.Entering.{Opened};
ghost use Rattle.rounds.specs.entering.Reach.{NextReachable};
ghost use Rattle.rounds.specs.entering.Rows.{RowsThere, Cleared, LocalsThere, FilledAt, Filled};
ghost use Rattle.rounds.specs.entering.Began.{Began};

use answers::Refusal;
use cells::Cell;
use index::{chunk_at, set_row};
use layout::{Chunk, Tables, input_at, local_at, row_at};
use ring::{Queue, push};
use run_state::Run;
use words::{copy16, store};

// The first reachable chunk from this one on, or the number of chunks.
pub fn next_reachable(s: &[u8], ws: &[u32], t: Tables, from: usize) -> usize
    requires indexed { Indexed s.now ws.now }
    requires t_value { t ≡ tables_of s.now }
    requires from_le_chunks { from ≤ t.chunks }
    ensures { NextReachable s.now from result }
{
    for c in from..t.chunks {
        let ch = chunk_at(s, ws, c);
        if ch.reachable {
            return c;
        }
    }
    t.chunks
}

fn clear_rows(ws: &mut [u32], ch: Chunk)
    requires { RowsThere ws.old ch }
    ensures { Cleared ch ch.count ws.old ws.new }
{
    for i in 0..ch.count {
        set_row(ws, row_at(ch, i), 0);
    }
}

// A local of the first instruction: an input of the chunk, or Unit.
fn first_local(ws: &mut [u32], ch: Chunk, i: usize)
    requires locals_there { LocalsThere ws.old ch }
    requires i_lt_locals { i < ch.locals }
    ensures { FilledAt ch i ws.old ws.new }
{
    let to = local_at(ch, ch.rows, i);
    if i < ch.params {
        copy16(ws, input_at(ch, i), to);
        return;
    }
    store(ws, to, Cell::unit());
}

fn first_locals(ws: &mut [u32], ch: Chunk)
    requires { LocalsThere ws.old ch }
    ensures { Filled ch ch.locals ws.old ws.new }
{
    for i in 0..ch.locals {
        first_local(ws, ch, i);
    }
}

// Chunk c begins: only its first instruction has a state, and only that is queued.
pub fn begin(
    s: &[u8],
    ws: &mut [u32],
    t: Tables,
    c: usize,
    validating: bool,
    changed: bool,
    steps: u32,
) -> Run
    requires prepared { Prepared s.now ws.old }
    requires t_value { t ≡ tables_of s.now }
    requires c_in_bounds { c < length (module_of s.now).chunks }
    requires c_value { (chunk_no (module_of s.now) c).reachable ≡ true }
    requires low_before { LowBefore s.now ws.old c }
    ensures { Began s.now ws.old ws.new c validating changed steps result }
{
    let ch = chunk_at(s, ws, c);
    clear_rows(ws, ch);
    first_locals(ws, ch);
    set_row(ws, ch.rows, 1);
    let empty = Queue { head: 0, count: 0 };
    let queue = push(ws, t.queue_at, empty, 0);
    Run {
        validating,
        chunk: c,
        queue,
        steps,
        changed,
    }
}

// A round, or validation, begins with the first reachable chunk, and an entry of it is due; with none, all is done.
pub fn open_round(
    s: &[u8],
    ws: &mut [u32],
    t: Tables,
    validating: bool,
    steps: u32,
) -> Result<Option<Run>, Refusal>
    requires prepared { Prepared s.now ws.old }
    requires t_value { t ≡ tables_of s.now }
    ensures { Opened s.now ws.old ws.new validating steps result }
{
    let first = next_reachable(s, ws, t, 0);
    if first < t.chunks {
        return Ok(Some(begin(s, ws, t, first, validating, false, steps)));
    }
    Ok(None)
}
