// Whether a run that comes back from the host can go on: what is read back of it is tested here, since it may be forged. Where the run stands,
// its queue, the heights of its rows (here); before a report is written, that no recorded row has a fault (`faultless`).
#![tactic(auto)]

mod faultless;

ghost use Rattle.std.specs.Prelude.{◌≡◌, ◌≤◌, ◌<◌, length};
ghost use Rattle.ring.specs.Ring.{QueueReady};
ghost use Rattle.definition.specs.Module.{module_of};
ghost use Rattle.layout.specs.Indexed.{Indexed, tables_of};
ghost use Rattle.run_state.specs.Course.{Prepared, LowBefore};
ghost use Rattle.resumable.specs.Decides.{Decides};
ghost use Rattle.resumable.specs.Resumable.{CanGoOn, LowReached, EntriesBelow, QueueDue};

pub use faultless::is_faultless;
use index::{chunk_at, row_height};
use layout::{Tables, row_at};
use report_size::recorded_count;
use ring::{Queue, peek, popped};
use run_state::Run;

// No recorded stack of the chunk is higher than D (the first word of a row is its height and one); a chunk that isn't reachable has none.
fn rows_low(s: &[u8], ws: &[u32], c: usize) -> bool
    requires indexed { Indexed s.now ws.now }
    requires c_in_bounds { c < length (module_of s.now).chunks }
    ensures { Decides result (LowReached s.now ws.now c) }
{
    let ch = chunk_at(s, ws, c);
    let count = recorded_count(ch);
    for i in 0..count {
        if ch.stack + 1 < row_height(ws, row_at(ch, i)) as usize {
            return false;
        }
    }
    true
}

// The same of every chunk before n. Rows of later chunks may hold anything: they are emptied before they are used.
fn low_before(s: &[u8], ws: &[u32], n: usize) -> bool
    requires indexed { Indexed s.now ws.now }
    requires n_in_bounds { n ≤ length (module_of s.now).chunks }
    ensures { Decides result (LowBefore s.now ws.now n) }
{
    for c in 0..n {
        if !rows_low(s, ws, c) {
            return false;
        }
    }
    true
}

// The queue stands in the words from base on: from here on no place of an entry is out of range.
fn is_ready(ws: &[u32], base: usize, q: Queue) -> bool
    requires { base ≤ length ws.now }
    ensures { Decides result (QueueReady ws.now base q) }
{
    let room = ws.len() - base;
    (q.head < room) & (q.count <= room)
}

// The entries are instructions of a chunk that has so many.
fn entries_below(ws: &[u32], base: usize, q: Queue, count: usize) -> bool
    requires { QueueReady ws.now base q }
    ensures { Decides result (EntriesBelow ws.now base q count) }
{
    let mut rest = q;
    while 0 < rest.count {
        if count <= peek(ws, base, rest) as usize {
            return false;
        }
        rest = popped(ws, base, rest);
    }
    true
}

// An entry is due, and all entries are instructions of the chunk.
fn is_due(ws: &[u32], base: usize, q: Queue, count: usize) -> bool
    requires { base ≤ length ws.now }
    ensures { Decides result (QueueDue ws.now base q count) }
{
    if is_ready(ws, base, q) {
        return (0 < q.count) & entries_below(ws, base, q, count);
    }
    false
}

// The run can go on from here: chunk, queue, entries and heights are those of some run of this description.
pub fn can_go_on(s: &[u8], ws: &[u32], t: Tables, r: Run) -> bool
    requires prepared { Prepared s.now ws.now }
    requires t_value { t ≡ tables_of s.now }
    ensures { Decides result (CanGoOn s.now ws.now r) }
{
    let c = r.chunk;
    let q = r.queue;
    if t.chunks <= c {
        return false;
    }
    let ch = chunk_at(s, ws, c);
    is_due(ws, t.queue_at, q, ch.count) & rows_low(s, ws, c) & low_before(s, ws, c) & ch.reachable
}
