// What leaves an instruction that drops all else, joined into the row of its target: locals reset, no stack kept.
ghost use Rattle.std.specs.Prelude.{◌≡◌, false, ◌+◌, ◌*◌, ◌<◌, ◌≤◌, length};
ghost use Rattle.definition.specs.Module.{row};
ghost use Rattle.words.specs.Layout.{cell_at};
ghost use Rattle.words.specs.Rows.{cells_at};
ghost use Rattle.row_join.specs.places.Arrive.{Arrived};
ghost use Rattle.row_join.specs.joining.Leave.{JoinReady, leaves_reset};
ghost use Rattle.row_join.specs.joining.Left.{reset_at, Left};
ghost use Rattle.layout.specs.Layout.{locals_at};

use crate::joining::{Leaving, Way};
use crate::places::{join_one, put_outputs};
use cells::Cell;
use layout::{Chunk, ROW_HEAD};
use words::load;

fn reset_cell(reply: Cell, streams: bool, k: usize) -> Cell
    ensures { result ≡ reset_at streams reply k }
{
    if streams & (k == 0) {
        return reply;
    }
    Cell::unit()
}

// After `Reset` every local is Unit but the first of a streaming entry, which is the reply.
fn reset_locals(
    ws: &mut [u32],
    to: usize,
    n: usize,
    fresh: bool,
    reply: Cell,
    streams: bool,
) -> bool
    requires { to + 16 * n ≤ length ws.old }
    ensures { Arrived fresh to n (row (reset_at streams reply) 0 n) ws.old ws.new result }
{
    let mut changed = false;
    for k in 0..n {
        changed = changed | join_one(ws, to + 16 * k, fresh, reset_cell(reply, streams, k));
    }
    changed
}

pub fn leave_reset(ws: &mut [u32], ch: Chunk, w: Way, fresh: bool, l: Leaving) -> bool
    requires { JoinReady ws.old ch w l }
    ensures { Left fresh ch w.to l.height
        (leaves_reset l ch.streams (cell_at ws.old 0) (cells_at ws.old (locals_at w.from ch.stack) ch.locals))
        ws.old ws.new result }
{
    let made = l.made;
    let stack = w.to + ROW_HEAD;
    let locals = stack + 16 * ch.stack;
    let reply = load(ws, 0);
    let a = put_outputs(ws, stack, l.height, fresh, made);
    let b = reset_locals(ws, locals, ch.locals, fresh, reply, ch.streams);
    a | b
}
