// What leaves an instruction along one way, joined into the row of its target, place by place: the stack that is kept and the outputs, then
// the locals.
ghost use Rattle.std.specs.Prelude.{◌≡◌, false, ◌⊎◌, ◌+◌, ◌*◌, ◌<◌, ◌≤◌, length};
ghost use Rattle.words.specs.Rows.{cells_at};
ghost use Rattle.row_join.specs.places.Arrive.{no_local, PlacesApart, Arrived};
ghost use Rattle.row_join.specs.joining.Leave.{JoinReady, kept_locals, kept_stack, set_on_way, leaves_kept, row_words};
ghost use Rattle.row_join.specs.joining.Left.{Left};
ghost use Rattle.layout.specs.Layout.{locals_at, place_at, stack_at};

use crate::places::{join_one, keep_all, put_outputs};
use cells::Cell;
use definition::Made;
use layout::{Chunk, NO_LOCAL, ROW_HEAD};
use words::load;

// The local that a visit sets, NO_LOCAL where it sets none.
#[derive(Clone, Copy)]
pub struct SetLocal {
    pub local: u16,
    pub cell: Cell,
}

// What leaves a visit, whatever the way: its outputs, the local that it sets, whether it drops all else, and the height after it.
#[derive(Clone, Copy)]
pub struct Leaving {
    pub made: Made,
    pub set: SetLocal,
    pub resets: bool,
    pub height: usize,
}

// A way: the rows that it leads from and to, the stack places that are kept, and the local that is narrowed, or NO_LOCAL.
#[derive(Clone, Copy)]
pub struct Way {
    pub from: usize,
    pub to: usize,
    pub start: usize,
    pub narrow: u16,
}

// How a way met its target.
#[derive(Clone, Copy)]
pub enum Met {
    Same,
    Changed,
    Unequal,
}

// All locals, of which `set.local` gets the cell of `set`.
fn keep_around(
    ws: &mut [u32],
    from: usize,
    to: usize,
    n: usize,
    fresh: bool,
    set: SetLocal,
    forget: u16,
) -> bool
    requires places_apart { PlacesApart ws.old from to n }
    requires local_lt_n { set.local < n }
    ensures { Arrived fresh to n (kept_locals set forget (cells_at ws.old from n)) ws.old ws.new result }
{
    let skip = set.local as usize;
    let cell = set.cell;
    let low = keep_all(ws, from, to, skip, fresh, forget, NO_LOCAL);
    let one = join_one(ws, to + 16 * skip, fresh, cell);
    let on = 16 * (skip + 1);
    let high = keep_all(
        ws,
        from + on,
        to + on,
        n - skip - 1,
        fresh,
        forget,
        NO_LOCAL,
    );
    low | one | high
}

// All locals. `set.local` may lie past them: then none is set.
fn keep_locals(
    ws: &mut [u32],
    from: usize,
    to: usize,
    n: usize,
    fresh: bool,
    set: SetLocal,
    forget: u16,
) -> bool
    requires { PlacesApart ws.old from to n }
    ensures { Arrived fresh to n (kept_locals set forget (cells_at ws.old from n)) ws.old ws.new result }
{
    let skip = set.local as usize;
    if n <= skip {
        return keep_all(ws, from, to, n, fresh, forget, NO_LOCAL);
    }
    keep_around(ws, from, to, n, fresh, set, forget)
}

// The stack: what is kept, then the outputs.
fn leave_stack(ws: &mut [u32], w: Way, fresh: bool, l: Leaving) -> bool
    requires places_apart { PlacesApart ws.old (stack_at w.from) (stack_at w.to) w.start }
    requires start_le_height { (w.start ≤ l.height) × (place_at w.to l.height ≤ length ws.old) }
    ensures { Arrived fresh (stack_at w.to) l.height (kept_stack l w.narrow (cells_at ws.old (stack_at w.from) w.start))
        ws.old ws.new result }
{
    let made = l.made;
    let set = l.set;
    let to = w.to + ROW_HEAD;
    let a = keep_all(
        ws,
        w.from + ROW_HEAD,
        to,
        w.start,
        fresh,
        set.local,
        w.narrow,
    );
    let b = put_outputs(ws, to + 16 * w.start, l.height - w.start, fresh, made);
    a | b
}

// The local that is set, or the one that is narrowed, as it leaves.
fn set_on_way(ws: &[u32], ch: Chunk, w: Way, set: SetLocal) -> SetLocal
    requires ch_in_bounds { w.from + row_words ch ≤ length ws.now }
    requires fact { (w.narrow ≡ no_local) ⊎ (w.narrow < ch.locals) }
    ensures { result ≡ set_on_way set w.narrow (cells_at ws.now (locals_at w.from ch.stack) ch.locals) }
{
    if w.narrow == NO_LOCAL {
        return set;
    }
    let c = load(
        ws,
        w.from + ROW_HEAD + 16 * ch.stack + 16 * (w.narrow as usize),
    );
    SetLocal {
        local: w.narrow,
        cell: c.narrow_enum(),
    }
}

pub fn leave_kept(ws: &mut [u32], ch: Chunk, w: Way, fresh: bool, l: Leaving) -> bool
    requires join_ready { JoinReady ws.old ch w l }
    requires resets_value { l.resets ≡ false }
    ensures { Left fresh ch w.to l.height
        (leaves_kept l w.narrow (cells_at ws.old (stack_at w.from) w.start)
        (cells_at ws.old (locals_at w.from ch.stack) ch.locals))
        ws.old ws.new result }
{
    let given = l.set;
    let set = set_on_way(ws, ch, w, given);
    let from = w.from + ROW_HEAD + 16 * ch.stack;
    let to = w.to + ROW_HEAD + 16 * ch.stack;
    let a = leave_stack(ws, w, fresh, l);
    let b = keep_locals(ws, from, to, ch.locals, fresh, set, given.local);
    a | b
}
