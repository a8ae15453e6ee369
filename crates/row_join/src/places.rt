// Cells that arrive at the places of a row.
ghost use Rattle.std.specs.Prelude.{◌≡◌, [], ◌∷◌, map, ◌+◌, ◌*◌, ◌≤◌, length};
ghost use Rattle.definition.specs.Ways.{is_from, narrow_stack, output_list};
ghost use Rattle.words.specs.Layout.{cell_at};
ghost use Rattle.words.specs.Rows.{cells_at};
ghost use Rattle.row_join.specs.places.Arrive.{met_cell, kept_cell, untouched_at, PlacesApart, Arrived};

use cells::{Cell, JoinedCell};
use definition::{Made, output};
use layout::NO_LOCAL;
use words::{copy16, is_plain, load, same16, store};

// A cell arrives where another stands, or at a fresh place, whose words are not read: nobody may have written them.
fn meet(ws: &[u32], to: usize, fresh: bool, new: Cell) -> JoinedCell
    requires { to + 16 ≤ length ws.now }
    ensures { result ≡ met_cell fresh (cell_at ws.now to) new }
{
    if fresh {
        return JoinedCell {
            cell: new,
            changed: true,
        };
    }
    let old = load(ws, to);
    old.join(new)
}

pub fn join_one(ws: &mut [u32], to: usize, fresh: bool, new: Cell) -> bool
    requires { to + 16 ≤ length ws.old }
    ensures { Arrived fresh to 1 (new ∷ []) ws.old ws.new result }
{
    let j = meet(ws, to, fresh, new);
    store(ws, to, j.cell);
    j.changed
}

fn is_from(o: Option<u16>, local: u16) -> bool
    ensures { result ≡ is_from o local }
{
    match o {
        None => false,
        Some(i) => i == local,
    }
}

fn narrowed_with(c: Cell, narrow: u16) -> Cell
    ensures { result ≡ narrow_stack narrow c }
{
    let f = c.flow;
    let origin = f.origin;
    if is_from(origin, narrow) {
        return c.narrow_enum();
    }
    c
}

// A cell that is kept: it forgets the local `forget`; or it is narrowed to ENUM if its origin is the local `narrow`. No instruction does both.
fn kept(c: Cell, forget: u16, narrow: u16) -> Cell
    ensures { result ≡ kept_cell forget narrow c }
{
    if forget != NO_LOCAL {
        return c.invalidate(forget);
    }
    if narrow != NO_LOCAL {
        return narrowed_with(c, narrow);
    }
    c
}

// Words that leave as they are: nothing is forgotten or narrowed, or nothing in them names a local.
fn untouched(ws: &[u32], from: usize, forget: u16, narrow: u16) -> bool
    requires { from + 16 ≤ length ws.now }
    ensures { result ≡ untouched_at ws.now from forget narrow }
{
    ((forget == NO_LOCAL) & (narrow == NO_LOCAL)) | is_plain(ws, from)
}

// The cell that is kept is joined.
fn join_kept(ws: &mut [u32], from: usize, to: usize, fresh: bool, forget: u16, narrow: u16) -> bool
    requires { PlacesApart ws.old from to 1 }
    ensures { Arrived fresh to 1 (kept_cell forget narrow (cell_at ws.old from) ∷ []) ws.old ws.new result }
{
    let c = kept(load(ws, from), forget, narrow);
    join_one(ws, to, fresh, c)
}

fn keep_same(ws: &mut [u32], from: usize, to: usize, fresh: bool) -> bool
    requires { PlacesApart ws.old from to 1 }
    ensures { Arrived fresh to 1 (cell_at ws.old from ∷ []) ws.old ws.new result }
{
    if fresh {
        copy16(ws, from, to);
        return true;
    }
    if same16(ws, from, to) {
        return false;
    }
    join_kept(ws, from, to, false, NO_LOCAL, NO_LOCAL)
}

// One kept place. Where nothing in it is touched, its words are compared or copied.
fn keep_one(ws: &mut [u32], from: usize, to: usize, fresh: bool, forget: u16, narrow: u16) -> bool
    requires { PlacesApart ws.old from to 1 }
    ensures { Arrived fresh to 1 (kept_cell forget narrow (cell_at ws.old from) ∷ []) ws.old ws.new result }
{
    if untouched(ws, from, forget, narrow) {
        return keep_same(ws, from, to, fresh);
    }
    join_kept(ws, from, to, fresh, forget, narrow)
}

// n places, one behind another: what stands from word `from` on arrives from word `to` on. Answers whether one of them changed.
pub fn keep_all(
    ws: &mut [u32],
    from: usize,
    to: usize,
    n: usize,
    fresh: bool,
    forget: u16,
    narrow: u16,
) -> bool
    requires { PlacesApart ws.old from to n }
    ensures { Arrived fresh to n (map (kept_cell forget narrow) (cells_at ws.old from n)) ws.old ws.new result }
{
    let mut changed = false;
    for p in 0..n {
        changed = changed | keep_one(ws, from + 16 * p, to + 16 * p, fresh, forget, narrow);
    }
    changed
}

// The outputs, from the place to on.
pub fn put_outputs(ws: &mut [u32], to: usize, n: usize, fresh: bool, made: Made) -> bool
    requires { to + 16 * n ≤ length ws.old }
    ensures { Arrived fresh to n (output_list made n) ws.old ws.new result }
{
    let mut changed = false;
    for k in 0..n {
        changed = changed | join_one(ws, to + 16 * k, fresh, output(made, k));
    }
    changed
}
