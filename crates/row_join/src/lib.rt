// What leaves an instruction along one way, joined into the row of its target: locals and stack kept (`joining`) or reset (`resetting`), place
// by place (`places`). Here: how it meets what stands there.
#![tactic(auto)]

pub mod joining;
pub mod places;
mod resetting;

ghost use Rattle.std.specs.Prelude.{◌≡◌, ◌+◌, get_or};
ghost use Rattle.words.specs.Rows.{Outside};
ghost use Rattle.row_join.specs.joining.Leave.{JoinReady, leaves_as, state_in, met_state, met_how, met_word, row_words};
ghost use Rattle.row_join.specs.joining.Left.{how_of, Left};

use joining::leave_kept;
pub use joining::{Leaving, Met, SetLocal, Way};
use layout::Chunk;
pub use places::join_one;
use resetting::leave_reset;

fn leave_by(ws: &mut [u32], ch: Chunk, w: Way, fresh: bool, l: Leaving) -> bool
    requires { JoinReady ws.old ch w l }
    ensures { Left fresh ch w.to l.height (leaves_as ws.old ch w l) ws.old ws.new result }
{
    if l.resets {
        return leave_reset(ws, ch, w, fresh, l);
    }
    leave_kept(ws, ch, w, fresh, l)
}

fn how(changed: bool) -> Met
    ensures { result ≡ how_of changed }
{
    if changed { Met::Changed } else { Met::Same }
}

// Joins what leaves into the row of the target; a row of another height is left as it is.
pub fn leave(ws: &mut [u32], ch: Chunk, w: Way, l: Leaving) -> Met
    requires { JoinReady ws.old ch w l }
    ensures { (state_in ws.new w.to ch.stack ch.locals
        ≡ met_state (state_in ws.old w.to ch.stack ch.locals) (leaves_as ws.old ch w l))
        × (result ≡ met_how (state_in ws.old w.to ch.stack ch.locals) (leaves_as ws.old ch w l))
        × Outside w.to (w.to + row_words ch) ws.old ws.new
        × (get_or ws.new (w.to + 1) 0 ≡ get_or ws.old (w.to + 1) 0)
        × (get_or ws.new w.to 0 ≡ met_word (get_or ws.old w.to 0) l.height) }
{
    let to = w.to;
    let height = l.height + 1;
    let state = ws[to] as usize;
    if (state != 0) & (state != height) {
        return Met::Unequal;
    }
    let fresh = state == 0;
    let changed = leave_by(ws, ch, w, fresh, l);
    ws[to] = height as u32;
    how(changed | fresh)
}
