// The end of a round: the writes of each slot, joined into its fact.
ghost use Rattle.std.specs.Prelude.{◌≡◌, ◌+◌, ◌-◌, ◌<◌, ◌≤◌, false, length};
ghost use Rattle.definition.specs.Leaves.{opened, closed, moved};
ghost use Rattle.layout.specs.Indexed.{Indexed, tables_of};
ghost use Rattle.visit.specs.Held.{live_in};
ghost use Rattle.run_state.specs.Course.{FactsOnly};
ghost use Rattle.fact_join.specs.Taken.{Merged};

use crate::put_low;
use layout::{Tables, slot_at};
use words::mask_at;

// One slot's writes go into its private mask; whether it changed.
fn merge_slot(ws: &mut [u32], at: usize) -> bool
    requires { at + 16 ≤ length ws.old }
    ensures { Merged at ws.old ws.new result }
{
    let last = at + 15;
    let old = mask_at(ws, at);
    let new = old.union(mask_at(ws, last));
    put_low(ws, at, new.bits);
    put_low(ws, last, 0);
    old != new
}

// The end of a round: each slot's writes go into its private mask; whether the facts moved in the round.
pub fn merge_writes(s: &[u8], ws: &mut [u32], t: Tables, changed: bool) -> bool
    requires indexed { Indexed s.now ws.old }
    requires t_value { t ≡ tables_of s.now }
    ensures { FactsOnly s.now ws.old ws.new
        × (result ≡ moved (live_in s.now ws.old changed))
        × (live_in s.now ws.new false ≡ opened (closed (live_in s.now ws.old changed))) }
{
    let mut moved = changed;
    for k in 0..t.slots {
        moved = moved | merge_slot(ws, slot_at(t, k));
    }
    moved
}
