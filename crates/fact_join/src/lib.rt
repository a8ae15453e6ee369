// What is joined into the facts: in the rounds what a visit adds (callee inputs, a result, private flows and writes), and at the end of a
// round the writes of each slot.
#![tactic(auto)]

mod merging;

ghost use Rattle.std.specs.Prelude.{◌≡◌, [], ◌∷◌, map, ◌+◌, ◌*◌, ◌-◌, ◌<◌, ◌≤◌, false, length, get_or};
ghost use Rattle.cells.specs.Cell.{bare_cell};
ghost use Rattle.words.specs.Layout.{cell_at};
ghost use Rattle.words.specs.Rows.{cells_at};
ghost use Rattle.definition.specs.Module.{module_of};
ghost use Rattle.definition.specs.State.{arguments, written};
ghost use Rattle.definition.specs.Data.{slots_from, data_fault};
ghost use Rattle.definition.specs.Outputs.{no_cell};
ghost use Rattle.definition.specs.Wants.{is_entry};
ghost use Rattle.definition.specs.Leaves.{always, gives, absorb, moved, stored_flow, write_slot};
ghost use Rattle.layout.specs.Layout.{place_at};
ghost use Rattle.layout.specs.Indexed.{Indexed, tables_of, chunk_at};
ghost use Rattle.row_join.specs.places.Arrive.{PlacesApart, Arrived};
ghost use Rattle.visit.specs.Held.{Looking, args_in, visit_in, live_in};
ghost use Rattle.run_state.specs.Course.{FactsOnly};
ghost use Rattle.fact_join.specs.Taken.{FactsAfter, Written, Flowed, with_low};

use cells::Cell;
use flows::Flow;
use index::{chunk_at, slot_placed};
use layout::{Chunk, Tables, input_at, place_at, result_at, slot_at};
use masks::Mask;
pub use merging::merge_writes;
use ops::Acts;
use row_join::join_one;
use visit::{RowVisit, operand, slots_of};
use words::{load, mask_at, store};

// Joins the n cells from word `from` on into the n facts of a chunk from word `to` on, each without origin and predicate, which name locals
// of the caller. Answers whether one of the facts changed.
fn join_facts(ws: &mut [u32], from: usize, to: usize, n: usize) -> bool
    requires { PlacesApart ws.old from to n }
    ensures { Arrived false to n (map bare_cell (cells_at ws.old from n)) ws.old ws.new result }
{
    let mut moved = false;
    for k in 0..n {
        let c = load(ws, from + 16 * k);
        moved = moved | join_one(ws, to + 16 * k, false, c.bare());
    }
    moved
}

fn give_arguments(s: &[u8], ws: &mut [u32], v: RowVisit, changed: bool) -> bool
    requires looking { Looking s.now ws.old v }
    requires acts_value { v.rule.acts ≡ Acts.Calls }
    requires taken_le_height { v.ins.taken ≤ v.height }
    ensures { FactsAfter s.now ws.old ws.new result
        (absorb (module_of s.now) (live_in s.now ws.old changed)
        (arguments v.ins.a (map bare_cell (args_in ws.old v)))) }
{
    let ins = v.ins;
    let callee = chunk_at(s, ws, ins.a as usize);
    let from = place_at(v.row, v.start);
    let to = input_at(callee, 0);
    changed | join_facts(ws, from, to, ins.taken as usize)
}

// The value below the operands goes into the chunk's result; whether that changed.
fn give_result(ws: &mut [u32], ch: Chunk, v: RowVisit) -> bool
    requires start_nonzero { 0 < v.start }
    requires start_in_bounds { place_at v.row v.start ≤ length ws.old }
    requires params_in_bounds { ch.inputs + 16 * ch.params + 16 ≤ length ws.old }
    ensures { Arrived false (ch.inputs + 16 * ch.params) 1 (bare_cell (cell_at ws.old (place_at v.row (v.start - 1))) ∷ [])
        ws.old
        ws.new
        result }
{
    let c = load(ws, place_at(v.row, v.start - 1));
    join_one(ws, result_at(ch), false, c.bare())
}

// The flow as a private slot keeps it.
fn stored_flow(flow: Flow) -> Flow
    ensures { result ≡ stored_flow flow }
{
    let f = flow.bare();
    let bodies = f.bodies;
    let origin = f.origin;
    let predicate = f.predicate;
    Flow {
        bodies,
        owned: false,
        origin,
        predicate,
    }
}

// The word keeps what stands above its low 16 bits.
pub fn put_low(ws: &mut [u32], at: usize, low: u16)
    requires { at < length ws.old }
    ensures { (ws.new ≡ with_low ws.old at low) × (low < 65536) }
{
    ws[at] = ws[at] / 65536 * 65536 + (low as u32);
}

// This round's writes to a slot stand in the last word of its cell, below the mark of a placement.
fn add_write(ws: &mut [u32], at: usize, mask: Mask)
    requires { at + 16 ≤ length ws.old }
    ensures { Written at mask ws.old ws.new }
{
    let last = at + 15;
    let u = mask_at(ws, last).union(mask);
    put_low(ws, last, u.bits);
}

fn join_private(ws: &mut [u32], at: usize, flow: Flow) -> bool
    requires { at + 16 ≤ length ws.old }
    ensures { Flowed at flow ws.old ws.new result }
{
    let c = load(ws, at);
    let f = c.flow;
    let j = f.join(stored_flow(flow));
    let mask = c.mask;
    let width = c.width;
    let joined = j.flow;
    store(
        ws,
        at,
        Cell {
            mask,
            width,
            flow: joined,
        },
    );
    j.changed
}

fn write_slot(s: &[u8], ws: &mut [u32], t: Tables, slot: usize, value: Cell, changed: bool) -> bool
    requires indexed { Indexed s.now ws.old }
    requires t_value { t ≡ tables_of s.now }
    requires slot_lt_slots { slot < t.slots }
    ensures { FactsAfter s.now ws.old ws.new result
        (write_slot (module_of s.now) (live_in s.now ws.old changed) slot value) }
{
    let at = slot_at(t, slot);
    let mask = value.mask;
    let flow = value.flow;
    if slot_placed(s, ws, t, slot) {
        add_write(ws, at, mask);
        return changed | join_private(ws, at, flow);
    }
    if t.shared <= slot {
        add_write(ws, at, mask);
        return changed;
    }
    changed
}

fn give_writes(s: &[u8], ws: &mut [u32], t: Tables, v: RowVisit, changed: bool) -> bool
    requires looking { Looking s.now ws.old v }
    requires t_value { t ≡ tables_of s.now }
    requires slots_value { data_fault (module_of s.now) v.ins v.rule.slots ≡ 0 }
    ensures { FactsAfter s.now ws.old ws.new result
        (absorb (module_of s.now) (live_in s.now ws.old changed)
        (written (slots_from v.ins v.rule.slots) (get_or (args_in ws.old v) 0 no_cell))) }
{
    let rule = v.rule;
    let slots = rule.slots;
    let r = slots_of(v.ins, slots);
    let value = operand(ws, v, 0);
    let end = r.end;
    let mut moved = changed;
    for k in r.first..end {
        moved = write_slot(s, ws, t, k, value, moved);
    }
    moved
}

// Takes what the visit gives into the facts; whether the facts of this round changed so far.
pub fn give(
    s: &[u8],
    ws: &mut [u32],
    t: Tables,
    ch: Chunk,
    v: RowVisit,
    entry: bool,
    changed: bool,
) -> bool
    requires looking { Looking s.now ws.old v }
    requires t_value { t ≡ tables_of s.now }
    requires ch_value { ch ≡ chunk_at s.now ws.old v.chunk }
    requires chunk_bound { v.chunk < (module_of s.now).signatures }
    requires value { entry ≡ is_entry (visit_in s.now ws.old v) }
    requires v_value { always (visit_in s.now ws.old v) ≡ 0 }
    ensures { FactsOnly s.now ws.old ws.new
        × (live_in s.now ws.new result
        ≡ absorb (module_of s.now) (live_in s.now ws.old changed) (gives (visit_in s.now ws.old v))) }
{
    let rule = v.rule;
    let acts = rule.acts;
    match acts {
        Acts::Stores => give_writes(s, ws, t, v, changed),
        Acts::Calls => give_arguments(s, ws, v, changed),
        Acts::Returns => if entry {
            changed
        } else {
            changed | give_result(ws, ch, v)
        },
        _ => changed,
    }
}
