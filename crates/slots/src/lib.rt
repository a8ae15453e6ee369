// The slots that a data instruction names: what a read of them gives, what a write to them needs, which accesses are refused (`crossing`).
#![tactic(auto)]

mod crossing;

ghost use Rattle.std.specs.Prelude.{◌≡◌, ◌≤◌};
ghost use Rattle.masks.specs.Names.{NONE};
ghost use Rattle.flows.specs.Flow.{no_flow};
ghost use Rattle.definition.specs.declared.Check.TheVariants.{Fine};
ghost use Rattle.definition.specs.Module.{module_of};
ghost use Rattle.definition.specs.Data.{slot, data_width, kinds_in, width_in, flow_in, read_slots, slot_allows};
ghost use Rattle.definition.specs.Wants.{write_check};
ghost use Rattle.layout.specs.Indexed.{Indexed, tables_of};
ghost use Rattle.visit.specs.Held.{facts_in};
ghost use Rattle.visit.specs.Slots.{list_of};

use cells::Cell;
pub use crossing::data_fault;
use definition::Check;
use flows::Flow;
use index::{shared_kind, shared_mask, slot_placed};
use layout::{Tables, slot_at};
use masks::Mask;
use new_values::{fresh, read_private};
use visit::Slots;
use wants::{meet, require};
use widths::{Width, scalar_width};
use words::{load, mask_at};

// The kinds in a slot: a shared one's are declared, a private one's are worked out.
fn slot_mask(s: &[u8], ws: &[u32], t: Tables, n: usize) -> Mask
    requires indexed { Indexed s.now ws.now }
    requires t_value { t ≡ tables_of s.now }
    requires n_le_slots { n ≤ t.slots }
    ensures { result ≡ slot (module_of s.now) (facts_in s.now ws.now) n }
{
    if n < t.shared {
        return shared_mask(shared_kind(s, t, n));
    }
    if n < t.slots {
        return mask_at(ws, slot_at(t, n));
    }
    Mask::UNKNOWN
}

// A placed slot's width follows from its flow, not from here.
fn slot_width(s: &[u8], ws: &[u32], t: Tables, n: usize) -> Width
    requires indexed { Indexed s.now ws.now }
    requires t_value { t ≡ tables_of s.now }
    requires n_le_slots { n ≤ t.slots }
    ensures { result ≡ data_width (module_of s.now) (facts_in s.now ws.now) n }
{
    if slot_placed(s, ws, t, n) {
        return Width::Unknown;
    }
    scalar_width(slot_mask(s, ws, t, n), t.float)
}

fn kinds_in(s: &[u8], ws: &[u32], t: Tables, r: Slots) -> Mask
    requires indexed { Indexed s.now ws.now }
    requires t_value { t ≡ tables_of s.now }
    requires end_le_slots { r.end ≤ t.slots }
    ensures { result ≡ kinds_in (module_of s.now) (facts_in s.now ws.now) NONE (list_of r) }
{
    let mut m = Mask::NONE;
    for k in r.first..r.end {
        m = m.union(slot_mask(s, ws, t, k));
    }
    m
}

// The first slot's width, if all have it.
fn width_in(s: &[u8], ws: &[u32], t: Tables, r: Slots) -> Width
    requires indexed { Indexed s.now ws.now }
    requires t_value { t ≡ tables_of s.now }
    requires first_le_end { (r.first ≤ r.end) × (r.end ≤ t.slots) }
    ensures { result ≡ width_in (module_of s.now) (facts_in s.now ws.now)
        (data_width (module_of s.now) (facts_in s.now ws.now) r.first) (list_of r) }
{
    let mut w = slot_width(s, ws, t, r.first);
    for k in r.first..r.end {
        w = w.join(slot_width(s, ws, t, k));
    }
    w
}

fn flow_in(s: &[u8], ws: &[u32], t: Tables, r: Slots) -> Flow
    requires indexed { Indexed s.now ws.now }
    requires t_value { t ≡ tables_of s.now }
    requires end_le_slots { r.end ≤ t.slots }
    ensures { result ≡ flow_in (facts_in s.now ws.now) no_flow (list_of r) }
{
    let mut f = Flow::none();
    for k in r.first..r.end {
        let c = load(ws, slot_at(t, k));
        f = f.with(c.flow);
    }
    f
}

// What a read of these slots gives.
pub fn read_slots(s: &[u8], ws: &[u32], t: Tables, r: Slots) -> Cell
    requires indexed { Indexed s.now ws.now }
    requires t_value { t ≡ tables_of s.now }
    requires first_le_end { (r.first ≤ r.end) × (r.end ≤ t.slots) }
    ensures { result ≡ read_slots (module_of s.now) (facts_in s.now ws.now) r.first (list_of r) }
{
    let m = kinds_in(s, ws, t, r);
    if slot_placed(s, ws, t, r.first) {
        return read_private(m, flow_in(s, ws, t, r));
    }
    fresh(m, width_in(s, ws, t, r), false)
}

// What a slot takes.
fn slot_allows(s: &[u8], ws: &[u32], t: Tables, n: usize) -> Mask
    requires indexed { Indexed s.now ws.now }
    requires t_value { t ≡ tables_of s.now }
    requires n_le_slots { n ≤ t.slots }
    ensures { result ≡ slot_allows (module_of s.now) (facts_in s.now ws.now) n }
{
    if slot_placed(s, ws, t, n) {
        return Mask::GUARDED;
    }
    if n < t.shared {
        return slot_mask(s, ws, t, n);
    }
    Mask::SCALARS
}

// A value of this mask, written to each of the slots.
pub fn write_check(s: &[u8], ws: &[u32], t: Tables, r: Slots, value: Mask) -> Check
    requires indexed { Indexed s.now ws.now }
    requires t_value { t ≡ tables_of s.now }
    requires end_le_slots { r.end ≤ t.slots }
    ensures { result ≡ write_check (module_of s.now) (facts_in s.now ws.now) value Fine (list_of r) }
{
    let mut c = Check::Fine;
    for k in r.first..r.end {
        c = meet(c, require(value, slot_allows(s, ws, t, k)));
    }
    c
}
