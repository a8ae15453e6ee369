// What refuses an access to slots: one that crosses into a placed body.
ghost use Rattle.std.specs.Prelude.{◌≡◌, ◌≤◌};
ghost use Rattle.definition.specs.Module.{module_of};
ghost use Rattle.definition.specs.Data.{any_body, data_fault};
ghost use Rattle.layout.specs.Indexed.{Indexed, tables_of};
ghost use Rattle.visit.specs.Slots.{list_of};
ghost use Rattle.slots.specs.Slots.{access_fault, crossed_by};

use description::Instr;
use index::slot_placed;
use layout::Tables;
use ops::Data;
use visit::{Slots, slots_of};

// A slot that a placement names stands among these.
fn any_placed(s: &[u8], ws: &[u32], t: Tables, r: Slots) -> bool
    requires indexed { Indexed s.now ws.now }
    requires t_value { t ≡ tables_of s.now }
    requires end_le_slots { r.end ≤ t.slots }
    ensures { result ≡ any_body (module_of s.now) (list_of r) }
{
    for k in r.first..r.end {
        if slot_placed(s, ws, t, k) {
            return true;
        }
    }
    false
}

// A first slot that is a private scalar, with a body among the others.
fn crosses(s: &[u8], ws: &[u32], t: Tables, r: Slots) -> bool
    requires indexed { Indexed s.now ws.now }
    requires t_value { t ≡ tables_of s.now }
    requires first_le_end { (r.first ≤ r.end) × (r.end ≤ t.slots) }
    ensures { result ≡ crossed_by (module_of s.now) r }
{
    if (t.shared <= r.first) & !slot_placed(s, ws, t, r.first) {
        return any_placed(s, ws, t, r);
    }
    false
}

// The access past the slots is 13, one that crosses scalars and bodies 14, an indexed one that takes other than two 13.
fn access_fault(s: &[u8], ws: &[u32], t: Tables, r: Slots, fine: bool) -> u8
    requires indexed { Indexed s.now ws.now }
    requires t_value { t ≡ tables_of s.now }
    requires first_le_end { r.first ≤ r.end }
    ensures { result ≡ access_fault (module_of s.now) r fine }
{
    if t.slots < r.end {
        return 13;
    }
    if crosses(s, ws, t, r) {
        return 14;
    }
    if fine {
        return 0;
    }
    13
}

pub fn data_fault(s: &[u8], ws: &[u32], t: Tables, ins: Instr, slots: Data) -> u8
    requires indexed { Indexed s.now ws.now }
    requires t_value { t ≡ tables_of s.now }
    ensures { result ≡ data_fault (module_of s.now) ins slots }
{
    match slots {
        Data::NoSlot => 0,
        Data::OneSlot => access_fault(s, ws, t, slots_of(ins, slots), true),
        Data::ManySlots => access_fault(s, ws, t, slots_of(ins, slots), ins.taken == 2),
    }
}
