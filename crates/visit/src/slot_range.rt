// The slots that a data instruction names.
ghost use Rattle.std.specs.Prelude.{◌≡◌, ◌+◌, ◌<◌, ◌^◌};
ghost use Rattle.definition.specs.Data.{slot_count};

use description::Instr;
use ops::Data;

// The slots first to end, less end itself.
#[derive(Clone, Copy)]
pub struct Slots {
    pub first: usize,
    pub end: usize,
}

fn slot_count(ins: Instr, slots: Data) -> usize
    ensures { (result ≡ slot_count ins slots) × (result < 2 ^ 32) }
{
    match slots {
        Data::NoSlot => 0,
        Data::OneSlot => 1,
        Data::ManySlots => ins.b as usize,
    }
}

pub fn slots_of(ins: Instr, slots: Data) -> Slots
    ensures { (result.first ≡ ins.a) × (result.end ≡ ins.a + slot_count ins slots) }
{
    let first = ins.a as usize;
    Slots {
        first,
        end: first + slot_count(ins, slots),
    }
}
