// One visit of an instruction, as the code has it (`RowVisit`): chunk and place, rule, where its row stands in the workspace, heights; its
// operands, one (here) and all (`operands`); the slots that it names (`slot_range`).
#![tactic(auto)]

pub mod operands;
mod slot_range;

ghost use Rattle.std.specs.Prelude.{◌≡◌, ◌<◌, get_or};
ghost use Rattle.definition.specs.Outputs.{no_cell};
ghost use Rattle.visit.specs.Held.{Standing, args_in};

use cells::Cell;
use description::Instr;
use layout::place_at;
use masks::Mask;
pub use operands::{common_kinds, constructed_at, packed_at, visit_at};
use ops::Rule;
pub use slot_range::{Slots, slots_of};
use words::{load, mask_at};

#[derive(Clone, Copy)]
pub struct RowVisit {
    pub chunk: usize,
    pub at: usize,
    pub ins: Instr,
    pub rule: Rule,
    pub field: usize,
    pub row: usize,
    pub height: usize,
    pub start: usize,
}

// The operand k, or a cell of no kind where fewer are taken.
pub fn operand(ws: &[u32], v: RowVisit, k: usize) -> Cell
    requires standing { Standing ws.now v }
    requires k_bound { k < 65536 }
    ensures { result ≡ get_or (args_in ws.now v) k no_cell }
{
    if v.start + k < v.height {
        return load(ws, place_at(v.row, v.start + k));
    }
    Cell::made(Mask::NONE, 0)
}

// The kinds of the operand k, none where fewer are taken.
pub fn operand_mask(ws: &[u32], v: RowVisit, k: usize) -> Mask
    requires standing { Standing ws.now v }
    requires k_bound { k < 65536 }
    ensures { result ≡ (get_or (args_in ws.now v) k no_cell).mask }
{
    if v.start + k < v.height {
        return mask_at(ws, place_at(v.row, v.start + k));
    }
    Mask::NONE
}
