// What a row says: whether it is recorded, whether its inspection is false, its branch known; and the sizes of its record.
ghost use Rattle.std.specs.Prelude.{◌≡◌, cond, ◌+◌, ◌*◌, ◌<◌, ◌≤◌, length};
ghost use Rattle.definition.specs.Bounds.{most_stack, most_locals, most_given};
ghost use Rattle.report_size.specs.recorded.Guard.{is_guard};
ghost use Rattle.report_size.specs.recorded.Told.{RowInside, recorded, top_in, false_in, decided_in, way_in};

use definition::Check;
use index::row_height;
use layout::{Chunk, place_at};
use masks::Mask;
use ops::{BREAK_IF, IF, IS_ENUM, IS_STRUCT};
use visit::RowVisit;
use words::mask_at;

pub fn is_guard(c: Check) -> bool
    ensures { result ≡ is_guard c }
{
    matches!(c, Check::Guard(_))
}

// The length of the record's contents.
pub fn record_len(ch: Chunk, v: RowVisit, guards: usize) -> usize
    requires { (v.height ≤ most_stack) × (ch.locals ≤ most_locals) × (v.ins.given ≤ most_given) × (guards ≤ most_stack) }
    ensures { result ≡ 12 + 49 * (v.height + ch.locals) + 51 * v.ins.given + 4 * guards }
{
    let ins = v.ins;
    12 + 49 * (v.height + ch.locals) + 51 * (ins.given as usize) + 4 * guards
}

// The top of the stack of a recorded test or inspection.
fn top_mask(ws: &[u32], row: usize) -> Mask
    requires { RowInside ws.now row }
    ensures { result ≡ (top_in ws.now row).mask }
{
    let height = row_height(ws, row) as usize;
    if height < 2 {
        return Mask::NONE;
    }
    mask_at(ws, place_at(row, height - 2))
}

pub fn is_recorded(ws: &[u32], row: usize) -> bool
    requires { row < length ws.now }
    ensures { result ≡ recorded ws.now row }
{
    row_height(ws, row) != 0
}

// An inspection that always says false.
pub fn false_inspection(ws: &[u32], row: usize, op: u8) -> bool
    requires { RowInside ws.now row }
    ensures { result ≡ false_in ws.now row op }
{
    let m = top_mask(ws, row);
    let inspected = if op == IS_ENUM {
        Mask::ENUM
    } else {
        Mask::STRUCT
    };
    is_recorded(ws, row) & ((op == IS_ENUM) | (op == IS_STRUCT)) & !m.has(inspected)
}

// A test that always goes one way.
pub fn known_branch(ws: &[u32], row: usize, op: u8) -> bool
    requires { RowInside ws.now row }
    ensures { result ≡ decided_in ws.now row op }
{
    let m = top_mask(ws, row);
    is_recorded(ws, row)
        & ((op == IF) | (op == BREAK_IF))
        & ((m == Mask::FALSE) | (m == Mask::TRUE))
}

pub fn branch_value(ws: &[u32], row: usize) -> u8
    requires { RowInside ws.now row }
    ensures { result ≡ way_in ws.now row }
{
    let m = top_mask(ws, row);
    u8::from(m == Mask::TRUE)
}

// The instructions that may be recorded: none of a chunk that isn't reachable.
pub fn recorded_count(ch: Chunk) -> usize
    ensures { result ≡ cond ch.reachable ch.count 0 }
{
    if ch.reachable { ch.count } else { 0 }
}
