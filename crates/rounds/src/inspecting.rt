// The inspections of a chunk: 16 or 17 for one whose receiver is not known well enough.
ghost use Rattle.std.specs.Prelude.{◌≡◌, true, ℕ, ◌<◌, length};
ghost use Rattle.definition.specs.Module.{module_of};
ghost use Rattle.definition.specs.Start.{under_eight};
ghost use Rattle.layout.specs.Indexed.{Indexed};
ghost use Rattle.row_join.specs.joining.Leave.{state_in};
ghost use Rattle.run_state.specs.Course.{Low};
ghost use Rattle.rounds.specs.inspecting.Fault.{receiver_fault, op_fault, RowRead, Inspected};

use answers::{Refusal, refuse};
use cells::Cell;
use index::{chunk_at, instr_of, row_height};
use layout::{place_at, row_at};
use masks::Mask;
use ops::{IS_ENUM, IS_STRUCT};
use words::load;

fn below_discriminant(size: Option<u32>) -> bool
    ensures { result ≡ under_eight size }
{
    match size {
        None => true,
        Some(n) => n < 8,
    }
}

// 16 or 17 for an inspection of a receiver that is not known well enough, or 0.
fn receiver_fault(op: u8, c: Cell) -> u8
    ensures { result ≡ receiver_fault op c }
{
    let m = c.mask;
    if op == IS_STRUCT {
        return if m.has(Mask::STRUCT) & (m != Mask::STRUCT) {
            17
        } else {
            0
        };
    }
    let f = c.flow;
    let bodies = f.bodies;
    if m.has(Mask::ENUM) & below_discriminant(bodies[3].minimum()) {
        return 16;
    }
    0
}

// The receiver is on top of the stack.
fn inspection_fault(ws: &[u32], row: usize, op: u8) -> u8
    requires { RowRead ws.now row }
    ensures { (stack locals : ℕ) → result ≡ op_fault op (state_in ws.now row stack locals) }
{
    let height = row_height(ws, row) as usize;
    if ((op != IS_ENUM) & (op != IS_STRUCT)) | (height < 2) {
        return 0;
    }
    receiver_fault(op, load(ws, place_at(row, height - 2)))
}

// The refusal for the first such instruction of a chunk that was validated, if there is one.
pub fn inspected(s: &[u8], ws: &[u32], c: usize, steps: u32) -> Result<(), Refusal>
    requires indexed { Indexed s.now ws.now }
    requires c_in_bounds { c < length (module_of s.now).chunks }
    requires low { Low s.now ws.now c }
    ensures { Inspected s.now ws.now c steps result }
{
    let ch = chunk_at(s, ws, c);
    for i in 0..ch.count {
        let ins = instr_of(s, ws, c, ch, i);
        let n = inspection_fault(ws, row_at(ch, i), ins.op);
        if n != 0 {
            return Err(refuse(n, c, i, steps));
        }
    }
    Ok(())
}
