// How control leaves an instruction: its ways, and the local that is narrowed on each.
#![tactic(auto)]

ghost use Rattle.std.specs.Prelude.{◌≡◌, ◌<◌, ◌^◌};
ghost use Rattle.definition.specs.Ways.{exit_of, branch, ways_of, receiver_on, narrowing};
ghost use Rattle.ways.specs.Ways.{targets, receiver};

use cells::Cell;
use description::Instr;
use flows::Predicate;
use masks::Mask;
use ops::Exit;

// Up to two targets, the next instruction first.
#[derive(Clone, Copy)]
pub enum Ways {
    Zero,
    One(usize),
    Two(usize, usize),
}

// How control leaves the instruction at: a test whose target is the next one decides nothing, so it goes on.
pub fn exit_of(exit: Exit, i: Instr, at: usize) -> Exit
    requires { at < 2 ^ 32 }
    ensures { result ≡ exit_of exit at i.a }
{
    let to_next = (i.a as usize) == at + 1;
    match exit {
        Exit::Next => Exit::Next,
        Exit::Stops => Exit::Stops,
        Exit::Jumps => Exit::Jumps,
        Exit::Ifs => if to_next { Exit::Next } else { Exit::Ifs },
        Exit::Breaks => if to_next { Exit::Next } else { Exit::Breaks },
        Exit::Restarts => Exit::Restarts,
    }
}

// A test with this condition: it jumps to target where the condition is jumps, goes on where it is stays, else both.
fn branch(condition: Mask, jumps: Mask, stays: Mask, next: usize, target: usize) -> Ways
    ensures { targets result ≡ branch condition jumps stays next target }
{
    if condition == jumps {
        return Ways::One(target);
    }
    if condition == stays {
        return Ways::One(next);
    }
    Ways::Two(next, target)
}

// condition: the first operand's mask.
pub fn ways_of(exit: Exit, i: Instr, at: usize, condition: Mask) -> Ways
    requires { at < 2 ^ 32 }
    ensures { targets result ≡ ways_of exit at i.a condition }
{
    let next = at + 1;
    let target = i.a as usize;
    match exit {
        Exit::Next => Ways::One(next),
        Exit::Stops => Ways::Zero,
        Exit::Jumps => Ways::One(target),
        Exit::Ifs => branch(condition, Mask::FALSE, Mask::TRUE, next, target),
        Exit::Breaks => branch(condition, Mask::TRUE, Mask::FALSE, next, target),
        Exit::Restarts => Ways::One(1),
    }
}

// The receiver of a predicate that holds where the way counts as counted.
fn receiver_on(p: Predicate, counted: bool) -> Option<u16>
    ensures { receiver result ≡ receiver_on p counted }
{
    match p {
        Predicate::Nothing => None,
        Predicate::Tests { receiver, when } => if when == counted {
            Some(receiver)
        } else {
            None
        },
    }
}

// The receiver that is narrowed on the way to this instruction. A way counts as true when "it goes to the target" and "this is `BreakIf`"
// agree. condition: the first operand.
pub fn narrowing(exit: Exit, i: Instr, condition: Cell, to: usize) -> Option<u16>
    ensures { receiver result ≡ narrowing exit condition.flow.predicate i.a to }
{
    let f = condition.flow;
    let p = f.predicate;
    let jumps = to == (i.a as usize);
    match exit {
        Exit::Next => None,
        Exit::Stops => None,
        Exit::Jumps => None,
        Exit::Ifs => receiver_on(p, !jumps),
        Exit::Breaks => receiver_on(p, jumps),
        Exit::Restarts => None,
    }
}
