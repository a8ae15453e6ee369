// The rules of an instruction field: the lowest number of a fault, or 0.
ghost use Rattle.std.specs.Prelude.{◌≡◌, ◌||◌, ◌<◌, ltb, leb};
ghost use Rattle.definition.specs.Bounds.{most_instrs, most_taken, most_given};
ghost use Rattle.definition.specs.Form.{lowest, senseless, too_large, misplaced, unfitting, fit_of, instr_fault};

use crate::fits::{given_least, given_most, meaning, taken_least, taken_most};
use crate::low;
use definition::Scan;
use description::Instr;

// What the operands of an instruction mean.
const NO_OPERAND: u8 = 0;

const CONSTANT: u8 = 1;

const LOCAL: u8 = 2;

const SLOT: u8 = 3;

const SLOTS: u8 = 4;

const TARGET: u8 = 5;

const CALLEE: u8 = 6;

const COMPOSITE: u8 = 7;

const PART: u8 = 8;

const IMMEDIATE: u8 = 9;

const NATIVE: u8 = 10;

// Document 01's largest values of an instruction: how many a chunk has, taken, given, and its operands.
const MOST_INSTRS: u32 = 4096;

const MOST_TAKEN: u8 = 64;

const MOST_GIVEN: u8 = 4;

const MOST_OPERAND: u32 = 65535;

const MOST_IMMEDIATE: u32 = 255;

const MOST_SCALAR_KIND: u32 = 255;

const MOST_COMPOSITE_KIND: u32 = 3;

// Operands that have no meaning: not 0 where nothing is read, or the place of no case.
fn is_senseless(m: u8, i: Instr) -> bool
    ensures { result ≡ senseless m i }
{
    ((m == NO_OPERAND) & ((i.a != 0) | (i.b != 0) | (i.c != 0)))
        | ((m == CONSTANT) & ((11 < i.a) | (1 < i.b) | ((i.a != 1) & (i.b != 0))))
        | (((m == LOCAL)
            | (m == SLOT)
            | (m == TARGET)
            | (m == CALLEE)
            | (m == IMMEDIATE)
            | (m == NATIVE))
            & ((i.b != 0) | (i.c != 0)))
        | ((m == SLOTS) & (i.c != 0))
        | ((m == COMPOSITE) & ((1 < i.a) | ((i.a == 1) & (i.c != 0))))
        | ((m == PART)
            & ((2 < i.a) | ((i.a == 0) & (i.c != 0)) | ((i.a == 2) & ((i.b != 0) | (i.c != 0)))))
}

// Operands over their largest value.
fn is_too_large(m: u8, i: Instr) -> bool
    ensures { result ≡ too_large m i }
{
    (((m == LOCAL) | (m == TARGET) | (m == CALLEE) | (m == NATIVE)) & (MOST_OPERAND < i.a))
        | ((m == IMMEDIATE) & (MOST_IMMEDIATE < i.a))
        | ((m == COMPOSITE) & ((MOST_COMPOSITE_KIND < i.b) | (MOST_OPERAND < i.c)))
        | ((m == PART)
            & (((i.a == 0) & (MOST_SCALAR_KIND < i.b))
                | ((i.a == 1) & ((MOST_COMPOSITE_KIND < i.b) | (MOST_OPERAND < i.c)))))
}

fn reaches(limit: u16, a: u32) -> bool
    ensures { result ≡ leb limit a }
{
    (limit as u32) <= a
}

fn is_misplaced(m: u8, i: Instr, scan: Scan) -> bool
    ensures { result ≡ misplaced m i scan }
{
    let no_local = reaches(scan.locals, i.a);
    let no_callee = reaches(scan.signatures, i.a);
    ((m == LOCAL) & no_local)
        | ((m == CALLEE) & no_callee)
        | ((m == SLOTS) & (i.b == 0) & (scan.layout == 0))
}

// Taken or given outside what the place of Op allows.
fn is_unfit(op: usize, i: Instr) -> bool
    requires { op < 66 }
    ensures { result ≡ unfitting (fit_of op) i }
{
    (i.taken < taken_least(op))
        | (taken_most(op) < i.taken)
        | (i.given < given_least(op))
        | (given_most(op) < i.given)
}

// A known place of Op in a field of the right length, where one is due.
fn known_fault(op: usize, i: Instr, scan: Scan) -> u8
    requires { op < 66 }
    ensures { result ≡ lowest (senseless (fit_of op).meaning i)
        (leb most_instrs scan.instrs || ltb most_taken i.taken || ltb most_given i.given || too_large (fit_of op).meaning i)
        (misplaced (fit_of op).meaning i scan)
        (unfitting (fit_of op) i) }
{
    let m = meaning(op);
    let one = is_senseless(m, i);
    let large = is_too_large(m, i);
    let three = is_misplaced(m, i, scan);
    let four = is_unfit(op, i);
    low(
        one,
        (MOST_INSTRS <= scan.instrs) | (MOST_TAKEN < i.taken) | (MOST_GIVEN < i.given) | large,
        three,
        four,
    )
}

pub fn instr_fault(due: bool, len: u16, i: Instr, scan: Scan) -> u8
    ensures { result ≡ instr_fault due len i scan }
{
    if !due | (len != 15) | (65 < i.op) {
        return 1;
    }
    known_fault(i.op as usize, i, scan)
}
