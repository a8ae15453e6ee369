// Lists the class of every mask that a u16 can hold, one to a line, but only counts those that are unknown. oracle/operandlist wrote what it has
// to say: the answers of types.rs.
#![tactic(auto)]

use masks::{Mask, OperandKind};
use std::io;
use std::num::wrapping_add_u32;

fn line(rt: &impl Print, bits: u16, class: &str) -> io::Result<()> {
    println!(rt; "{bits} {class}")
}

// One mask more. The answer is how many were unknown so far.
fn list(rt: &impl Print, bits: u16, unknown: u32) -> io::Result<u32> {
    let mask = Mask { bits };
    match mask.operand_kind() {
        OperandKind::Int => line(rt, bits, "Int")?,
        OperandKind::Fixed => line(rt, bits, "Fixed")?,
        OperandKind::Float => line(rt, bits, "Float")?,
        OperandKind::Unknown => return Ok(wrapping_add_u32(unknown, 1)),
    }
    Ok(unknown)
}

fn say(rt: &impl Print, unknown: u32) -> io::Result<()> {
    println!(rt; "{unknown} masks are Unknown")
}

fn main(rt: HostRuntime) -> io::Result<()> {
    let mut unknown: u32 = 0;
    for bits in 0..=u16::MAX {
        unknown = list(&rt, bits, unknown)?;
    }
    say(&rt, unknown)
}
