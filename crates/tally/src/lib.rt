// How a replay reads its entries, counts them, and what it says of them.
#![tactic(auto)]

ghost use Rattle.std.specs.Prelude.{◌≡◌, ◌<◌, ◌≤◌, length, take, IfOk};
ghost use Rattle.std.specs.Io.KnownBytes.{Consumes, IsAtEnd};
ghost use Rattle.tally.specs.Tally.{nothing, counted_if, ended_at};

use std::io;
use std::io::Read;
use std::num::wrapping_add_u32;

// The entries that agreed and those that didn't, and whether more may follow.
#[derive(Clone, Copy)]
pub struct Tally {
    pub agreed: u32,
    pub differ: u32,
    pub more: bool,
}

pub fn begun() -> Tally
    ensures { result ≡ nothing }
{
    Tally {
        agreed: 0,
        differ: 0,
        more: true,
    }
}

// One entry more.
pub fn counted(t: Tally, fine: bool) -> Tally
    ensures { result ≡ counted_if fine t }
{
    if fine {
        return Tally {
            agreed: wrapping_add_u32(t.agreed, 1),
            differ: t.differ,
            more: true,
        };
    }
    Tally {
        agreed: t.agreed,
        differ: wrapping_add_u32(t.differ, 1),
        more: true,
    }
}

// No more follow.
pub fn ended(t: Tally) -> Tally
    ensures { result ≡ ended_at t }
{
    Tally {
        agreed: t.agreed,
        differ: t.differ,
        more: false,
    }
}

// Writes how many agreed and how many didn't.
pub fn say(rt: &impl Print, t: Tally) -> io::Result<()> {
    println!(rt; "{} agreed, {} differ", t.agreed, t.differ)
}

// Writes which entry differs, counted from 1, where the next one does.
pub fn note(rt: &impl Print, t: Tally, fine: bool) -> io::Result<()> {
    if fine {
        return Ok(());
    }
    let entry = (wrapping_add_u32(t.agreed, t.differ) as u64) + 1;
    println!(rt; "differs: entry {entry}")
}

// Reads until the bytes are full or the input ends, and answers how many were read.
pub fn read_full<R: Read>(input: &mut R, to: &mut [u8]) -> io::Result<usize>
    ensures count { IfOk result (λ n. n ≤ length to.new) }
    ensures length_kept { length to.new ≡ length to.old }
    ensures bytes { IfOk result (λ n. Consumes (R.remaining input.old) (R.remaining input.new) (take n to.new)) }
    ensures end { IfOk result (λ n. n < length to.new → IsAtEnd (R.remaining input.new)) }
{
    let mut done = 0;
    while done < to.len() {
        let n = input.read(&mut to[done..])?;
        if n == 0 {
            break;
        }
        done += n;
    }
    Ok(done)
}
