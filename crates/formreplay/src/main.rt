// Replays a stored list of descriptions at the bounds of good form: each is looked at by check_form and held against the answer of the
// oracle's reader. Standard input has the list; oracle/src/formlist.rs says how an entry is written, and made it.
#![tactic(auto)]

ghost use Rattle.std.specs.Prelude.{◌≡◌, length};

use answers::Refusal;
use form::check_form;
use le::{u8_at, u16_at, u32_at};
use std::io;
use std::io::Read;
use tally::{Tally, begun, counted, ended, note, read_full, say};

// How far the replay is: the bytes of the base, and the entries so far.
#[derive(Clone, Copy)]
struct Replay {
    base: usize,
    tally: Tally,
}

// Puts a byte behind the first n, where there is room.
fn put(to: &mut [u8], n: usize, x: u8) -> usize {
    if n < to.len() {
        to[n] = x;
        return n + 1;
    }
    n
}

// Puts the bytes of from, the first at first and the last before end, behind the first n.
fn append(to: &mut [u8], n: usize, from: &[u8], first: usize, end: usize) -> usize {
    let mut m = n;
    for k in first..end {
        m = put(to, m, u8_at(from, k));
    }
    m
}

fn append_often(to: &mut [u8], n: usize, from: &[u8], end: usize, times: u32) -> usize {
    let mut m = n;
    for _ in 0..times {
        m = append(to, m, from, 0, end);
    }
    m
}

// Whether the answer is the stored one.
fn agrees(f: Result<u64, Refusal>, stored: &[u8]) -> bool {
    match f {
        Ok(words) => (u8_at(stored, 0) == 0)
            & (words == (u32_at(stored, 5) as u64))
            & (u32_at(stored, 9) == 0),
        Err(r) => (u8_at(stored, 0) == r.number)
            & (u16_at(stored, 1) == r.chunk)
            & (u16_at(stored, 3) == r.instruction),
    }
}

// Whether the form of the first n bytes is as stored.
fn looked(work: &[u8], n: usize, stored: &[u8]) -> bool {
    if work.len() < n {
        return false;
    }
    agrees(check_form(&work[..n]), stored)
}

// The description of an entry: the base up to a place, what is put in, the base behind what is dropped.
fn made(head: &[u8], base: &[u8], size: usize, part: &[u8], work: &mut [u8]) -> usize {
    let at = u32_at(head, 1) as usize;
    let on = at + (u32_at(head, 5) as usize);
    let n = append(work, 0, base, 0, at);
    let n = append_often(work, n, part, u16_at(head, 9) as usize, u32_at(head, 11));
    append(work, n, base, on, size)
}

// One entry more, its head already read: the bytes put in, the answer.
fn entry(
    rt: &impl Print,
    input: &mut impl Read,
    head: &[u8],
    base: &mut [u8],
    part: &mut [u8],
    work: &mut [u8],
    r: Replay,
) -> io::Result<Replay> {
    let mut stored = [0u8; 13];
    let n = u16_at(head, 9) as usize;
    let t = r.tally;
    if part.len() < n {
        return Ok(Replay {
            base: r.base,
            tally: ended(t),
        });
    }
    read_full(input, &mut part[..n])?;
    read_full(input, &mut stored)?;
    let size = made(head, base, r.base, part, work);
    let fine = looked(work, size, &stored);
    note(rt, t, fine)?;
    let tally = counted(t, fine);
    if u8_at(head, 0) == 1 {
        let m = append(base, 0, work, 0, size);
        return Ok(Replay { base: m, tally });
    }
    Ok(Replay {
        base: r.base,
        tally,
    })
}

fn turn(
    rt: &impl Print,
    input: &mut impl Read,
    base: &mut [u8],
    part: &mut [u8],
    work: &mut [u8],
    r: Replay,
) -> io::Result<Replay> {
    let mut head = [0u8; 15];
    if read_full(input, &mut head)? < 15 {
        let t = r.tally;
        return Ok(Replay {
            base: r.base,
            tally: ended(t),
        });
    }
    entry(rt, input, &head, base, part, work, r)
}

// Room for the longest description of the list.
fn space() -> [u8; 131072]
    ensures { 131072 ≡ length result }
{
    [0; 131072]
}

fn main(rt: HostRuntime) -> io::Result<()> {
    let mut input = rt.reader();
    let mut base = [0u8; 16384];
    let mut part = [0u8; 16384];
    let mut work = space();
    let mut r = Replay {
        base: 0,
        tally: begun(),
    };
    for _ in 0..1000000u32 {
        r = turn(&rt, &mut input, &mut base, &mut part, &mut work, r)?;
        if !r.tally.more {
            break;
        }
    }
    say(&rt, r.tally)
}
