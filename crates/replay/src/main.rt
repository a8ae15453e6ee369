// Replays a stored list of descriptions: each is given to `check` with the words, report buffer and limit of its entry, and what comes of it
// is held against the oracle's answer and report, byte by byte. Standard input has the list; oracle/src/replaylist.rs says how an entry is
// written, and made it.
#![tactic(auto)]

use answers::{Accepted, Refusal};
use facts::check;
use le::{u8_at, u16_at, u32_at};
use std::io;
use std::io::Read;
use std::num::{wrapping_add_u8, wrapping_add_u32};
use tally::{Tally, begun, counted, ended, note, read_full, say};

// Marks that show each word and byte that was written: words are odd, bytes count up.
fn mark_words(ws: &mut [u32]) {
    let mut mark: u32 = 1;
    for word in ws.iter_mut() {
        *word = mark;
        mark = wrapping_add_u32(mark, 2);
    }
}

fn mark_bytes(buf: &mut [u8]) {
    let mut mark: u8 = 1;
    for byte in buf.iter_mut() {
        *byte = mark;
        mark = wrapping_add_u8(mark, 1);
    }
}

fn words_marked(ws: &[u32]) -> bool {
    let mut mark: u32 = 1;
    let mut fine = true;
    for word in ws {
        fine = fine & (*word == mark);
        mark = wrapping_add_u32(mark, 2);
    }
    fine
}

fn words_zero(ws: &[u32]) -> bool {
    ws.iter().all(|word| *word == 0)
}

// Whether the first n bytes are those of the report, and the others as they were.
fn bytes_left(buf: &[u8], report: &[u8], n: usize) -> bool {
    let mut mark: u8 = 1;
    let mut fine = true;
    for (i, byte) in buf.iter().enumerate() {
        let wanted = if i < n { u8_at(report, i) } else { mark };
        fine = fine & (*byte == wanted);
        mark = wrapping_add_u8(mark, 1);
    }
    fine
}

// The workspace is as it was after refusals 1 to 5, else zero.
fn words_left(ws: &[u32], number: u8) -> bool {
    if (0 < number) & (number < 6) {
        return words_marked(ws);
    }
    words_zero(ws)
}

// Whether the answer's numbers are the stored ones.
fn answers_as(answer: Result<Accepted, Refusal>, head: &[u8]) -> bool {
    match answer {
        Ok(Accepted { length, steps }) => (u8_at(head, 16) == 0)
            & (steps == u32_at(head, 21))
            & (length == (u32_at(head, 25) as usize)),
        Err(r) => (u8_at(head, 16) == r.number)
            & (u16_at(head, 17) == r.chunk)
            & (u16_at(head, 19) == r.instruction)
            & (u32_at(head, 21) == r.steps),
    }
}

// One call, and what it leaves.
fn called(head: &[u8], description: &[u8], ws: &mut [u32], buf: &mut [u8], report: &[u8]) -> bool {
    mark_words(ws);
    mark_bytes(buf);
    let answer = check(description, ws, buf, u32_at(head, 12));
    answers_as(answer, head)
        & bytes_left(buf, report, u32_at(head, 25) as usize)
        & words_left(ws, u8_at(head, 16))
}

// The call of an entry within its bounds.
fn tried(head: &[u8], description: &[u8], ws: &mut [u32], buf: &mut [u8], report: &[u8]) -> bool {
    let n = u32_at(head, 0) as usize;
    let words = u32_at(head, 4) as usize;
    let room = u32_at(head, 8) as usize;
    if description.len() < n {
        return false;
    }
    if ws.len() < words {
        return false;
    }
    if buf.len() < room {
        return false;
    }
    called(
        head,
        &description[..n],
        &mut ws[..words],
        &mut buf[..room],
        report,
    )
}

// Reads n bytes; whether they were there, and room for them.
fn read_part(input: &mut impl Read, to: &mut [u8], n: usize) -> io::Result<bool> {
    if to.len() < n {
        return Ok(false);
    }
    Ok(read_full(input, &mut to[..n])? == n)
}

// One entry more, its head already read: the description, the report, the call.
fn entry(
    rt: &impl Print,
    input: &mut impl Read,
    head: &[u8],
    ws: &mut [u32],
    buf: &mut [u8],
    t: Tally,
) -> io::Result<Tally> {
    let mut description = [0u8; 4096];
    let mut report = [0u8; 8192];
    let whole = read_part(input, &mut description, u32_at(head, 0) as usize)?;
    let told = read_part(input, &mut report, u32_at(head, 25) as usize)?;
    let fine = tried(head, &description, ws, buf, &report) & whole & told;
    note(rt, t, fine)?;
    Ok(counted(t, fine))
}

fn turn(
    rt: &impl Print,
    input: &mut impl Read,
    ws: &mut [u32],
    buf: &mut [u8],
    t: Tally,
) -> io::Result<Tally> {
    let mut head = [0u8; 29];
    if read_full(input, &mut head)? < 29 {
        return Ok(ended(t));
    }
    entry(rt, input, &head, ws, buf, t)
}

fn main(rt: HostRuntime) -> io::Result<()> {
    let mut input = rt.reader();
    let mut ws = [0u32; 16384];
    let mut buf = [0u8; 8192];
    let mut t = begun();
    for _ in 0..1000000u32 {
        t = turn(&rt, &mut input, &mut ws, &mut buf, t)?;
        if !t.more {
            break;
        }
    }
    say(&rt, t)
}
