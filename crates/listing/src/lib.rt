// The listing of an answer and its report, as text in a lent buffer. Each private function lays text from a place on, as far as the buffer
// goes, and answers the place after it.
#![tactic(auto)]

ghost use Rattle.std.specs.Prelude.{◌≡◌, [], ◌∷◌, ◌+◌, ◌*◌, ◌^◌, ◌<◌, ◌≤◌, length, take};
ghost use Rattle.listing.specs.Decimal.{digit_of, decimal};
ghost use Rattle.listing.specs.Listing.{spaced as spacedOf, pair_of, last_of, refused_line, accepted_line, masks_from, masks_of, named_of, cells_of, record_line, inspection_line, branch_line, field_line, lines_of, listing as listingOf};
ghost use Rattle.listing.specs.Laid.{Laid};
ghost use Rattle.description.specs.Fields.{next_at, fields_from};

use answers::{Accepted, Refusal};
use le::{u8_at, u16_at, u32_at};

fn push(buf: &mut [u8], at: usize, x: u8) -> usize
    requires { at ≤ length buf.old }
    ensures { Laid buf.old at (x ∷ []) buf.new result }
{
    if at < buf.len() {
        buf[at] = x;
        return at + 1;
    }
    at
}

fn append(buf: &mut [u8], at: usize, from: &[u8]) -> usize
    requires { at ≤ length buf.old }
    ensures { Laid buf.old at from.now buf.new result }
{
    let mut to = at;
    for byte in from {
        to = push(buf, to, *byte);
    }
    to
}

// The digit of a power of ten; none before the number's first.
fn digit(buf: &mut [u8], at: usize, n: u32, p: u32) -> usize
    requires { (at ≤ length buf.old) × (0 < p) }
    ensures { Laid buf.old at (digit_of p n) buf.new result }
{
    if n < p {
        return at;
    }
    push(buf, at, 48 + (n / p % 10) as u8)
}

fn number(buf: &mut [u8], at: usize, n: u32) -> usize
    requires { at ≤ length buf.old }
    ensures { Laid buf.old at (decimal n) buf.new result }
{
    let mut p: u32 = 1000000000;
    let mut to = at;
    for k in 0..9u32 {
        to = digit(buf, to, n, p);
        p /= 10;
    }
    push(buf, to, 48 + (n % 10) as u8)
}

// A space and a number.
fn spaced(buf: &mut [u8], at: usize, n: u32) -> usize
    requires { at ≤ length buf.old }
    ensures { Laid buf.old at (spacedOf n) buf.new result }
{
    let at = push(buf, at, 32);
    number(buf, at, n)
}

fn pair(buf: &mut [u8], at: usize, a: u16, b: u16) -> usize
    requires { at ≤ length buf.old }
    ensures { Laid buf.old at (pair_of a b) buf.new result }
{
    let at = spaced(buf, at, a as u32);
    spaced(buf, at, b as u32)
}

// The last number of a line.
fn last(buf: &mut [u8], at: usize, n: u32) -> usize
    requires { at ≤ length buf.old }
    ensures { Laid buf.old at (last_of n) buf.new result }
{
    let at = spaced(buf, at, n);
    push(buf, at, 10)
}

fn refused(buf: &mut [u8], at: usize, r: Refusal) -> usize
    requires { at ≤ length buf.old }
    ensures { Laid buf.old at (refused_line r) buf.new result }
{
    let at = append(buf, at, b"refused");
    let at = spaced(buf, at, r.number as u32);
    let at = pair(buf, at, r.chunk, r.instruction);
    last(buf, at, r.steps)
}

fn accepted(buf: &mut [u8], at: usize, steps: u32, reply: u32) -> usize
    requires { at ≤ length buf.old }
    ensures { Laid buf.old at (accepted_line steps reply) buf.new result }
{
    let at = append(buf, at, b"accepted");
    let at = spaced(buf, at, steps);
    let at = append(buf, at, b" reply");
    last(buf, at, reply)
}

// The masks of n cells of the report, the first at q.
fn masks_from(s: &[u8], q: usize, n: usize, buf: &mut [u8], at: usize) -> usize
    requires { (at ≤ length buf.old) × (q + 49 * n + 1 < 2 ^ 64) }
    ensures { Laid buf.old at (masks_from s.now q n) buf.new result }
{
    let mut to = at;
    for k in 0..n {
        to = spaced(buf, to, u16_at(s, q + 49 * k) as u32);
    }
    to
}

fn masks(s: &[u8], q: usize, n: usize, buf: &mut [u8], at: usize) -> usize
    requires { (at ≤ length buf.old) × (q + 49 * n + 1 < 2 ^ 64) }
    ensures { Laid buf.old at (masks_of s.now q n) buf.new result }
{
    if n == 0 {
        return append(buf, at, b" -");
    }
    masks_from(s, q, n, buf, at)
}

// A word and masks.
fn named(word: &[u8], s: &[u8], q: usize, n: usize, buf: &mut [u8], at: usize) -> usize
    requires { (at ≤ length buf.old) × (q + 49 * n + 1 < 2 ^ 64) }
    ensures { Laid buf.old at (named_of word.now s.now q n) buf.new result }
{
    let at = append(buf, at, word);
    masks(s, q, n, buf, at)
}

// The masks of the record at p, and the end of its line.
fn cells(s: &[u8], p: usize, buf: &mut [u8], at: usize) -> usize
    requires { (at ≤ length buf.old) × (p < 2 ^ 63) }
    ensures { Laid buf.old at (cells_of s.now p) buf.new result }
{
    let stack = u16_at(s, p + 7) as usize;
    let locals = u16_at(s, p + 9) as usize;
    let at = named(b" stack", s, p + 15, stack, buf, at);
    let at = named(b" locals", s, p + 15 + 49 * stack, locals, buf, at);
    push(buf, at, 10)
}

fn recorded(s: &[u8], p: usize, buf: &mut [u8], at: usize) -> usize
    requires { (at ≤ length buf.old) × (p < 2 ^ 63) }
    ensures { Laid buf.old at (record_line s.now p) buf.new result }
{
    let at = number(buf, at, u16_at(s, p + 3) as u32);
    let at = spaced(buf, at, u16_at(s, p + 5) as u32);
    cells(s, p, buf, at)
}

fn inspection(s: &[u8], p: usize, buf: &mut [u8], at: usize) -> usize
    requires { (at ≤ length buf.old) × (p < 2 ^ 63) }
    ensures { Laid buf.old at (inspection_line s.now p) buf.new result }
{
    let at = append(buf, at, b"inspection");
    let at = spaced(buf, at, u16_at(s, p + 3) as u32);
    last(buf, at, u16_at(s, p + 5) as u32)
}

fn branch(s: &[u8], p: usize, buf: &mut [u8], at: usize) -> usize
    requires { (at ≤ length buf.old) × (p < 2 ^ 63) }
    ensures { Laid buf.old at (branch_line s.now p) buf.new result }
{
    let at = append(buf, at, b"branch");
    let at = pair(buf, at, u16_at(s, p + 3), u16_at(s, p + 5));
    last(buf, at, u8_at(s, p + 7) as u32)
}

// The place after the field at p.
fn end_at(s: &[u8], p: usize) -> usize
    requires { p < 2 ^ 63 }
    ensures { (result ≡ next_at s.now p) × (p < result) }
{
    p + 3 + (u16_at(s, p + 1) as usize)
}

// The line of the field at p; signatures and slots have none.
fn line(steps: u32, s: &[u8], p: usize, buf: &mut [u8], at: usize) -> usize
    requires { (at ≤ length buf.old) × (p < 2 ^ 63) }
    ensures { Laid buf.old at (field_line steps s.now p) buf.new result }
{
    match u8_at(s, p) {
        16 => accepted(buf, at, steps, u32_at(s, p + 3)),
        19 => recorded(s, p, buf, at),
        20 => inspection(s, p, buf, at),
        21 => branch(s, p, buf, at),
        _ => at,
    }
}

fn lines(steps: u32, s: &[u8], buf: &mut [u8]) -> usize
    ensures { Laid buf.old 0 (lines_of steps s.now (fields_from s.now 0)) buf.new result }
{
    let mut p = 0;
    let mut to = 0;
    while p < s.len() {
        let next = end_at(s, p);
        if s.len() < next {
            return to;
        }
        to = line(steps, s, p, buf, to);
        p = next;
    }
    to
}

// The first n bytes, or all.
fn first(s: &[u8], n: usize) -> &[u8]
    ensures { result.now ≡ take n s.now }
{
    if n < s.len() {
        return &s[..n];
    }
    s
}

// Lays the listing into the text, as far as it goes, and answers how many bytes of it stand there.
pub fn list(answer: Result<Accepted, Refusal>, report: &[u8], text: &mut [u8]) -> usize
    ensures { Laid text.old 0 (listingOf answer report.now) text.new result }
{
    match answer {
        Err(r) => refused(text, 0, r),
        Ok(Accepted { length, steps }) => lines(steps, first(report, length), text),
    }
}
