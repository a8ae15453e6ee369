// A cell in 16 words: mask and flags, size of the width, four times kind, least and most, then origin and receiver.
// The flags: width (2 bits), owned (2), predicate (2), origin (1). Absent parts are 0, so equal cells are equal words;
// the last word stays free.
ghost use Rattle.std.specs.Prelude.{◌≡◌, ℕ, ◌+◌, ◌≤◌, ◌<◌, length, get_or};
ghost use Rattle.words.specs.Layout.{width_of, extent_of, owned_of, origin_of, predicate_of, two_of, three_of, four_of, owned_bits, origin_words, predicate_words, encode, decode, off, cell_at, put_n, put_cell, copy_n, Storable};

use cells::Cell;
use extents::{BodyExtent, Extent};
use flows::{Flow, Predicate};
use masks::Mask;
use widths::Width;

// The words that are the cell's: the last is not.
pub const CELL_WORDS: usize = 15;

#[derive(Clone, Copy)]
struct Two(u32, u32);

#[derive(Clone, Copy)]
struct Three(u32, u32, u32);

#[derive(Clone, Copy)]
struct Four(Three, Three, Three, Three);

fn two_of(w: Width) -> Two
    ensures { (result ≡ two_of w) × (result.0 < 3) }
{
    match w {
        Width::Unknown => Two(0, 0),
        Width::Scalar(n) => Two(1, n),
        Width::Body(n) => Two(2, n),
    }
}

fn width_of(tag: u32, n: u32) -> Width
    ensures { result ≡ width_of tag n }
{
    if tag == 0 {
        return Width::Unknown;
    }
    if tag == 1 {
        return Width::Scalar(n);
    }
    Width::Body(n)
}

fn three_of(e: Extent) -> Three
    ensures { result ≡ three_of e }
{
    let b = e.body;
    match b {
        BodyExtent::Absent => Three(0, 0, 0),
        BodyExtent::Range { min, max } => Three(1, min, max),
        BodyExtent::Unknown => Three(2, 0, 0),
    }
}

fn extent_of(tag: u32, min: u32, max: u32) -> Extent
    ensures { result ≡ extent_of tag min max }
{
    if tag == 0 {
        return Extent::ABSENT;
    }
    if tag == 1 {
        return Extent::range(min, max);
    }
    Extent::UNKNOWN
}

fn owned_bits(o: bool) -> u32
    ensures { (result ≡ owned_bits o) × (result < 2) }
{
    if o { 1 } else { 0 }
}

fn owned_of(bits: u32) -> bool
    ensures { result ≡ owned_of bits }
{
    bits != 0
}

// Tag and local of an origin.
fn origin_words(o: Option<u16>) -> Two
    ensures { (result ≡ origin_words o) × (result.0 < 2) × (result.1 < 65536) }
{
    match o {
        None => Two(0, 0),
        Some(i) => Two(1, i as u32),
    }
}

fn origin_of(tag: u32, local: u32) -> Option<u16>
    ensures { result ≡ origin_of tag local }
{
    if tag == 0 {
        None
    } else {
        Some((local % 65536) as u16)
    }
}

// Tag and receiver of a predicate: 1 when false, 2 when true.
fn predicate_words(p: Predicate) -> Two
    ensures { (result ≡ predicate_words p) × (result.0 < 3) × (result.1 < 65536) }
{
    match p {
        Predicate::Nothing => Two(0, 0),
        Predicate::Tests { receiver, when } => if when {
            Two(2, receiver as u32)
        } else {
            Two(1, receiver as u32)
        },
    }
}

fn predicate_of(tag: u32, receiver: u32) -> Predicate
    ensures { result ≡ predicate_of tag receiver }
{
    if tag == 0 {
        Predicate::Nothing
    } else {
        Predicate::Tests {
            receiver: (receiver % 65536) as u16,
            when: tag == 2,
        }
    }
}

fn four_of(b: [Extent; 4]) -> Four
    ensures { (result ≡ four_of b) × (length b ≡ 4) }
{
    Four(
        three_of(b[0]),
        three_of(b[1]),
        three_of(b[2]),
        three_of(b[3]),
    )
}

pub fn words_of(c: Cell) -> [u32; 16]
    ensures { (result ≡ encode c) × Storable c }
{
    let m = c.mask;
    let width = c.width;
    let f = c.flow;
    let bodies = f.bodies;
    let owned = f.owned;
    let origin = f.origin;
    let predicate = f.predicate;
    let w = two_of(width);
    let x = four_of(bodies);
    let a = x.0;
    let b = x.1;
    let d = x.2;
    let e = x.3;
    let o = origin_words(origin);
    let p = predicate_words(predicate);
    let flags = w.0 + 4 * owned_bits(owned) + 16 * p.0 + 64 * o.0;
    [
        (m.bits as u32) + 65536 * flags,
        w.1,
        a.0,
        a.1,
        a.2,
        b.0,
        b.1,
        b.2,
        d.0,
        d.1,
        d.2,
        e.0,
        e.1,
        e.2,
        o.1 + 65536 * p.1,
        0,
    ]
}

pub fn cell_of(w: [u32; 16]) -> Cell
    ensures { result ≡ decode (λ (k : ℕ). get_or w k 0) }
{
    let flags = w[0] / 65536;
    Cell {
        mask: Mask {
            bits: (w[0] % 65536) as u16,
        },
        width: width_of(flags % 4, w[1]),
        flow: Flow {
            bodies: [
                extent_of(w[2], w[3], w[4]),
                extent_of(w[5], w[6], w[7]),
                extent_of(w[8], w[9], w[10]),
                extent_of(w[11], w[12], w[13]),
            ],
            owned: owned_of(flags / 4 % 4),
            origin: origin_of(flags / 64 % 2, w[14] % 65536),
            predicate: predicate_of(flags / 16 % 4, w[14] / 65536),
        },
    }
}

fn get16(ws: &[u32], at: usize) -> [u32; 16]
    requires { at + 16 ≤ length ws.now }
    ensures { (k : ℕ) → k < 16 → get_or result k 0 ≡ get_or ws.now (off at k) 0 }
{
    let mut a = [0u32; 16];
    for k in 0..16 {
        a[k] = ws[at + k];
    }
    a
}

// Writes the first n words of a.
pub fn put_words(ws: &mut [u32], at: usize, a: &[u32], n: usize)
    requires n_in_bounds { at + n ≤ length ws.old }
    requires n_in_bounds_2 { n ≤ length a.now }
    ensures { ws.new ≡ put_n ws.old at a.now n }
{
    for k in 0..n {
        ws[at + k] = a[k];
    }
}

pub fn load(ws: &[u32], at: usize) -> Cell
    requires { at + 16 ≤ length ws.now }
    ensures { result ≡ cell_at ws.now at }
{
    cell_of(get16(ws, at))
}

pub fn store(ws: &mut [u32], at: usize, c: Cell)
    requires { at + 15 ≤ length ws.old }
    ensures { (ws.new ≡ put_cell ws.old at c) × Storable c }
{
    let w = words_of(c);
    put_words(ws, at, &w, CELL_WORDS);
}

pub fn copy16(ws: &mut [u32], from: usize, to: usize)
    requires from_in_bounds { from + 16 ≤ length ws.old }
    requires to_in_bounds { to + 15 ≤ length ws.old }
    ensures { ws.new ≡ copy_n ws.old from to 15 }
{
    let w = get16(ws, from);
    put_words(ws, to, &w, CELL_WORDS);
}
