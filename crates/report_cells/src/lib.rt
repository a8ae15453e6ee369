// A cell in 49 bytes; a field's tag and length. Each write answers the place after it.
#![tactic(auto)]

ghost use Rattle.std.specs.Prelude.{◌≡◌, ◌∷◌, ◌+◌, ◌<◌, ◌≤◌, length};
ghost use Rattle.le.specs.Le.{le16};
ghost use Rattle.le.specs.Wrote.{WroteN};
ghost use Rattle.flows.specs.Flow.{no_flow};
ghost use Rattle.words.specs.Layout.{cell_at};
ghost use Rattle.definition.specs.Report.{sized_bytes, width_bytes, range_bytes, body_bytes, owned_byte, origin_number, receiver_number, when_byte, bodies_bytes, source_bytes, cell_bytes};

use cells::Cell;
use extents::{BodyExtent, Extent};
use flows::{Flow, Predicate};
use le::{put8, put16, put32};
use widths::Width;
use words::{has_flow, load};

fn put_width(buf: &mut [u8], at: usize, w: Width) -> usize
    requires { at + 5 ≤ length buf.old }
    ensures { WroteN buf.old at 5 (width_bytes w) buf.new result }
{
    match w {
        Width::Unknown => put_sized(buf, at, 0, 0),
        Width::Scalar(n) => put_sized(buf, at, 1, n),
        Width::Body(n) => put_sized(buf, at, 2, n),
    }
}

fn put_sized(buf: &mut [u8], at: usize, tag: u8, size: u32) -> usize
    requires { at + 5 ≤ length buf.old }
    ensures { WroteN buf.old at 5 (sized_bytes tag size) buf.new result }
{
    let at = put8(buf, at, tag);
    put32(buf, at, size)
}

fn put_range(buf: &mut [u8], at: usize, tag: u8, min: u32, max: u32) -> usize
    requires { at + 9 ≤ length buf.old }
    ensures { WroteN buf.old at 9 (range_bytes tag min max) buf.new result }
{
    let at = put8(buf, at, tag);
    let at = put32(buf, at, min);
    put32(buf, at, max)
}

fn put_extent(buf: &mut [u8], at: usize, e: Extent) -> usize
    requires { at + 9 ≤ length buf.old }
    ensures { WroteN buf.old at 9 (body_bytes e.body) buf.new result }
{
    let b = e.body;
    match b {
        BodyExtent::Absent => put_range(buf, at, 0, 0, 0),
        BodyExtent::Range { min, max } => put_range(buf, at, 1, min, max),
        BodyExtent::Unknown => put_range(buf, at, 2, 0, 0),
    }
}

fn owned_byte(o: bool) -> u8
    ensures { result ≡ owned_byte o }
{
    if o { 1 } else { 0 }
}

fn origin_number(o: Option<u16>) -> u16
    ensures { result ≡ origin_number o }
{
    match o {
        None => 65535,
        Some(i) => i,
    }
}

fn receiver_number(p: Predicate) -> u16
    ensures { result ≡ receiver_number p }
{
    match p {
        Predicate::Nothing => 65535,
        Predicate::Tests { receiver, when: _ } => receiver,
    }
}

fn when_byte(p: Predicate) -> u8
    ensures { result ≡ when_byte p }
{
    match p {
        Predicate::Nothing => 0,
        Predicate::Tests { receiver: _, when } => if when { 1 } else { 0 },
    }
}

fn put_bodies(buf: &mut [u8], at: usize, bodies: [Extent; 4]) -> usize
    requires { at + 36 ≤ length buf.old }
    ensures { WroteN buf.old at 36 (bodies_bytes bodies) buf.new result }
{
    let at = put_extent(buf, at, bodies[0]);
    let at = put_extent(buf, at, bodies[1]);
    let at = put_extent(buf, at, bodies[2]);
    put_extent(buf, at, bodies[3])
}

fn put_source(buf: &mut [u8], at: usize, f: Flow) -> usize
    requires { at + 6 ≤ length buf.old }
    ensures { WroteN buf.old at 6 (source_bytes f) buf.new result }
{
    let owned = f.owned;
    let origin = f.origin;
    let predicate = f.predicate;
    let at = put8(buf, at, owned_byte(owned));
    let at = put16(buf, at, origin_number(origin));
    let at = put16(buf, at, receiver_number(predicate));
    put8(buf, at, when_byte(predicate))
}

pub fn put_cell(buf: &mut [u8], at: usize, c: Cell) -> usize
    requires { at + 49 ≤ length buf.old }
    ensures { WroteN buf.old at 49 (cell_bytes c) buf.new result }
{
    let m = c.mask;
    let w = c.width;
    let f = c.flow;
    let bodies = f.bodies;
    let at = put16(buf, at, m.bits);
    let at = put_width(buf, at, w);
    let at = put_bodies(buf, at, bodies);
    put_source(buf, at, f)
}

// No bodies.
fn put_no_bodies(buf: &mut [u8], at: usize) -> usize
    requires { at + 36 ≤ length buf.old }
    ensures { WroteN buf.old at 36 (bodies_bytes no_flow.bodies) buf.new result }
{
    let at = put_range(buf, at, 0, 0, 0);
    let at = put_range(buf, at, 0, 0, 0);
    let at = put_range(buf, at, 0, 0, 0);
    put_range(buf, at, 0, 0, 0)
}

// Not owned, no origin, no predicate.
fn put_no_source(buf: &mut [u8], at: usize) -> usize
    requires { at + 6 ≤ length buf.old }
    ensures { WroteN buf.old at 6 (source_bytes no_flow) buf.new result }
{
    let at = put8(buf, at, 0);
    let at = put16(buf, at, 65535);
    let at = put16(buf, at, 65535);
    put8(buf, at, 0)
}

// A cell whose flow says nothing: no extents, not owned, no origin, no predicate.
fn put_flowless(buf: &mut [u8], at: usize, c: Cell) -> usize
    requires at_in_bounds { at + 49 ≤ length buf.old }
    requires flow_value { c.flow ≡ no_flow }
    ensures { WroteN buf.old at 49 (cell_bytes c) buf.new result }
{
    let m = c.mask;
    let bits = m.bits;
    let width = c.width;
    let at = put16(buf, at, bits);
    let at = put_width(buf, at, width);
    let at = put_no_bodies(buf, at);
    put_no_source(buf, at)
}

// A cell of the workspace. Most have no flow.
pub fn put_stored(ws: &[u32], buf: &mut [u8], at: usize, word: usize) -> usize
    requires word_in_bounds { word + 16 ≤ length ws.now }
    requires at_in_bounds { at + 49 ≤ length buf.old }
    ensures { WroteN buf.old at 49 (cell_bytes (cell_at ws.now word)) buf.new result }
{
    if has_flow(ws, word) {
        return put_cell(buf, at, load(ws, word));
    }
    put_flowless(buf, at, load(ws, word))
}

// A field's tag and length.
pub fn put_head(buf: &mut [u8], at: usize, tag: u8, len: usize) -> usize
    requires at_in_bounds { at + 3 ≤ length buf.old }
    requires len_bound { len < 65536 }
    ensures { WroteN buf.old at 3 (tag ∷ le16 len) buf.new result }
{
    let next = put8(buf, at, tag);
    put16(buf, next, len as u16)
}
