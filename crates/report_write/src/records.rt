// The record of an instruction, written: its place, its counts, cells, outputs and guards. Each write answers the place after it.
ghost use Rattle.std.specs.Prelude.{◌≡◌, [], ◌++◌, ◌+◌, ◌*◌, ◌<◌, ◌≤◌, length, get_or};
ghost use Rattle.le.specs.Le.{le16};
ghost use Rattle.le.specs.Wrote.{Wrote, WroteN};
ghost use Rattle.words.specs.Rows.{cells_at};
ghost use Rattle.definition.specs.Module.{row, module_of};
ghost use Rattle.definition.specs.Outputs.{output};
ghost use Rattle.definition.specs.Wants.{guard_of, guards};
ghost use Rattle.definition.specs.Report.{placed, cells_bytes, outputs_bytes, guards_bytes};
ghost use Rattle.layout.specs.Layout.{row_at};
ghost use Rattle.layout.specs.Indexed.{tables_of, chunk_at};
ghost use Rattle.visit.specs.Held.{visit_in};
ghost use Rattle.checks.specs.asked.Proving.{Asking};
ghost use Rattle.report_size.specs.Adds.{record_at};
ghost use Rattle.report_size.specs.Here.{Finished, Here};
ghost use Rattle.report_write.specs.records.Values.{values_in};

use checks::{Places, check_place, places_asked, want_at};
use definition::{Check, Made, Want, output};
use index::chunk_at;
use layout::{Chunk, Tables, local_at, place_at};
use le::put16;
use outputs::made_at;
use report_cells::{put_cell, put_head, put_stored};
use report_size::{count_guards, record_len};
use visit::{RowVisit, visit_at};

// n cells of the workspace, from the word on.
pub fn put_cells(ws: &[u32], buf: &mut [u8], at: usize, word: usize, n: usize) -> usize
    requires n_in_bounds { word + 16 * n ≤ length ws.now }
    requires n_in_bounds_2 { at + 49 * n ≤ length buf.old }
    ensures { WroteN buf.old at (49 * n) (cells_bytes (cells_at ws.now word n)) buf.new result }
{
    let mut to = at;
    for k in 0..n {
        to = put_stored(ws, buf, to, word + 16 * k);
    }
    to
}

fn put_outputs(buf: &mut [u8], at: usize, v: RowVisit, made: Made) -> usize
    requires given_bound { v.start + v.ins.given ≤ 65536 }
    requires given_in_bounds { at + 51 * v.ins.given ≤ length buf.old }
    ensures { WroteN buf.old at (51 * v.ins.given) (outputs_bytes (placed v.start (row (output made) 0 v.ins.given))) buf.new result }
{
    let ins = v.ins;
    let given = ins.given as usize;
    let mut to = at;
    for k in 0..given {
        to = put16(buf, to, ((v.start + k) % 65536) as u16);
        to = put_cell(buf, to, output(made, k));
    }
    to
}

fn put_guard(buf: &mut [u8], at: usize, p: usize, c: Check) -> usize
    requires p_bound { p < 65536 }
    requires c_in_bounds { at + length (guards_bytes (guard_of p c [])) ≤ length buf.old }
    ensures { Wrote buf.old at (guards_bytes (guard_of p c [])) buf.new result }
{
    match c {
        Check::Guard(m) => {
            let at = put16(buf, at, (p % 65536) as u16);
            put16(buf, at, m.bits)
        }
        Check::Fine => at,
        Check::Unproven => at,
    }
}

// The place asked k-th: they rise, and the guards with them.
fn place_in_turn(places: Places, k: usize) -> usize
    requires { places.from + k < places.end }
    ensures { result ≡ places.from + k }
{
    places.from + k
}

// The guards, rising by stack place.
fn put_guards(
    s: &[u8],
    ws: &[u32],
    buf: &mut [u8],
    at: usize,
    t: Tables,
    v: RowVisit,
    want: Want,
) -> usize
    requires asking { Asking s.now ws.now v want }
    requires t_value { t ≡ tables_of s.now }
    requires v_in_bounds { at + length (guards_bytes (guards (visit_in s.now ws.now v))) ≤ length buf.old }
    ensures { Wrote buf.old at (guards_bytes (guards (visit_in s.now ws.now v))) buf.new result }
{
    let places = places_asked(v, want);
    let n = places.end - places.from;
    let mut to = at;
    for k in 0..n {
        let p = place_in_turn(places, k);
        to = put_guard(buf, to, p, check_place(s, ws, t, v, want, p));
    }
    to
}

fn put_counts(buf: &mut [u8], at: usize, ch: Chunk, v: RowVisit, guards: usize) -> usize
    requires height_bound { (v.height < 65536) × (ch.locals < 65536) × (guards < 65536) }
    requires at_in_bounds { at + 8 ≤ length buf.old }
    ensures { WroteN buf.old at 8 (le16 v.height ++ (le16 ch.locals ++ (le16 v.ins.given ++ le16 guards))) buf.new result }
{
    let ins = v.ins;
    let at = put16(buf, at, (v.height % 65536) as u16);
    let at = put16(buf, at, (ch.locals % 65536) as u16);
    let at = put16(buf, at, ins.given as u16);
    put16(buf, at, (guards % 65536) as u16)
}

pub fn put_place(buf: &mut [u8], at: usize, c: usize, i: usize) -> usize
    requires c_bound { (c < 65536) × (i < 65536) }
    requires at_in_bounds { at + 4 ≤ length buf.old }
    ensures { WroteN buf.old at 4 (le16 c ++ le16 i) buf.new result }
{
    let at = put16(buf, at, (c % 65536) as u16);
    put16(buf, at, (i % 65536) as u16)
}

// What stands behind a record's counts: stack, locals, outputs, guards.
fn put_values(
    s: &[u8],
    ws: &[u32],
    buf: &mut [u8],
    at: usize,
    t: Tables,
    ch: Chunk,
    v: RowVisit,
    want: Want,
) -> usize
    requires asking { Asking s.now ws.now v want }
    requires t_value { t ≡ tables_of s.now }
    requires ch_value { ch ≡ chunk_at s.now ws.now v.chunk }
    requires v_in_bounds { at + length (values_in s.now ws.now v) ≤ length buf.old }
    ensures { Wrote buf.old at (values_in s.now ws.now v) buf.new result }
{
    let at = put_cells(ws, buf, at, place_at(v.row, 0), v.height);
    let at = put_cells(ws, buf, at, local_at(ch, v.row, 0), ch.locals);
    let at = put_outputs(buf, at, v, made_at(s, ws, t, ch, v));
    put_guards(s, ws, buf, at, t, v, want)
}

pub fn put_record(
    s: &[u8],
    ws: &[u32],
    buf: &mut [u8],
    at: usize,
    t: Tables,
    c: usize,
    i: usize,
) -> usize
    requires finished { Finished s.now ws.now t }
    requires here { Here s.now ws.now c (chunk_at s.now ws.now c) i }
    requires nonzero { 0 < get_or ws.now (row_at (module_of s.now) c i) 0 }
    requires i_in_bounds { at + length (record_at s.now ws.now c i) ≤ length buf.old }
    ensures { Wrote buf.old at (record_at s.now ws.now c i) buf.new result }
{
    let ch = chunk_at(s, ws, c);
    let v = visit_at(s, ws, c, ch, i);
    let want = want_at(s, ws, ch, v, c == t.entry);
    let guards = count_guards(s, ws, t, v, want);
    let at = put_head(buf, at, 19, record_len(ch, v, guards));
    let at = put_place(buf, at, c, i);
    let at = put_counts(buf, at, ch, v, guards);
    put_values(s, ws, buf, at, t, ch, v, want)
}
