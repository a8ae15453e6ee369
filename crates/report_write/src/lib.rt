// The fields of the report, in the order of their tags, and in them the records of instructions. Each write answers the place after it.
#![tactic(auto)]

mod records;

ghost use Rattle.std.specs.Prelude.{◌≡◌, ◌+◌, ◌*◌, ◌^◌, ◌<◌, ◌≤◌, length};
ghost use Rattle.le.specs.Wrote.{put, Wrote, WroteN};
ghost use Rattle.definition.specs.Module.{row, module_of};
ghost use Rattle.definition.specs.Report.{inspection_bytes, branch_bytes, report_bytes};
ghost use Rattle.layout.specs.Indexed.{Indexed, tables_of, chunk_at};
ghost use Rattle.run_state.specs.Course.{Ended};
ghost use Rattle.report_size.specs.Reporting.{Faultless, report_in};
ghost use Rattle.report_size.specs.Span.{span};
ghost use Rattle.report_size.specs.Adds.{signature_at, added_for, chunk_for, chunks_for};
ghost use Rattle.report_size.specs.recorded.Told.{RowInside, way_in};
ghost use Rattle.report_size.specs.Here.{Finished, Here};
ghost use Rattle.report_write.specs.records.Writes.{slot_from};
ghost use Rattle.layout.specs.Layout.{head_words};

use cells::Cell;
use index::{chunk_at, instr_of};
use layout::{Tables, input_at, row_at, slot_at};
use le::{put8, put16, put32};
use records::{put_cells, put_place, put_record};
use report_cells::{put_cell, put_head};
use report_size::{branch_value, false_inspection, is_recorded, known_branch, recorded_count};
use widths::Width;
use words::load;

fn put_signature(s: &[u8], ws: &[u32], buf: &mut [u8], at: usize, c: usize) -> usize
    requires indexed { Indexed s.now ws.now }
    requires c_in_bounds { c < length (module_of s.now).chunks }
    requires c_in_bounds_2 { at + length (signature_at s.now ws.now c) ≤ length buf.old }
    ensures { Wrote buf.old at (signature_at s.now ws.now c) buf.new result }
{
    let ch = chunk_at(s, ws, c);
    let at = put_head(buf, at, 17, 2 + 49 * (ch.params + 1));
    let at = put16(buf, at, (c % 65536) as u16);
    put_cells(ws, buf, at, input_at(ch, 0), ch.params + 1)
}

fn put_signatures(s: &[u8], ws: &[u32], buf: &mut [u8], at: usize, t: Tables) -> usize
    requires indexed { Indexed s.now ws.now }
    requires t_value { t ≡ tables_of s.now }
    requires signatures_in_bounds { at + length (span (signature_at s.now ws.now) 0 t.signatures) ≤ length buf.old }
    ensures { Wrote buf.old at (span (signature_at s.now ws.now) 0 t.signatures) buf.new result }
{
    let mut to = at;
    for c in 0..t.signatures {
        to = put_signature(s, ws, buf, to, c);
    }
    to
}

// A private fact, its width unknown.
fn put_slot(ws: &[u32], buf: &mut [u8], at: usize, t: Tables, slot: usize) -> usize
    requires slot_in_bounds { 80 + 16 * t.chunks + 16 * slot ≤ length ws.now }
    requires slot_bound { 80 + 16 * t.chunks + 16 * slot < 2 ^ 62 }
    requires at_in_bounds { at + 52 ≤ length buf.old }
    ensures { WroteN buf.old at 52 (slot_from ws.now t.chunks slot) buf.new result }
{
    let c = load(ws, slot_at(t, slot));
    let mask = c.mask;
    let flow = c.flow;
    let at = put_head(buf, at, 18, 49);
    put_cell(
        buf,
        at,
        Cell {
            mask,
            width: Width::Unknown,
            flow,
        },
    )
}

fn put_slots(ws: &[u32], buf: &mut [u8], at: usize, t: Tables) -> usize
    requires slots_in_bounds { head_words + 16 * t.chunks + 16 * t.slots ≤ length ws.now }
    requires slots_bound { head_words + 16 * t.chunks + 16 * t.slots < 2 ^ 62 }
    requires slots_in_bounds_2 { at + length (span (slot_from ws.now t.chunks) 0 t.slots) ≤ length buf.old }
    ensures { Wrote buf.old at (span (slot_from ws.now t.chunks) 0 t.slots) buf.new result }
{
    let mut to = at;
    for k in 0..t.slots {
        to = put_slot(ws, buf, to, t, k);
    }
    to
}

fn put_inspection(buf: &mut [u8], at: usize, c: usize, i: usize) -> usize
    requires c_bound { (c < 65536) × (i < 65536) }
    requires at_in_bounds { at + 7 ≤ length buf.old }
    ensures { WroteN buf.old at 7 (inspection_bytes (record { chunk = c; instruction = i })) buf.new result }
{
    let at = put_head(buf, at, 20, 4);
    put_place(buf, at, c, i)
}

fn put_branch(ws: &[u32], buf: &mut [u8], at: usize, row: usize, c: usize, i: usize) -> usize
    requires row_inside { RowInside ws.now row }
    requires c_bound { (c < 65536) × (i < 65536) }
    requires at_in_bounds { at + 8 ≤ length buf.old }
    ensures { WroteN buf.old at 8 (branch_bytes (record { chunk = c; instruction = i; value = way_in ws.now row })) buf.new result }
{
    let at = put_head(buf, at, 21, 5);
    let at = put_place(buf, at, c, i);
    put8(buf, at, branch_value(ws, row))
}

// The field of this tag for one instruction, if it has one.
fn put_instr(
    s: &[u8],
    ws: &[u32],
    buf: &mut [u8],
    at: usize,
    t: Tables,
    c: usize,
    i: usize,
    tag: u8,
) -> usize
    requires finished { Finished s.now ws.now t }
    requires here { Here s.now ws.now c (chunk_at s.now ws.now c) i }
    requires i_in_bounds { at + length (added_for s.now ws.now tag c i) ≤ length buf.old }
    ensures { Wrote buf.old at (added_for s.now ws.now tag c i) buf.new result }
{
    let ch = chunk_at(s, ws, c);
    let row = row_at(ch, i);
    let ins = instr_of(s, ws, c, ch, i);
    if (tag == 19) & is_recorded(ws, row) {
        return put_record(s, ws, buf, at, t, c, i);
    }
    if (tag == 20) & false_inspection(ws, row, ins.op) {
        return put_inspection(buf, at, c, i);
    }
    if (tag == 21) & known_branch(ws, row, ins.op) {
        return put_branch(ws, buf, at, row, c, i);
    }
    at
}

fn put_chunk(s: &[u8], ws: &[u32], buf: &mut [u8], at: usize, t: Tables, c: usize, tag: u8) -> usize
    requires finished { Finished s.now ws.now t }
    requires c_in_bounds { c < length (module_of s.now).chunks }
    requires c_in_bounds_2 { at + length (chunk_for s.now ws.now tag c) ≤ length buf.old }
    ensures { Wrote buf.old at (chunk_for s.now ws.now tag c) buf.new result }
{
    let ch = chunk_at(s, ws, c);
    let n = recorded_count(ch);
    let mut to = at;
    for i in 0..n {
        to = put_instr(s, ws, buf, to, t, c, i, tag);
    }
    to
}

fn put_chunks(s: &[u8], ws: &[u32], buf: &mut [u8], at: usize, t: Tables, tag: u8) -> usize
    requires finished { Finished s.now ws.now t }
    requires tag_in_bounds { at + length (chunks_for s.now ws.now tag) ≤ length buf.old }
    ensures { Wrote buf.old at (chunks_for s.now ws.now tag) buf.new result }
{
    let mut to = at;
    for c in 0..t.chunks {
        to = put_chunk(s, ws, buf, to, t, c, tag);
    }
    to
}

// The whole report into a buffer that is long enough.
pub fn write(s: &[u8], ws: &[u32], buf: &mut [u8], t: Tables, reply: u32)
    requires ended { Ended s.now ws.now }
    requires faultless { Faultless s.now ws.now }
    requires t_value { t ≡ tables_of s.now }
    requires reply_in_bounds { length (report_bytes (report_in s.now ws.now reply)) ≤ length buf.old }
    ensures { buf.new ≡ put buf.old 0 (report_bytes (report_in s.now ws.now reply)) }
{
    let at = put_head(buf, 0, 16, 4);
    let at = put32(buf, at, reply);
    let at = put_signatures(s, ws, buf, at, t);
    let at = put_slots(ws, buf, at, t);
    let at = put_chunks(s, ws, buf, at, t, 19);
    let at = put_chunks(s, ws, buf, at, t, 20);
    put_chunks(s, ws, buf, at, t, 21);
}
