// The index of a description of good form, filled in one walk over its fields. `model` has what the walk keeps between two fields.
#![tactic(auto)]

mod model;

ghost use Rattle.std.specs.Prelude.{◌≡◌, cond, ◌<◌, ◌≤◌, ◌^◌, eqb, length};
ghost use Rattle.definition.specs.Bounds.{most_chunks, most_slots};
ghost use Rattle.definition.specs.Module.{init_of};
ghost use Rattle.form_laws.specs.Good.{Good};
ghost use Rattle.layout.specs.Indexed.{bit, Indexed, Fresh, tables_of};
ghost use Rattle.index_fill.specs.model.Model.{first_tables, first_work, numbers_of, number_words, chunk_words, chunk_work, instr_words, instr_work, code_words, code_work, mark_words, init_words, slot_words, tables_after, walked_words, unmarked_words};
ghost use Rattle.index_fill.specs.Fits.{Small, ForChunk, ForInstr, ForCode, ForSlots};
ghost use Rattle.index_fill.specs.Refilled.{Refilled};

use definition::params_in;
use description::reader::second;
use description::{chunk_head_at, header_at, next_at, tag_at};
use layout::{
    Chunk, HEAD_WORDS, ROW_FIELD, Tables, WORD_COUNT, WORD_SUSPENDS, numbers_at, slot_at,
};
use le::{u8_at, u16_at};
use masks::Mask;
pub use model::FillState;
use words::{clear, put_words};

// ---- before the first field
fn first_tables(s: &[u8], queue: usize) -> Tables
    requires { Good s.now queue }
    ensures { result ≡ first_tables s.now queue }
{
    let h = header_at(s, 0);
    Tables {
        chunks: h.chunks as usize,
        signatures: h.signatures as usize,
        entry: h.entry as usize,
        slots: h.slots as usize,
        float: (1u32 << h.float) / 8,
        handle: h.handle as u32,
        owns: h.owns == 1,
        layout: h.layout == 1,
        natives_at: 0,
        natives: 0,
        shared_at: 0,
        shared: 0,
        inits: 0,
        past_placed: false,
        queue_at: queue,
    }
}

fn first_work(t: Tables, keep: bool) -> FillState
    requires { (t.chunks ≤ most_chunks) × (t.slots ≤ most_slots) }
    ensures { result ≡ first_work t keep }
{
    FillState {
        seen: 0,
        numbers: 0,
        instrs: 0,
        free: HEAD_WORDS + 16 * (t.chunks + t.slots),
        size: 0,
        keep,
    }
}

// ---- tags 2 to 4: the chunks
// The numbers of the chunk whose field is at p, before its first instruction.
fn numbers_of(s: &[u8], p: usize, t: Tables, w: FillState) -> Chunk
    requires { ForChunk s.now p t w (2 ^ 64) }
    ensures { (result ≡ numbers_of s.now p t w) × Small result }
{
    let h = chunk_head_at(s, p);
    let locals = h.locals as usize;
    let stack = h.stack as usize;
    let params = usize::from(params_in(s, p, w.seen < t.signatures));
    Chunk {
        at: p,
        rows: w.free + 16 * (params + 1),
        count: 0,
        locals,
        stack,
        reachable: h.reachable == 1,
        suspends: false,
        inputs: w.free,
        params,
        streams: (w.seen == t.entry) & ((h.block == 2) & (0 < h.arity)),
        size: 16 * (locals + stack + 6),
    }
}

fn number_words(c: Chunk) -> [u32; 10]
    requires { Small c }
    ensures { result ≡ number_words c }
{
    [
        c.at as u32,
        c.rows as u32,
        c.count as u32,
        c.locals as u32,
        c.stack as u32,
        u32::from(c.reachable),
        u32::from(c.suspends),
        c.inputs as u32,
        c.params as u32,
        u32::from(c.streams),
    ]
}

fn fill_chunk(s: &[u8], ws: &mut [u32], p: usize, t: Tables, w: FillState) -> FillState
    requires { ForChunk s.now p t w (length ws.old) }
    ensures { (result ≡ chunk_work s.now p t w)
        × (ws.new ≡ chunk_words s.now p t w ws.old) }
{
    let c = numbers_of(s, p, t, w);
    let n = numbers_at(w.seen);
    let numbers = number_words(c);
    put_words(ws, n, &numbers, 10);
    FillState {
        seen: w.seen + 1,
        numbers: n,
        instrs: 0,
        free: c.rows,
        size: c.size,
        keep: w.keep,
    }
}

// The place of the instruction's field stands in its row.
fn fill_instr(ws: &mut [u32], p: usize, w: FillState) -> FillState
    requires { ForInstr p w (length ws.old) }
    ensures { (result ≡ instr_work w) × (ws.new ≡ instr_words p w ws.old) }
{
    let row = w.free + ROW_FIELD;
    let count = w.numbers + WORD_COUNT;
    ws[row] = p as u32;
    ws[count] = (w.instrs + 1) as u32;
    FillState {
        seen: w.seen,
        numbers: w.numbers,
        instrs: w.instrs + 1,
        free: w.free + w.size,
        size: w.size,
        keep: w.keep,
    }
}

// A chunk with a dialogue site suspends.
fn fill_code(tag: u8, s: &[u8], ws: &mut [u32], p: usize, t: Tables, w: FillState) -> FillState
    requires { ForCode tag s.now p t w (length ws.old) }
    ensures { (result ≡ code_work tag s.now p t w)
        × (ws.new ≡ code_words tag s.now p t w ws.old) }
{
    match tag {
        2 => fill_chunk(s, ws, p, t, w),
        3 => fill_instr(ws, p, w),
        4 => {
            let at = w.numbers + WORD_SUSPENDS;
            ws[at] = 1;
            w
        }
        _ => w,
    }
}

// ---- tags 7 and 8: the slots
// The mark of a placement stands above the writes of a round.
fn mark(ws: &mut [u32], t: Tables, slot: usize)
    requires { ForSlots t (length ws.old) }
    ensures { ws.new ≡ mark_words t slot ws.old }
{
    if slot < t.slots {
        let at = slot_at(t, slot) + 15;
        ws[at] = ws[at] % 65536 + 65536;
    }
}

// The initializer gives the private mask of the slot, if there is one.
fn init(ws: &mut [u32], t: Tables, m: Mask)
    requires { ForSlots t (length ws.old) }
    ensures { ws.new ≡ init_words t m ws.old }
{
    let slot = t.shared + t.inits;
    if slot < t.slots {
        let at = slot_at(t, slot);
        ws[at] = m.bits as u32;
    }
}

fn init_mask(s: &[u8], p: usize) -> Mask
    requires { p < 2 ^ 62 }
    ensures { result ≡ init_of s.now p }
{
    Mask::constant(u8_at(s, p + 3), u8_at(s, p + 4) == 1)
}

fn fill_slot(tag: u8, s: &[u8], ws: &mut [u32], p: usize, t: Tables, keep: bool)
    requires { (p < 2 ^ 62) × ForSlots t (length ws.old) }
    ensures { ws.new ≡ slot_words tag s.now p t keep ws.old }
{
    match tag {
        7 => mark(ws, t, u16_at(s, p + 3) as usize),
        8 => {
            if !keep {
                init(ws, t, init_mask(s, p));
            }
        }
        _ => {}
    }
}

// ---- tags 5 to 8: the tables
fn first_at(count: usize, p: usize, at: usize) -> usize
    ensures { result ≡ cond (eqb count 0) p at }
{
    if count == 0 { p } else { at }
}

fn tables_after(tag: u8, s: &[u8], p: usize, t: Tables) -> Tables
    requires { (p < 2 ^ 62) × (t.natives < 2 ^ 32) × (t.shared < 2 ^ 32) × (t.inits < 2 ^ 32) }
    ensures { result ≡ tables_after tag s.now p t }
{
    let mut u = t;
    match tag {
        5 => {
            u.natives_at = first_at(t.natives, p, t.natives_at);
            u.natives = t.natives + 1;
            u
        }
        6 => {
            u.shared_at = first_at(t.shared, p, t.shared_at);
            u.shared = t.shared + 1;
            u
        }
        7 => {
            u.past_placed = t.past_placed | ((u16_at(s, p + 3) as usize) == t.slots);
            u
        }
        8 => {
            u.inits = t.inits + 1;
            u
        }
        _ => t,
    }
}

fn walk(s: &[u8], ws: &mut [u32], queue: usize, keep: bool) -> Tables
    requires good { Good s.now queue }
    requires queue_in_bounds { queue ≤ length ws.old }
    ensures { (result ≡ tables_of s.now)
        × (ws.new ≡ walked_words s.now queue keep ws.old) }
{
    let mut t = first_tables(s, queue);
    let mut w = first_work(t, keep);
    let mut at = second(s);
    while at < s.len() {
        let tag = tag_at(s, at);
        w = fill_code(tag, s, ws, at, t, w);
        fill_slot(tag, s, ws, at, t, w.keep);
        t = tables_after(tag, s, at, t);
        at = next_at(s, at);
    }
    t
}

// The index of a description of good form, in words that hold anything.
pub fn fill(s: &[u8], ws: &mut [u32], queue: usize) -> Tables
    requires good { Good s.now queue }
    requires queue_in_bounds { queue ≤ length ws.old }
    ensures { (result ≡ tables_of s.now) × Indexed s.now ws.new × Fresh s.now ws.new
        × (length ws.new ≡ length ws.old) }
{
    let h = header_at(s, 0);
    clear(
        ws,
        HEAD_WORDS + 16 * ((h.chunks as usize) + (h.slots as usize)),
    );
    walk(s, ws, queue, false)
}

// No slot is marked. The writes of a round, below the marks, stay.
fn unmark(ws: &mut [u32], t: Tables)
    requires { ForSlots t (length ws.old) }
    ensures { ws.new ≡ unmarked_words t t.slots ws.old }
{
    for slot in 0..t.slots {
        let at = slot_at(t, slot) + 15;
        ws[at] = ws[at] % 65536;
    }
}

// The index of a description of good form written anew, in words that hold anything else as well: states, facts and queue of a run stay.
pub fn refill(s: &[u8], ws: &mut [u32], queue: usize) -> Tables
    requires good { Good s.now queue }
    requires queue_in_bounds { queue ≤ length ws.old }
    ensures { (result ≡ tables_of s.now) × Indexed s.now ws.new
        × Refilled s.now ws.old ws.new }
{
    unmark(ws, first_tables(s, queue));
    walk(s, ws, queue, true)
}
