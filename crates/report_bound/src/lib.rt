// What a host lends for a description: the least workspace, and a report buffer that every report of it fits into. The second is summed up in
// one walk over the fields, from what each can add.
#![tactic(auto)]

ghost use Rattle.std.specs.Prelude.{◌≡◌, cond, ◌+◌, ◌-◌, ◌<◌, ◌≤◌, ◌^◌, length};
ghost use Rattle.definition.specs.Bounds.{most_bytes};
ghost use Rattle.definition.specs.Module.{module_of};
ghost use Rattle.definition.specs.Leaves.{hopeless};
ghost use Rattle.definition.specs.Ways.{is_reset};
ghost use Rattle.definition.specs.Report.{is_test};
ghost use Rattle.report_bound.specs.Most.{least, written_guards, most_guards, highest, goes_on, height_after, inspection_most, unrecorded, record_most, instr_most, signature_most, most_report};
ghost use Rattle.report_bound.specs.Sizes.{SizesFor};
ghost use Rattle.report_bound.specs.Walk.{chunk_within, instr_within, within_after, field_most};

use answers::Refusal;
use definition::params_in;
use description::{Header, Instr, chunk_head_at, header_at, instr_at, next_at, tag_at};
use form::check_form;
use ops::{Acts, Asks, Data, Exit, Others, rule_of};

// The bytes of the parts of a report: a cell; an output, which has its place too; a guard; a record without these; the fields of tags 20 and 21;
// a signature without its cells; the field of a slot; the reply's.
const CELL: u64 = 49;

const OUTPUT: u64 = 51;

const GUARD: u64 = 4;

const RECORD: u64 = 15;

const INSPECTION: u64 = 7;

const BRANCH: u64 = 8;

const SIGNATURE: u64 = 5;

const SLOT: u64 = 52;

const REPLY: u64 = 7;

// Words of workspace and bytes of report buffer.
#[derive(Clone, Copy)]
pub struct Room {
    pub words: u64,
    pub report: u64,
}

// The chunk that a field stands in: how many there were up to it, whether it is reachable, whether it is the entry, its locals and its stack;
// whether all its instructions before the field only went on to the next, and the height of the stack there.
#[derive(Clone, Copy)]
pub struct Within {
    pub seen: usize,
    pub reachable: bool,
    pub entry: bool,
    pub locals: u16,
    pub stack: u16,
    pub straight: bool,
    pub height: u16,
}

fn least(a: u64, b: u64) -> u64
    ensures { (result ≡ least a b) × (result ≤ a) × (result ≤ b) }
{
    a.min(b)
}

// The guards of a write: on what is written, and on its index where there is one.
fn written_guards(slots: Data, taken: u64) -> u64
    ensures { (result ≡ written_guards slots taken) × (result ≤ taken + 1) }
{
    match slots {
        Data::NoSlot => 1,
        Data::OneSlot => 1,
        Data::ManySlots => least(2, taken),
    }
}

fn number(b: bool, n: u64) -> u64
    ensures { (result ≡ cond b n 0) × (result ≤ n) }
{
    if b { n } else { 0 }
}

// The guards of an instruction, by what is asked of its operands.
fn most_guards(asks: Asks, slots: Data, taken: u64, entry: bool) -> u64
    ensures { (result ≡ most_guards asks slots taken entry) × (result ≤ taken + 1) }
{
    match asks {
        Asks::Free => 0,
        Asks::First(_) => 1,
        Asks::Both(_, _) => least(2, taken),
        Asks::Yielded => 1,
        Asks::Returned => number(entry, 1),
        Asks::Every(_) => taken,
        Asks::Ordered => taken,
        Asks::Same(_) => taken,
        Asks::Stored => written_guards(slots, taken),
        Asks::PartOf(_) => 1,
        Asks::Never => 0,
    }
}

// A field of tag 20 for an inspection.
fn inspection_most(others: Others) -> u64
    ensures { (result ≡ inspection_most others) × (result ≤ 7) }
{
    match others {
        Others::Tested(_) => INSPECTION,
        _ => 0,
    }
}

fn is_test(exit: Exit) -> bool
    ensures { result ≡ is_test exit }
{
    (exit == Exit::Ifs) | (exit == Exit::Breaks)
}

fn is_reset(acts: Acts) -> bool
    ensures { result ≡ is_reset acts }
{
    acts == Acts::Resets
}

// An instruction after which control only goes on to the next, with what lay below its operands.
fn goes_on(i: Instr) -> bool
    ensures { result ≡ goes_on i }
{
    let rule = rule_of(i.op);
    (rule.exit == Exit::Next) & !is_reset(rule.acts)
}

// What is left of n after m are taken.
fn left(n: u64, m: u64) -> u64
    ensures { (result ≡ n - m) × (result ≤ n) }
{
    if n < m { 0 } else { n - m }
}

// The height before the next instruction, where all went on so far; else D.
fn height_after(straight: bool, stack: u16, height: u16, i: Instr) -> u64
    ensures { (result ≡ height_after straight stack height i) × (result ≤ stack) }
{
    if straight {
        return least(
            stack as u64,
            left(height as u64, i.taken as u64) + (i.given as u64),
        );
    }
    stack as u64
}

// An instruction that nothing proves.
fn is_hopeless(asks: Asks, a: u32) -> bool
    ensures { result ≡ hopeless asks a }
{
    match asks {
        Asks::PartOf(_) => 1 < a,
        Asks::Never => true,
        _ => false,
    }
}

// The highest stack before an instruction after which no more than D are on it; `Reset` empties it.
fn highest(resets: bool, stack: u64, taken: u64, given: u64) -> u64
    requires { (stack < 2 ^ 32) × (taken < 2 ^ 32) × (given ≤ stack) }
    ensures { (result ≡ highest resets stack taken given) × (result ≤ stack) }
{
    if resets {
        return stack;
    }
    least(stack, stack + taken - given)
}

// An instruction that no report has a record of.
fn is_unrecorded(stack: u16, i: Instr) -> bool
    ensures { result ≡ unrecorded stack i }
{
    let rule = rule_of(i.op);
    let asks = rule.asks;
    let few = stack < (i.taken as u16);
    let low = stack < (i.given as u16);
    few | low | is_hopeless(asks, i.a)
}

// The bytes of the record of an instruction.
fn record_most(i: Instr, w: Within) -> u64
    requires { i.given ≤ w.stack }
    ensures { (result ≡ record_most w.locals w.stack w.height w.entry i) × (result ≤ 8388000) }
{
    let rule = rule_of(i.op);
    let asks = rule.asks;
    let slots = rule.slots;
    let taken = i.taken as u64;
    let given = i.given as u64;
    let highest = highest(is_reset(rule.acts), w.stack as u64, taken, given);
    let stack = least(w.height as u64, highest);
    let guards = most_guards(asks, slots, taken, w.entry);
    RECORD + CELL * (stack + (w.locals as u64)) + OUTPUT * given + GUARD * guards
}

// The bytes that an instruction of a reachable chunk can add.
fn instr_most(i: Instr, w: Within) -> u64
    ensures { (result ≡ instr_most w.locals w.stack w.height w.entry i) × (result ≤ 8388608) }
{
    if is_unrecorded(w.stack, i) {
        return 0;
    }
    let rule = rule_of(i.op);
    record_most(i, w) + inspection_most(rule.others) + number(is_test(rule.exit), BRANCH)
}

fn signature_most(params: u8, signed: bool) -> u64
    ensures { (result ≡ signature_most params signed) × (result ≤ 8388608) }
{
    if signed {
        SIGNATURE + CELL * ((params as u64) + 1)
    } else {
        0
    }
}

fn chunk_within(s: &[u8], p: usize, h: Header, seen: usize) -> Within
    requires { (p < 2 ^ 62) × (seen < 2 ^ 62) }
    ensures { result ≡ chunk_within s.now p h seen }
{
    let c = chunk_head_at(s, p);
    Within {
        seen: seen + 1,
        reachable: c.reachable == 1,
        entry: seen == (h.entry as usize),
        locals: c.locals,
        stack: c.stack,
        straight: true,
        height: 0,
    }
}

// The same chunk after one of its instructions.
fn instr_within(i: Instr, w: Within) -> Within
    ensures { result ≡ instr_within i w }
{
    let on = w.straight & goes_on(i);
    Within {
        seen: w.seen,
        reachable: w.reachable,
        entry: w.entry,
        locals: w.locals,
        stack: w.stack,
        straight: on,
        height: height_after(on, w.stack, w.height, i) as u16,
    }
}

// The bytes that the field at p can add.
fn field_most(s: &[u8], p: usize, h: Header, w: Within) -> u64
    requires { p < 2 ^ 62 }
    ensures { (result ≡ field_most s.now p h w) × (result ≤ 8388608) }
{
    let tag = tag_at(s, p);
    if tag == 2 {
        let signed = w.seen < (h.signatures as usize);
        return signature_most(params_in(s, p, signed), signed);
    }
    if (tag == 3) & w.reachable {
        return instr_most(instr_at(s, p), w);
    }
    0
}

// The chunk that the field after the one at p stands in.
fn within_after(s: &[u8], p: usize, h: Header, w: Within) -> Within
    requires { (p < 2 ^ 62) × (w.seen < 2 ^ 62) }
    ensures { result ≡ within_after s.now p h w }
{
    let tag = tag_at(s, p);
    if tag == 2 {
        return chunk_within(s, p, h, w.seen);
    }
    if tag == 3 {
        return instr_within(instr_at(s, p), w);
    }
    w
}

// A length that no report of a description passes.
pub fn most_report(s: &[u8]) -> u64
    requires { length s.now ≤ most_bytes }
    ensures { result ≡ most_report (module_of s.now) }
{
    let h = header_at(s, 0);
    let mut n = REPLY + SLOT * (h.slots as u64);
    let mut w = Within {
        seen: 0,
        reachable: false,
        entry: false,
        locals: 0,
        stack: 0,
        straight: false,
        height: 0,
    };
    let mut p: usize = 0;
    while p < s.len() {
        n += field_most(s, p, h, w);
        w = within_after(s, p, h, w);
        p = next_at(s, p);
    }
    n
}

// The least workspace, and a length that no report of the description passes; or the refusal of one that is not of good form.
pub fn sizes(description: &[u8]) -> Result<Room, Refusal>
    ensures { SizesFor description.now result }
{
    let w = check_form(description)?;
    Ok(Room {
        words: w + 1,
        report: most_report(description),
    })
}
