// The outputs of a visit, and the local that it sets (`assigning`).
#![tactic(auto)]

mod assigning;

ghost use Rattle.std.specs.Prelude.{◌≡◌, ◌+◌, ◌%◌, ◌^◌, ◌<◌, ◌≤◌, length, Some};
ghost use Rattle.flows.specs.Flow.{negated};
ghost use Rattle.cells.specs.Cell.{made};
ghost use Rattle.description.specs.Fields.{reply_of};
ghost use Rattle.words.specs.Layout.{cell_at};
ghost use Rattle.definition.specs.Module.{module_of};
ghost use Rattle.definition.specs.Data.{slot_count, slots_from, read_slots};
ghost use Rattle.definition.specs.Outputs.{negation, with_predicate, with_origin, native_cell, at, reply_shape, composite_cell, first_output, outputs};
ghost use Rattle.definition.specs.Leaves.{always};
ghost use Rattle.form_laws.specs.Good.{Good, words_of};
ghost use Rattle.layout.specs.Layout.{local_at, result_at};
ghost use Rattle.layout.specs.Indexed.{Indexed, tables_of, chunk_at};
ghost use Rattle.visit.specs.Held.{Looking, facts_in, visit_in};

pub use assigning::set_local;
use cells::{Cell, owned_width};
use definition::Made;
use description::site_reply;
use index::{chunk_at, native_shape, snapshot};
use layout::{Chunk, Tables, local_at, result_at};
use masks::Mask;
use new_values::{
    bits_mask, constant_cell, field_cell, fresh, native_cell, negation, rest_output, second_output,
    with_origin, with_predicate,
};
use ops::Makes;
use packing::construction;
use slots::read_slots;
use visit::{RowVisit, common_kinds, constructed_at, operand, operand_mask, slots_of};
use words::load;

fn composite_cell(s: &[u8], ws: &[u32], t: Tables, v: RowVisit) -> Cell
    requires looking { Looking s.now ws.now v }
    requires t_value { t ≡ tables_of s.now }
    ensures { result ≡ composite_cell (visit_in s.now ws.now v) }
{
    let ins = v.ins;
    let kind = (ins.b % 256) as u8;
    if ins.a == 0 {
        return construction(kind, constructed_at(s, ws, t, v));
    }
    Cell::made(Mask::body(kind), t.float)
}

fn local_cell(ws: &[u32], ch: Chunk, v: RowVisit) -> Cell
    requires a_in_bounds { local_at v.row ch.stack v.ins.a + 16 ≤ length ws.now }
    requires a_bound { local_at v.row ch.stack v.ins.a < 2 ^ 63 }
    ensures { result ≡ with_origin (cell_at ws.now (local_at v.row ch.stack v.ins.a)) (Some (v.ins.a % 65536)) }
{
    let ins = v.ins;
    let c = load(ws, local_at(ch, v.row, ins.a as usize));
    with_origin(c, Some((ins.a % 65536) as u16))
}

fn native_at(s: &[u8], t: Tables, v: RowVisit) -> Cell
    requires good { Good s.now (words_of (module_of s.now)) }
    requires t_value { t ≡ tables_of s.now }
    ensures { result ≡ native_cell (at (module_of s.now).natives v.ins.a) (module_of s.now).float }
{
    let ins = v.ins;
    let i = ins.a as usize;
    if i < t.natives {
        return native_cell(native_shape(s, t, i), snapshot(s, t, i));
    }
    Cell::made(Mask::UNKNOWN, t.float)
}

pub fn reply_cell(s: &[u8], v: RowVisit) -> Cell
    requires { v.field < 2 ^ 61 }
    ensures { result ≡ reply_shape (reply_of s.now v.field) }
{
    let shape = site_reply(s, v.field);
    let width = shape.declared_width();
    fresh(shape.mask(), width, owned_width(width, true))
}

fn owned_in(c: Cell) -> bool
    ensures { result ≡ c.flow.owned }
{
    let f = c.flow;
    f.owned
}

fn negated_cell(first: Cell, float: u32) -> Cell
    ensures { result ≡ with_predicate (made (negation first.mask) float) (negated first.flow.predicate) }
{
    let f = first.flow;
    let p = f.predicate;
    with_predicate(Cell::made(negation(first.mask), float), p.negated())
}

fn result_cell(s: &[u8], ws: &[u32], v: RowVisit) -> Cell
    requires indexed { Indexed s.now ws.now }
    requires a_in_bounds { v.ins.a < length (module_of s.now).chunks }
    ensures { result ≡ cell_at ws.now (result_at (module_of s.now) v.ins.a) }
{
    let ins = v.ins;
    load(ws, result_at(chunk_at(s, ws, ins.a as usize)))
}

fn slots_cell(s: &[u8], ws: &[u32], t: Tables, v: RowVisit) -> Cell
    requires indexed { Indexed s.now ws.now }
    requires t_value { t ≡ tables_of s.now }
    requires slots_bound { v.ins.a + slot_count v.ins v.rule.slots ≤ t.slots }
    ensures { result ≡ read_slots (module_of s.now) (facts_in s.now ws.now) v.ins.a (slots_from v.ins v.rule.slots) }
{
    let rule = v.rule;
    let d = rule.slots;
    read_slots(s, ws, t, slots_of(v.ins, d))
}

// The first output of a visit that nothing refuses whatever the mode.
fn first_output(s: &[u8], ws: &[u32], t: Tables, ch: Chunk, v: RowVisit) -> Cell
    requires looking { Looking s.now ws.now v }
    requires t_value { t ≡ tables_of s.now }
    requires ch_value { ch ≡ chunk_at s.now ws.now v.chunk }
    requires v_value { always (visit_in s.now ws.now v) ≡ 0 }
    ensures { result ≡ first_output (visit_in s.now ws.now v) v.rule.makes }
{
    let ins = v.ins;
    let rule = v.rule;
    let makes = rule.makes;
    match makes {
        Makes::Anything => Cell::made(Mask::UNKNOWN, t.float),
        Makes::Constant => constant_cell(ins, t.float),
        Makes::Immediate => Cell::made(Mask::immediate((ins.a % 256) as u8), t.float),
        Makes::Local => local_cell(ws, ch, v),
        Makes::Operand => operand(ws, v, 0),
        Makes::OperandMask => Cell::made(operand_mask(ws, v, 0), t.float),
        Makes::Reply => reply_cell(s, v),
        Makes::Result => result_cell(s, ws, v),
        Makes::Common(allowed) => Cell::made(common_kinds(ws, v).common(allowed), t.float),
        Makes::Kind(kind) => Cell::made(kind, t.float),
        Makes::Negation => negated_cell(operand(ws, v, 0), t.float),
        Makes::OneKind => Cell::made(
            bits_mask(operand_mask(ws, v, 0), common_kinds(ws, v)),
            t.float,
        ),
        Makes::Slots => slots_cell(s, ws, t, v),
        Makes::Composite => composite_cell(s, ws, t, v),
        Makes::Part => field_cell(ins, owned_in(operand(ws, v, 0)), t.float),
        Makes::NativeValue => native_at(s, t, v),
    }
}

// All outputs of the visit.
pub fn made_at(s: &[u8], ws: &[u32], t: Tables, ch: Chunk, v: RowVisit) -> Made
    requires looking { Looking s.now ws.now v }
    requires t_value { t ≡ tables_of s.now }
    requires ch_value { ch ≡ chunk_at s.now ws.now v.chunk }
    requires v_value { always (visit_in s.now ws.now v) ≡ 0 }
    ensures { result ≡ outputs (visit_in s.now ws.now v) }
{
    let rule = v.rule;
    let others = rule.others;
    let first = first_output(s, ws, t, ch, v);
    Made {
        first,
        second: second_output(others, v.ins, first, t.float),
        rest: rest_output(others, first, t.float),
    }
}
