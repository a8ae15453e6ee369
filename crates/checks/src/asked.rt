// What validation asks of a visit, and the guards that follow.
ghost use Rattle.std.specs.Prelude.{◌≡◌, ◌+◌, ◌<◌, ◌≤◌, ◌^◌, get_or};
ghost use Rattle.masks.specs.Mask.{kind, common};
ghost use Rattle.widths.specs.Shape.{shape_mask};
ghost use Rattle.description.specs.Fields.{yielded_of, result_of};
ghost use Rattle.definition.specs.declared.Ask.TheVariants.{Below};
ghost use Rattle.definition.specs.declared.Check.TheVariants.{Fine};
ghost use Rattle.definition.specs.Module.{module_of};
ghost use Rattle.definition.specs.Data.{slot_count, slots_from};
ghost use Rattle.definition.specs.Outputs.{no_cell};
ghost use Rattle.definition.specs.Wants.{require, write_check, at_index, declared_kinds, want_of, is_entry};
ghost use Rattle.layout.specs.Indexed.{Indexed, tables_of, chunk_at};
ghost use Rattle.visit.specs.Held.{Looking, Standing, args_in, facts_in, visit_in};
ghost use Rattle.checks.specs.asked.Proving.{places_by, found_in, Asking};

use definition::{Ask, Check, Want};
use description::{declared_result, site_yielded};
use layout::{Chunk, Tables, place_at};
use masks::Mask;
use ops::Asks;
use slots::write_check;
use visit::{RowVisit, common_kinds, operand_mask, slots_of};
use wants::{meet, require, want_of};
use words::mask_at;

fn yielded_mask(s: &[u8], v: RowVisit) -> Mask
    requires { v.field < 2 ^ 61 }
    ensures { result ≡ shape_mask (yielded_of s.now v.field) }
{
    let shape = site_yielded(s, v.field);
    shape.mask()
}

fn result_mask(s: &[u8], ch: Chunk) -> Mask
    requires { ch.at < 2 ^ 62 }
    ensures { result ≡ shape_mask (result_of s.now ch.at) }
{
    let shape = declared_result(s, ch.at);
    shape.mask()
}

fn declared_mask(s: &[u8], ch: Chunk, v: RowVisit) -> Mask
    requires { (v.field < 2 ^ 61) × (ch.at < 2 ^ 62) }
    ensures { result ≡ declared_kinds v.rule.asks (shape_mask (yielded_of s.now v.field))
        (shape_mask (result_of s.now ch.at)) }
{
    let rule = v.rule;
    let asks = rule.asks;
    match asks {
        Asks::Yielded => yielded_mask(s, v),
        Asks::Returned => result_mask(s, ch),
        _ => Mask::NONE,
    }
}

// The kinds that the first two operands have in common.
fn pair_kinds(ws: &[u32], v: RowVisit) -> Mask
    requires { Standing ws.now v }
    ensures { result ≡ common (kind (get_or (args_in ws.now v) 0 no_cell).mask) (kind (get_or (args_in ws.now v) 1 no_cell).mask) }
{
    let a = operand_mask(ws, v, 0);
    let b = operand_mask(ws, v, 1);
    a.kind().common(b.kind())
}

pub fn want_at(s: &[u8], ws: &[u32], ch: Chunk, v: RowVisit, entry: bool) -> Want
    requires looking { Looking s.now ws.now v }
    requires ch_value { ch ≡ chunk_at s.now ws.now v.chunk }
    requires value { entry ≡ is_entry (visit_in s.now ws.now v) }
    ensures { result ≡ want_of (visit_in s.now ws.now v) }
{
    let rule = v.rule;
    let asks = rule.asks;
    let slots = rule.slots;
    want_of(
        asks,
        slots,
        v.ins,
        common_kinds(ws, v),
        pair_kinds(ws, v),
        declared_mask(s, ch, v),
        entry,
    )
}

fn at_index(k: usize, index: usize, actual: Mask, allowed: Mask) -> Check
    ensures { result ≡ at_index k index (require actual allowed) }
{
    if k == index {
        require(actual, allowed)
    } else {
        Check::Fine
    }
}

// What is written, the first operand, fits each slot.
fn value_check(s: &[u8], ws: &[u32], t: Tables, v: RowVisit, p: usize, m: Mask) -> Check
    requires indexed { Indexed s.now ws.now }
    requires t_value { t ≡ tables_of s.now }
    requires slots_bound { v.ins.a + slot_count v.ins v.rule.slots ≤ t.slots }
    ensures { result ≡ at_index p v.start
        (write_check (module_of s.now) (facts_in s.now ws.now) m Fine (slots_from v.ins v.rule.slots)) }
{
    if p == v.start {
        let rule = v.rule;
        let slots = rule.slots;
        return write_check(s, ws, t, slots_of(v.ins, slots), m);
    }
    Check::Fine
}

// What is asked of the value at a stack place.
pub fn check_place(s: &[u8], ws: &[u32], t: Tables, v: RowVisit, want: Want, p: usize) -> Check
    requires asking { Asking s.now ws.now v want }
    requires t_value { t ≡ tables_of s.now }
    requires ask_bound { ((places_by v want.ask).from ≤ p) × (p < (places_by v want.ask).end) }
    ensures { result ≡ found_in s.now ws.now v want p }
{
    let m = mask_at(ws, place_at(v.row, p));
    let ask = want.ask;
    match ask {
        Ask::Nothing => Check::Fine,
        Ask::First => at_index(p, v.start, m, want.first),
        Ask::Both => meet(
            at_index(p, v.start, m, want.first),
            at_index(p, v.start + 1, m, want.second),
        ),
        Ask::Every => require(m.kind(), want.first),
        Ask::Below => require(m, want.first),
        Ask::Writes => value_check(s, ws, t, v, p, m),
        Ask::WritesIndexed => meet(
            value_check(s, ws, t, v, p, m),
            at_index(p, v.start + 1, m, want.second),
        ),
        Ask::Never => Check::Unproven,
    }
}

// The places that are asked about run from here up to end.
#[derive(Clone, Copy)]
pub struct Places {
    pub from: usize,
    pub end: usize,
}

pub fn places_asked(v: RowVisit, want: Want) -> Places
    requires { want.ask ≡ Below → 0 < v.start }
    ensures { result ≡ places_by v want.ask }
{
    let ask = want.ask;
    match ask {
        Ask::Below => Places {
            from: v.start - 1,
            end: v.start,
        },
        _ => Places {
            from: v.start,
            end: v.height,
        },
    }
}
