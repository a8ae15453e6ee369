// What refuses a visit in the rounds and in validation alike.
ghost use Rattle.std.specs.Prelude.{◌≡◌, ◌<◌};
ghost use Rattle.ops.specs.declared.Acts.TheVariants.{Calls};
ghost use Rattle.definition.specs.Leaves.{hopeless, is_return, always};
ghost use Rattle.layout.specs.Indexed.{tables_of};
ghost use Rattle.visit.specs.Held.{Looking, visit_in};
ghost use Rattle.checks.specs.refusals.Never.{never_proven};

use layout::Tables;
use ops::{Acts, Asks};
use slots::data_fault;
use visit::RowVisit;

// A boxed part is asked for, or there is no rule at all.
fn boxed_part(asks: Asks, form: u32) -> bool
    ensures { result ≡ hopeless asks form }
{
    match asks {
        Asks::PartOf(_) => 1 < form,
        Asks::Never => true,
        _ => false,
    }
}

fn returns(acts: Acts) -> bool
    ensures { result ≡ is_return acts }
{
    acts == Acts::Returns
}

// What no mode accepts: fewer values than are taken, a boxed field, `Len`, no value to return.
fn never_proven(v: RowVisit) -> bool
    ensures { result ≡ never_proven v }
{
    let ins = v.ins;
    let rule = v.rule;
    let asks = rule.asks;
    (v.height < (ins.taken as usize))
        | (boxed_part(asks, ins.a) | (returns(rule.acts) & (v.start == 0)))
}

// The refusal that a visit meets in the rounds and in validation alike: 13, 14, or 0 for none.
pub fn always_fault(s: &[u8], ws: &[u32], t: Tables, v: RowVisit) -> u8
    requires looking { Looking s.now ws.now v }
    requires t_value { t ≡ tables_of s.now }
    ensures { result ≡ always (visit_in s.now ws.now v) }
{
    if never_proven(v) {
        return 13;
    }
    let rule = v.rule;
    let d = rule.slots;
    data_fault(s, ws, t, v.ins, d)
}
