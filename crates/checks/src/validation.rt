// Whether a visit is proven: what validation asks of all its places.
ghost use Rattle.std.specs.Prelude.{◌≡◌, ◌+◌, ◌<◌};
ghost use Rattle.definition.specs.declared.Check.TheVariants.{Fine};
ghost use Rattle.definition.specs.Wants.{is_proven, all_proven, is_unknown, unpacked, is_entry, unfit};
ghost use Rattle.definition.specs.Leaves.{always};
ghost use Rattle.layout.specs.Indexed.{tables_of, chunk_at};
ghost use Rattle.visit.specs.Held.{Looking, visit_in};
ghost use Rattle.checks.specs.asked.Proving.{is_never, asked_in, Asking};

use crate::asked::{check_place, places_asked, want_at};
use definition::{Ask, Check, Want};
use extents::{BodyExtent, Extent};
use layout::{Chunk, Tables};
use ops::Makes;
use visit::{RowVisit, constructed_at};

fn is_proven(c: Check) -> bool
    ensures { result ≡ is_proven c }
{
    c != Check::Unproven
}

fn places_proven(s: &[u8], ws: &[u32], t: Tables, v: RowVisit, want: Want) -> bool
    requires asking { Asking s.now ws.now v want }
    requires t_value { t ≡ tables_of s.now }
    ensures { result ≡ all_proven (asked_in s.now ws.now v want) }
{
    let places = places_asked(v, want);
    for p in places.from..places.end {
        if !is_proven(check_place(s, ws, t, v, want, p)) {
            return false;
        }
    }
    true
}

fn is_never(want: Want) -> bool
    ensures { result ≡ is_never want.ask }
{
    want.ask == Ask::Never
}

fn unbounded(e: Extent) -> bool
    ensures { result ≡ is_unknown e.body }
{
    matches!(e.body, BodyExtent::Unknown)
}

// A flat construction whose operands do not pack within it.
fn unpacked(s: &[u8], ws: &[u32], t: Tables, v: RowVisit) -> bool
    requires looking { Looking s.now ws.now v }
    requires t_value { t ≡ tables_of s.now }
    ensures { result ≡ unpacked (visit_in s.now ws.now v) v.rule.makes }
{
    let ins = v.ins;
    let rule = v.rule;
    let makes = rule.makes;
    match makes {
        Makes::Composite => if ins.a == 0 {
            unbounded(constructed_at(s, ws, t, v))
        } else {
            false
        },
        _ => false,
    }
}

// What validation refuses a visit for: 13, 15, or 0 for nothing.
pub fn proven(s: &[u8], ws: &[u32], t: Tables, ch: Chunk, v: RowVisit, entry: bool) -> u8
    requires looking { Looking s.now ws.now v }
    requires t_value { t ≡ tables_of s.now }
    requires ch_value { ch ≡ chunk_at s.now ws.now v.chunk }
    requires value { entry ≡ is_entry (visit_in s.now ws.now v) }
    requires v_value { always (visit_in s.now ws.now v) ≡ 0 }
    ensures { result ≡ unfit (visit_in s.now ws.now v) }
{
    let want = want_at(s, ws, ch, v, entry);
    if is_never(want) {
        return 13;
    }
    if !places_proven(s, ws, t, v, want) {
        return 13;
    }
    if unpacked(s, ws, t, v) {
        return 15;
    }
    0
}
