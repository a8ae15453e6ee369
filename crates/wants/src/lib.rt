// What validation asks of an instruction's operands.
#![tactic(auto)]

ghost use Rattle.std.specs.Prelude.{◌≡◌};
ghost use Rattle.masks.specs.Names.{NONE};
ghost use Rattle.definition.specs.Wants.{require, meet, wants, nothing, never, every, same, stored, part_want, returned_want, want_by};

use definition::{Ask, Check, Want};
use description::Instr;
use masks::Mask;
use ops::{Asks, Data};

// A value of these kinds where those are allowed: fine, fine behind a guard, or not proven.
pub fn require(actual: Mask, allowed: Mask) -> Check
    ensures { result ≡ require actual allowed }
{
    let narrowed = actual.common(allowed);
    if (actual.bits != 0) & actual.within(allowed) {
        return Check::Fine;
    }
    if (narrowed.bits != 0) & actual.within(Mask::GUARDED) {
        return Check::Guard(narrowed);
    }
    Check::Unproven
}

// Two requirements on one place meet.
pub fn meet(one: Check, other: Check) -> Check
    ensures { result ≡ meet one other }
{
    match one {
        Check::Unproven => Check::Unproven,
        Check::Fine => other,
        Check::Guard(m) => match other {
            Check::Unproven => Check::Unproven,
            Check::Fine => Check::Guard(m),
            Check::Guard(n) => Check::Guard(m.common(n)),
        },
    }
}

fn nothing() -> Want
    ensures { result ≡ nothing }
{
    Want {
        ask: Ask::Nothing,
        first: Mask::NONE,
        second: Mask::NONE,
    }
}

fn never() -> Want
    ensures { result ≡ never }
{
    Want {
        ask: Ask::Never,
        first: Mask::NONE,
        second: Mask::NONE,
    }
}

fn one(first: Mask) -> Want
    ensures { result ≡ wants Ask.First first NONE }
{
    Want {
        ask: Ask::First,
        first,
        second: Mask::NONE,
    }
}

fn two(first: Mask, second: Mask) -> Want
    ensures { result ≡ wants Ask.Both first second }
{
    Want {
        ask: Ask::Both,
        first,
        second,
    }
}

// Every operand within the kinds that they have in common; none in common is not proven.
fn every(common: Mask) -> Want
    ensures { result ≡ every common }
{
    if common.bits == 0 {
        return never();
    }
    Want {
        ask: Ask::Every,
        first: common,
        second: Mask::NONE,
    }
}

// Every operand of the one kind.
fn same(common: Mask, kind: Mask) -> Want
    ensures { result ≡ same common kind }
{
    let m = common.common(kind);
    if m.one_kind() {
        return every(m);
    }
    never()
}

// The composite kind that a field read wants; a boxed read is never proven.
fn part_of(i: Instr, composite: Mask) -> Want
    ensures { result ≡ part_want i composite }
{
    if 1 < i.a {
        return never();
    }
    one(composite)
}

// What is written fits every slot; the index of an indexed write is a word.
fn stored(slots: Data) -> Want
    ensures { result ≡ stored slots }
{
    let ask = match slots {
        Data::NoSlot => Ask::Writes,
        Data::OneSlot => Ask::Writes,
        Data::ManySlots => Ask::WritesIndexed,
    };
    Want {
        ask,
        first: Mask::NONE,
        second: Mask::WORD,
    }
}

// A `Return` of the entry gives back its declared kinds.
fn returned(entry: bool, declared: Mask) -> Want
    ensures { result ≡ returned_want entry declared }
{
    if entry {
        return Want {
            ask: Ask::Below,
            first: declared,
            second: Mask::NONE,
        };
    }
    nothing()
}

// common: the kinds that all operands have in common; pair: those of the first two. declared: of the yielded value at a `Yield`, of the
// result at a `Return`. entry: the instruction is the entry's.
pub fn want_of(
    asks: Asks,
    slots: Data,
    i: Instr,
    common: Mask,
    pair: Mask,
    declared: Mask,
    entry: bool,
) -> Want
    ensures { result ≡ want_by asks slots i common pair declared entry }
{
    match asks {
        Asks::Free => nothing(),
        Asks::First(a) => one(a),
        Asks::Both(a, b) => two(a, b),
        Asks::Yielded => one(declared),
        Asks::Returned => returned(entry, declared),
        Asks::Every(allowed) => every(common.common(allowed)),
        Asks::Ordered => every(pair.common(Mask::NUMERIC)),
        Asks::Same(kind) => same(common, kind),
        Asks::Stored => stored(slots),
        Asks::PartOf(composite) => part_of(i, composite),
        Asks::Never => never(),
    }
}
