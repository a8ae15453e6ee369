// The kinds of a value made of others: of bits, of a negation.
ghost use Rattle.std.specs.Prelude.{◌≡◌};
ghost use Rattle.definition.specs.Outputs.{bits_mask, if_has, negation};

use masks::Mask;

// WORD, where it is common to all operands, else the first's kinds.
pub fn bits_mask(first: Mask, common: Mask) -> Mask
    ensures { result ≡ bits_mask first common }
{
    let word = common.common(Mask::WORD);
    if word.one_kind() {
        return word;
    }
    first.kind()
}

fn if_has(mask: Mask, kind: Mask, then: Mask) -> Mask
    ensures { result ≡ if_has mask kind then }
{
    if mask.has(kind) {
        return then;
    }
    Mask::NONE
}

// FALSE where TRUE is possible, and TRUE where FALSE is.
pub fn negation(first: Mask) -> Mask
    ensures { result ≡ negation first }
{
    if_has(first, Mask::TRUE, Mask::FALSE).union(if_has(first, Mask::FALSE, Mask::TRUE))
}
