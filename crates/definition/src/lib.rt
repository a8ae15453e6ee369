// The definition of the whole call stands in specs/. Here are the types that it shares with the code, and two small functions of it that
// crates with nothing else in common use.
#![tactic(auto)]

ghost use Rattle.std.specs.Prelude.{◌≡◌, ◌<◌, ◌^◌};
ghost use Rattle.definition.specs.Module.{signed_params};
ghost use Rattle.definition.specs.Outputs.{output};

use cells::Cell;
use description::params_of;
use masks::Mask;

// The outputs of an instruction: the first, the second, and all others.
#[derive(Clone, Copy)]
pub struct Made {
    pub first: Cell,
    pub second: Cell,
    pub rest: Cell,
}

// Which operands validation asks for.
#[derive(Clone, Copy, PartialEq, Eq)]
pub enum Ask {
    Nothing,
    First,
    Both,
    Every,
    Below,
    Writes,
    WritesIndexed,
    Never,
}

// The operands asked for, with the kinds that the first (or each) and the second may be of.
#[derive(Clone, Copy, PartialEq, Eq)]
pub struct Want {
    pub ask: Ask,
    pub first: Mask,
    pub second: Mask,
}

// What a requirement finds: fine, fine behind a guard, or not proven.
#[derive(Clone, Copy, PartialEq, Eq)]
pub enum Check {
    Fine,
    Guard(Mask),
    Unproven,
}

// What the walk over the fields knows before a field: the tag of the field before, the header's numbers, the chunks seen, the numbers of the
// chunk at work, the fields of the last tag so far, and the cells of the workspace so far.
#[derive(Clone, Copy)]
pub struct Scan {
    pub place: u8,
    pub chunks: u16,
    pub signatures: u16,
    pub layout: u8,
    pub seen: u16,
    pub locals: u16,
    pub stack: u16,
    pub instrs: u32,
    pub count: u32,
    pub cells: u64,
}

// The output k of an instruction.
pub fn output(m: Made, k: usize) -> Cell
    ensures { result ≡ output m k }
{
    if k == 0 {
        return m.first;
    }
    if k == 1 {
        return m.second;
    }
    m.rest
}

// The parameter shapes of the chunk field at p; a chunk past the signatures has none.
pub fn params_in(s: &[u8], p: usize, signed: bool) -> u8
    requires { p < 2 ^ 62 }
    ensures { result ≡ signed_params s.now p signed }
{
    if !signed {
        return 0;
    }
    params_of(s, p)
}
