// What a call answers, and the refusals made.
#![tactic(auto)]

ghost use Rattle.std.specs.Prelude.{◌≡◌, ◌<◌};
ghost use Rattle.answers.specs.Answers.{refusal, nowhere, in_field};

// A refusal: its number, the chunk and instruction it names (65535 where none), and the steps taken.
#[derive(Clone, Copy)]
pub struct Refusal {
    pub number: u8,
    pub chunk: u16,
    pub instruction: u16,
    pub steps: u32,
}

// What a call that accepts says: the length of the report and the steps taken.
#[derive(Clone, Copy)]
pub struct Accepted {
    pub length: usize,
    pub steps: u32,
}

// Of a call with an index: the length of the index, too.
#[derive(Clone, Copy)]
pub struct AcceptedIndexed {
    pub length: usize,
    pub steps: u32,
    pub index: usize,
}

// A refusal that names neither chunk nor instruction.
pub fn nowhere(number: u8, steps: u32) -> Refusal
    ensures { result ≡ nowhere number steps }
{
    Refusal {
        number,
        chunk: 65535,
        instruction: 65535,
        steps,
    }
}

// A refusal at an instruction of a chunk.
pub fn refuse(number: u8, chunk: usize, at: usize, steps: u32) -> Refusal
    requires chunk_bound { chunk < 65536 }
    requires at_bound { at < 65536 }
    ensures { result ≡ refusal number chunk at steps }
{
    Refusal {
        number,
        chunk: chunk as u16,
        instruction: at as u16,
        steps,
    }
}

// The refusal of a field: 1 and 2 name nothing, 3 and 4 what the field is part of.
pub fn in_field(number: u8, chunk: u16, instruction: u16) -> Refusal
    ensures { result ≡ in_field number chunk instruction }
{
    if number < 3 {
        return nowhere(number, 0);
    }
    Refusal {
        number,
        chunk,
        instruction,
        steps: 0,
    }
}
