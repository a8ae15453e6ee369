// Masks of value kinds, and the masks of constants and immediates.
#![tactic(auto)]

ghost use Rattle.std.specs.Prelude.{◌≡◌};
ghost use Rattle.masks.specs.Mask.{scalar, body, kind, union, common, has, within, one_kind, operand_kind, constant, immediate};

// The kinds that a value may be of, one bit for each.
#[derive(Clone, Copy, PartialEq, Eq)]
pub struct Mask {
    pub bits: u16,
}

// The class of an operand, as an untagged native instruction needs it.
#[derive(Clone, Copy, PartialEq, Eq)]
pub enum OperandKind {
    Int,
    Fixed,
    Float,
    Unknown,
}

impl Mask {
    pub const NONE: Mask = Mask { bits: 0 };

    pub const UNIT: Mask = Mask { bits: 1 };

    pub const FALSE: Mask = Mask { bits: 2 };

    pub const BYTE: Mask = Mask { bits: 4 };

    pub const WORD: Mask = Mask { bits: 8 };

    pub const FIXED: Mask = Mask { bits: 16 };

    pub const FLOAT: Mask = Mask { bits: 32 };

    pub const TEXT: Mask = Mask { bits: 64 };

    pub const OPAQUE: Mask = Mask { bits: 128 };

    pub const TUPLE: Mask = Mask { bits: 256 };

    pub const ARRAY: Mask = Mask { bits: 512 };

    pub const STRUCT: Mask = Mask { bits: 1024 };

    pub const ENUM: Mask = Mask { bits: 2048 };

    pub const TRUE: Mask = Mask { bits: 4096 };

    pub const BOOL: Mask = Mask { bits: 4098 };

    pub const BODY: Mask = Mask { bits: 3840 };

    pub const UNKNOWN: Mask = Mask { bits: 8191 };
    // BYTE, FIXED and FLOAT; WORD and FIXED; BYTE, WORD and FIXED; BYTE, WORD, FIXED and FLOAT.
    pub const MIXED: Mask = Mask { bits: 52 };

    pub const EXACT: Mask = Mask { bits: 24 };

    pub const WHOLE: Mask = Mask { bits: 28 };

    pub const NUMERIC: Mask = Mask { bits: 60 };
    // The fallback of an indexed read: UNIT, BYTE and WORD.
    pub const FALLBACK: Mask = Mask { bits: 13 };
    // UNIT, BOOL, BYTE, WORD, FIXED and FLOAT; with BODY: what a guard can tell apart.
    pub const SCALARS: Mask = Mask { bits: 4159 };

    pub const GUARDED: Mask = Mask { bits: 7999 };
    // Every kind but TEXT, TRUE folded into FALSE: what can be packed.
    pub const PACKED: Mask = Mask { bits: 4031 };

    // The mask of a scalar kind.
    pub fn scalar(kind: u8) -> Mask
        ensures { result ≡ scalar kind }
    {
        if kind == 1 {
            return Mask::BOOL;
        }
        if kind < 8 {
            return Mask { bits: 1u16 << kind };
        }
        Mask::UNKNOWN
    }

    // The mask of a composite kind.
    pub fn body(kind: u8) -> Mask
        ensures { result ≡ body kind }
    {
        if kind < 4 {
            return Mask {
                bits: 256u16 << kind,
            };
        }
        Mask::BODY
    }

    // TRUE folded into FALSE.
    pub fn kind(self) -> Mask
        ensures { result ≡ kind self }
    {
        let rest = self.bits & 61439;
        if (self.bits & 4096) != 0 {
            return Mask { bits: rest | 2 };
        }
        Mask { bits: rest }
    }

    pub fn union(self, other: Mask) -> Mask
        ensures { result ≡ union self other }
    {
        Mask {
            bits: self.bits | other.bits,
        }
    }

    pub fn common(self, other: Mask) -> Mask
        ensures { result ≡ common self other }
    {
        Mask {
            bits: self.bits & other.bits,
        }
    }

    // A kind of the one is a kind of the other.
    pub fn has(self, other: Mask) -> bool
        ensures { result ≡ has self other }
    {
        (self.bits & other.bits) != 0
    }

    // Every kind of this mask is one of the other.
    pub fn within(self, other: Mask) -> bool
        ensures { result ≡ within self other }
    {
        (self.bits & other.bits) == self.bits
    }

    // One kind: a single bit once TRUE is folded into FALSE.
    pub fn one_kind(self) -> bool
        ensures { result ≡ one_kind self }
    {
        let folded = self.kind();
        u16::count_ones(folded.bits) == 1
    }

    // The class of an operand, by its mask with TRUE folded into FALSE: a line for each single bit. 4096 has none, since folding takes it
    // away. Two bits or more leave the kind open, and no bit is no kind yet: unknown. No caller here: as in types.rs it serves later passes.
    pub fn operand_kind(self) -> OperandKind
        ensures { result ≡ operand_kind self }
    {
        let folded = self.kind();
        let bits = folded.bits;
        match bits {
            1 => OperandKind::Int, // UNIT
            2 => OperandKind::Int, // FALSE, TRUE or both: BOOL
            4 => OperandKind::Int, // BYTE
            8 => OperandKind::Int, // WORD
            16 => OperandKind::Fixed, // FIXED
            32 => OperandKind::Float, // FLOAT
            64 => OperandKind::Int, // TEXT
            128 => OperandKind::Int, // OPAQUE
            256 => OperandKind::Int, // TUPLE
            512 => OperandKind::Int, // ARRAY
            1024 => OperandKind::Int, // STRUCT
            2048 => OperandKind::Int, // ENUM
            // No kind has these bits, which lie above UNKNOWN. But a u16 can hold one of them alone, and then the count of ones said Int.
            8192 => OperandKind::Int,
            16384 => OperandKind::Int,
            32768 => OperandKind::Int,
            _ => OperandKind::Unknown,
        }
    }

    // The mask of a constant, by its place in ConstValue; truth is the Bool's value.
    pub fn constant(place: u8, truth: bool) -> Mask
        ensures { result ≡ constant place truth }
    {
        match place {
            0 => Mask::UNIT,
            1 => if truth { Mask::TRUE } else { Mask::FALSE },
            2 => Mask::WORD,
            3 => Mask::BYTE,
            4 => Mask::FIXED,
            5 => Mask::FLOAT,
            6 => Mask::TEXT,
            7 => Mask::TUPLE,
            8 => Mask::ARRAY,
            9 => Mask::STRUCT,
            10 => Mask::ENUM,
            _ => Mask::UNKNOWN,
        }
    }

    // The mask of what `PushImmediate` pushes.
    pub fn immediate(operand: u8) -> Mask
        ensures { result ≡ immediate operand }
    {
        if operand == 0 {
            return Mask::UNIT;
        }
        if operand == 1 {
            return Mask::TRUE;
        }
        if operand == 2 {
            return Mask::FALSE;
        }
        if (3 < operand) & (operand < 20) {
            return Mask::WORD;
        }
        Mask::UNKNOWN
    }
}
