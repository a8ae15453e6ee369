// Widths, declared shapes, and the width of a scalar kind.
#![tactic(auto)]

ghost use Rattle.std.specs.Prelude.{◌≡◌};
ghost use Rattle.widths.specs.Width.{join_width, scalar_width};
ghost use Rattle.widths.specs.Shape.{shape_mask, declared_width};

use masks::Mask;

// What is known of a value's size in bytes.
#[derive(Clone, Copy, PartialEq, Eq)]
pub enum Width {
    Unknown,
    Scalar(u32),
    Body(u32),
}

// A declared shape as the description has it: tag 0 Top, 1 Scalar, 2 Flat; width 0 unknown, 1 scalar, 2 body.
#[derive(Clone, Copy)]
pub struct Shape {
    pub tag: u8,
    pub kind: u8,
    pub width: u8,
    pub size: u32,
}

// The size of a value of one scalar kind.
pub fn scalar_width(mask: Mask, float: u32) -> Width
    ensures { result ≡ scalar_width mask float }
{
    let folded = mask.kind();
    let bits = folded.bits;
    match bits {
        1 => Width::Scalar(0),
        2 => Width::Scalar(1),
        4 => Width::Scalar(1),
        8 => Width::Scalar(8),
        16 => Width::Scalar(8),
        32 => Width::Scalar(float),
        _ => Width::Unknown,
    }
}

impl Width {
    // Unequal widths join to Unknown.
    pub fn join(self, other: Width) -> Width
        ensures { result ≡ join_width self other }
    {
        if self == other { self } else { Width::Unknown }
    }
}

impl Shape {
    pub fn mask(self) -> Mask
        ensures { result ≡ shape_mask self }
    {
        if self.tag == 1 {
            return Mask::scalar(self.kind);
        }
        if self.tag == 2 {
            return Mask::body(self.kind);
        }
        Mask::UNKNOWN
    }

    pub fn declared_width(self) -> Width
        ensures { result ≡ declared_width self }
    {
        if self.width == 1 {
            return Width::Scalar(self.size);
        }
        if self.width == 2 {
            return Width::Body(self.size);
        }
        Width::Unknown
    }
}
