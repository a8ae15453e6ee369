// Extents: the size range of a body of one kind; and four of them, one for each kind (`bodies`).
#![tactic(auto)]

mod bodies;

ghost use Rattle.std.specs.Prelude.{◌≡◌};
ghost use Rattle.extents.specs.Extent.{join_body, join_extent, joined_extent, extent_minimum, extent_exact, exact_width};

pub use bodies::join_bodies;
use widths::Width;

// The size range of a body of one kind.
#[derive(Clone, Copy, PartialEq, Eq)]
pub enum BodyExtent {
    Absent,
    Range { min: u32, max: u32 },
    Unknown,
}

#[derive(Clone, Copy, PartialEq, Eq)]
pub struct Extent {
    pub body: BodyExtent,
}

#[derive(Clone, Copy)]
pub struct JoinedExtent {
    pub extent: Extent,
    pub changed: bool,
}

impl BodyExtent {
    fn with(self, other: BodyExtent) -> BodyExtent
        ensures { result ≡ join_body self other }
    {
        match self {
            BodyExtent::Absent => other,
            BodyExtent::Unknown => BodyExtent::Unknown,
            BodyExtent::Range { min: a, max: b } => match other {
                BodyExtent::Absent => BodyExtent::Range { min: a, max: b },
                BodyExtent::Unknown => BodyExtent::Unknown,
                BodyExtent::Range { min: c, max: d } => BodyExtent::Range {
                    min: a.min(c),
                    max: b.max(d),
                },
            },
        }
    }
}

impl Extent {
    pub const ABSENT: Extent = Extent {
        body: BodyExtent::Absent,
    };

    pub const UNKNOWN: Extent = Extent {
        body: BodyExtent::Unknown,
    };

    pub fn range(min: u32, max: u32) -> Extent
        ensures { result.body ≡ BodyExtent.Range min max }
    {
        Extent {
            body: BodyExtent::Range { min, max },
        }
    }

    pub fn with(self, other: Extent) -> Extent
        ensures { result ≡ join_extent self other }
    {
        let a = self.body;
        let b = other.body;
        Extent { body: a.with(b) }
    }

    // Absent is neutral, ranges span, Unknown absorbs.
    pub fn join(self, other: Extent) -> JoinedExtent
        ensures { result ≡ joined_extent self other }
    {
        let e = self.with(other);
        JoinedExtent {
            extent: e,
            changed: self != e,
        }
    }

    pub fn minimum(self) -> Option<u32>
        ensures { result ≡ extent_minimum self }
    {
        let e = self.body;
        match e {
            BodyExtent::Absent => None,
            BodyExtent::Range { min, max: _ } => Some(min),
            BodyExtent::Unknown => None,
        }
    }

    // The size, where the range is one number.
    pub fn exact(self) -> Option<u32>
        ensures { result ≡ extent_exact self }
    {
        let e = self.body;
        match e {
            BodyExtent::Absent => None,
            BodyExtent::Range { min, max } => if min == max { Some(min) } else { None },
            BodyExtent::Unknown => None,
        }
    }

    // The width of a body that has this extent.
    pub fn exact_width(self) -> Width
        ensures { result ≡ exact_width self }
    {
        match self.exact() {
            Some(n) => Width::Body(n),
            None => Width::Unknown,
        }
    }
}
