// Flows: the extents of a place's body kinds with ownership, origin and predicate.
#![tactic(auto)]

ghost use Rattle.std.specs.Prelude.{◌≡◌, Some};
ghost use Rattle.flows.specs.Flow.{join_origin, origin_without, join_predicate, predicate_without, negated, join_flow, joined_flow, no_flow, extent_of_kind, new_flow, minimum_of, larger, largest, maximum_of, invalidated, bare};

use extents::{BodyExtent, Extent, join_bodies};
use masks::Mask;
use widths::Width;

// A Bool that says whether a local holds an enum, and for which of its values it does.
#[derive(Clone, Copy, PartialEq, Eq)]
pub enum Predicate {
    Nothing,
    Tests { receiver: u16, when: bool },
}

#[derive(Clone, Copy, PartialEq, Eq)]
pub struct Flow {
    pub bodies: [Extent; 4],
    // Whether the body in the place is owned.
    pub owned: bool,
    // The local that the value was read from and still equals.
    pub origin: Option<u16>,
    pub predicate: Predicate,
}

#[derive(Clone, Copy)]
pub struct JoinedFlow {
    pub flow: Flow,
    pub changed: bool,
}

// An origin once this local is forgotten.
fn origin_without(origin: Option<u16>, local: u16) -> Option<u16>
    ensures { result ≡ origin_without origin local }
{
    match origin {
        Some(i) => if i == local { None } else { Some(i) },
        None => None,
    }
}

// Unequal origins join to none.
fn join_origin(a: Option<u16>, b: Option<u16>) -> Option<u16>
    ensures { result ≡ join_origin a b }
{
    if a == b { a } else { None }
}

impl Predicate {
    // Forgets a test of this local.
    fn without(self, local: u16) -> Predicate
        ensures { result ≡ predicate_without self local }
    {
        match self {
            Predicate::Nothing => Predicate::Nothing,
            Predicate::Tests { receiver, when } => if receiver == local {
                Predicate::Nothing
            } else {
                Predicate::Tests { receiver, when }
            },
        }
    }

    // The predicate of the negated Bool.
    pub fn negated(self) -> Predicate
        ensures { result ≡ negated self }
    {
        match self {
            Predicate::Nothing => Predicate::Nothing,
            Predicate::Tests { receiver, when } => Predicate::Tests {
                receiver,
                when: !when,
            },
        }
    }

    fn join(self, other: Predicate) -> Predicate
        ensures { result ≡ join_predicate self other }
    {
        if self == other {
            self
        } else {
            Predicate::Nothing
        }
    }
}

// The extent of a body kind that a new value of this mask and width may be.
fn extent_of(present: bool, width: Width) -> Extent
    ensures { result ≡ extent_of_kind present width }
{
    if !present {
        return Extent::ABSENT;
    }
    match width {
        Width::Body(n) => Extent::range(n, n),
        Width::Scalar(_) => Extent::UNKNOWN,
        Width::Unknown => Extent::UNKNOWN,
    }
}

// The larger of a bound so far and what an extent can be, if that is bounded.
fn larger(sofar: Option<u32>, extent: Extent) -> Option<u32>
    ensures { result ≡ larger sofar extent }
{
    let e = extent.body;
    match sofar {
        None => None,
        Some(m) => match e {
            BodyExtent::Absent => Some(m),
            BodyExtent::Range { min: _, max } => Some(m.max(max)),
            BodyExtent::Unknown => None,
        },
    }
}

// The largest size that four extents can be, where all are bounded.
fn largest(e: [Extent; 4]) -> Option<u32>
    ensures { result ≡ largest (Some 0) e }
{
    let m = larger(Some(0), e[0]);
    let m = larger(m, e[1]);
    let m = larger(m, e[2]);
    larger(m, e[3])
}

impl Flow {
    // No body, not owned, no origin, no predicate.
    pub fn none() -> Flow
        ensures { result ≡ no_flow }
    {
        Flow {
            bodies: [Extent::ABSENT; 4],
            owned: false,
            origin: None,
            predicate: Predicate::Nothing,
        }
    }

    pub fn new(mask: Mask, width: Width, owned: bool) -> Flow
        ensures { result ≡ new_flow mask width owned }
    {
        Flow {
            bodies: [
                extent_of(mask.has(Mask::TUPLE), width),
                extent_of(mask.has(Mask::ARRAY), width),
                extent_of(mask.has(Mask::STRUCT), width),
                extent_of(mask.has(Mask::ENUM), width),
            ],
            owned,
            origin: None,
            predicate: Predicate::Nothing,
        }
    }

    pub fn with(self, other: Flow) -> Flow
        ensures { result ≡ join_flow self other }
    {
        let b1 = self.bodies;
        let b2 = other.bodies;
        let w1 = self.owned;
        let w2 = other.owned;
        let o1 = self.origin;
        let o2 = other.origin;
        let p1 = self.predicate;
        let p2 = other.predicate;
        Flow {
            bodies: join_bodies(b1, b2),
            owned: w1 | w2,
            origin: join_origin(o1, o2),
            predicate: p1.join(p2),
        }
    }

    pub fn join(self, other: Flow) -> JoinedFlow
        ensures { result ≡ joined_flow self other }
    {
        let f = self.with(other);
        JoinedFlow {
            flow: f,
            changed: self != f,
        }
    }

    // The least size of a body of the one kind in the mask.
    pub fn minimum(self, mask: Mask) -> Option<u32>
        ensures { result ≡ minimum_of self mask }
    {
        let e = self.bodies;
        let bits = mask.bits;
        match bits {
            256 => e[0].minimum(),
            512 => e[1].minimum(),
            1024 => e[2].minimum(),
            2048 => e[3].minimum(),
            _ => None,
        }
    }

    // The largest size of any body, where all are bounded.
    pub fn maximum(self) -> Option<u32>
        ensures { result ≡ maximum_of self }
    {
        let e = self.bodies;
        largest(e)
    }

    // Forgets what names this local.
    pub fn invalidate(self, local: u16) -> Flow
        ensures { result ≡ invalidated self local }
    {
        let bodies = self.bodies;
        let owned = self.owned;
        let o = self.origin;
        let p = self.predicate;
        Flow {
            bodies,
            owned,
            origin: origin_without(o, local),
            predicate: p.without(local),
        }
    }

    // Without origin and predicate, as facts between chunks are.
    pub fn bare(self) -> Flow
        ensures { result ≡ bare self }
    {
        let bodies = self.bodies;
        let owned = self.owned;
        Flow {
            bodies,
            owned,
            origin: None,
            predicate: Predicate::Nothing,
        }
    }
}
