// The fields of a description, read at a place: their fixed parts (`heads`), their shapes (`shapes`), here all else. Every read is total.
// `reader` has the reader that remembers how far it has read.
#![tactic(auto)]

mod heads;
pub mod reader;
mod shapes;

ghost use Rattle.std.specs.Prelude.{◌≡◌, ◌+◌, ◌<◌, ◌^◌};
ghost use Rattle.description.specs.Fields.{tag_at, len_at, next_at, tags_at, params_at, params_of, has_site};

pub use heads::{chunk_head_at, header_at, instr_at};
use le::{u8_at, u16_at};
pub use shapes::{declared_result, param_at, shape_at, site_reply, site_yielded};

// Field 1.
#[derive(Clone, Copy)]
pub struct Header {
    pub float: u8,
    pub entry: u16,
    pub chunks: u16,
    pub signatures: u16,
    pub layout: u8,
    pub slots: u16,
    pub owns: u8,
    pub handle: u8,
}

// The fixed part of field 2.
#[derive(Clone, Copy)]
pub struct ChunkHead {
    pub reachable: u8,
    pub block: u8,
    pub locals: u16,
    pub stack: u16,
    pub arity: u8,
    pub tags: u8,
}

// Field 3.
#[derive(Clone, Copy)]
pub struct Instr {
    pub op: u8,
    pub taken: u8,
    pub given: u8,
    pub a: u32,
    pub b: u32,
    pub c: u32,
}

// A field's tag and length, and the place after it.
pub fn tag_at(s: &[u8], p: usize) -> u8
    requires { p < 2 ^ 62 }
    ensures { result ≡ tag_at s.now p }
{
    u8_at(s, p)
}

pub fn len_at(s: &[u8], p: usize) -> u16
    requires { p < 2 ^ 62 }
    ensures { result ≡ len_at s.now p }
{
    u16_at(s, p + 1)
}

pub fn next_at(s: &[u8], p: usize) -> usize
    requires { p < 2 ^ 62 }
    ensures { (result ≡ next_at s.now p) × (p < result) × (result < p + 65539) }
{
    p + 3 + (len_at(s, p) as usize)
}

// Where the type tags, the number of parameter shapes and the shapes of the chunk field at p stand.
pub fn tags_at(p: usize) -> usize
    requires { p < 2 ^ 62 }
    ensures { result ≡ tags_at p }
{
    p + 11
}

pub fn params_at(s: &[u8], p: usize) -> usize
    requires { p < 2 ^ 62 }
    ensures { (result ≡ params_at s.now p) × (result < p + 267) }
{
    tags_at(p) + (u8_at(s, p + 10) as usize)
}

pub fn params_of(s: &[u8], p: usize) -> u8
    requires { p < 2 ^ 62 }
    ensures { result ≡ params_of s.now p }
{
    u8_at(s, params_at(s, p))
}

// The dialogue site of the instruction at p, if it has one: the next field, with tag 4.
pub fn has_site(s: &[u8], p: usize) -> bool
    requires { p < 2 ^ 61 }
    ensures { result ≡ has_site s.now p }
{
    tag_at(s, next_at(s, p)) == 4
}
