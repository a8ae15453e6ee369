// The contents of a chunk field: its tags, its shapes, its length.
ghost use Rattle.std.specs.Prelude.{◌≡◌, ◌&&◌, ◌<◌, ◌≤◌, ◌^◌, eqb};
ghost use Rattle.description.specs.Fields.{tags_at};
ghost use Rattle.definition.specs.Form.{tags_fine, shapes_fine, chunk_len, signature_fine};

use crate::shape_fine;
use description::{params_at, params_of, shape_at, tags_at};
use le::u8_at;

// The type tags from here on, so many of them, are places of TypeTag.
fn tags_fine(s: &[u8], from: usize, count: usize) -> bool
    requires { (from < 2 ^ 62) × (count ≤ 256) }
    ensures { result ≡ tags_fine s.now from count }
{
    let mut fine = true;
    for k in 0..count {
        fine = fine & (u8_at(s, from + k) < 8);
    }
    fine
}

// The shapes from here on, so many of them, are shapes.
fn shapes_fine(s: &[u8], from: usize, count: usize) -> bool
    requires { (from < 2 ^ 62) × (count ≤ 256) }
    ensures { result ≡ shapes_fine s.now from count }
{
    let mut fine = true;
    for k in 0..count {
        fine = fine & shape_fine(shape_at(s, from + 7 * k));
    }
    fine
}

// The length of the chunk field at p, from its counts.
fn chunk_len(s: &[u8], p: usize, signed: bool, tags: u8) -> usize
    requires { p < 2 ^ 61 }
    ensures { result ≡ chunk_len s.now p signed tags }
{
    if signed {
        return 16 + usize::from(tags) + 7 * usize::from(params_of(s, p));
    }
    8 + usize::from(tags)
}

fn signature_fine(s: &[u8], p: usize, signed: bool) -> bool
    requires { p < 2 ^ 61 }
    ensures { result ≡ signature_fine s.now p signed }
{
    if signed {
        return shapes_fine(s, params_at(s, p) + 1, usize::from(params_of(s, p)) + 1);
    }
    true
}

fn same_length(a: usize, len: u16) -> bool
    ensures { result ≡ eqb a len }
{
    a == (len as usize)
}

// The length of the chunk field at p, its type tags and its shapes are right.
pub fn contents_fine(s: &[u8], p: usize, len: u16, signed: bool, tags: u8) -> bool
    requires { p < 2 ^ 61 }
    ensures { result ≡ (eqb (chunk_len s.now p signed tags) len
        && tags_fine s.now (tags_at p) tags
        && signature_fine s.now p signed) }
{
    let whole = same_length(chunk_len(s, p, signed, tags), len);
    let tagged = tags_fine(s, tags_at(p), usize::from(tags));
    let shaped = signature_fine(s, p, signed);
    whole & tagged & shaped
}
