// Refusals 9 and 10: a reachable chunk without code or signature, or one whose parameters don't agree with its type tags.
ghost use Rattle.std.specs.Prelude.{◌≡◌, cond, ◌<◌, length, get_or};
ghost use Rattle.definition.specs.Module.{module_of};
ghost use Rattle.definition.specs.Start.{tag_mask, agree, admission, admitted};
ghost use Rattle.form_laws.specs.Good.{Good, chunk_no, no_shape, words_of};
ghost use Rattle.layout.specs.Indexed.{Indexed, tables_of};
ghost use Rattle.start.specs.admitting.Admitting.{NumbersOf, Least, fits_tag, found};

use answers::{Refusal, refuse};
use description::{chunk_head_at, tags_at};
use index::{chunk_at, param_of};
use layout::{Chunk, Tables};
use le::u8_at;
use masks::Mask;

// The mask of a type tag; a composite may be anything.
fn tag_mask(tag: u8) -> Mask
    ensures { result ≡ tag_mask tag }
{
    match tag {
        1 => Mask::BYTE,
        2 => Mask::WORD,
        3 => Mask::FIXED,
        4 => Mask::FLOAT,
        5 => Mask::BOOL,
        6 => Mask::UNIT,
        7 => Mask::TEXT,
        _ => Mask::UNKNOWN,
    }
}

// A parameter's shape agrees with its type tag.
fn agrees(s: &[u8], c: usize, ch: Chunk, k: usize) -> bool
    requires good { Good s.now (words_of (module_of s.now)) }
    requires c_in_bounds { c < length (module_of s.now).chunks }
    requires numbers_of { NumbersOf s.now c ch }
    requires k_in_bounds { (k < length (chunk_no (module_of s.now) c).tags) × (k < length (chunk_no (module_of s.now) c).params) }
    ensures { result ≡ fits_tag (get_or (chunk_no (module_of s.now) c).tags k 0) (get_or (chunk_no (module_of s.now) c).params k no_shape) }
{
    let tag = u8_at(s, tags_at(ch.at) + k);
    let shape = param_of(s, c, ch, k);
    (tag == 0) | (shape.mask() == tag_mask(tag))
}

fn all_agree(s: &[u8], c: usize, ch: Chunk, n: usize) -> bool
    requires good { Good s.now (words_of (module_of s.now)) }
    requires c_in_bounds { c < length (module_of s.now).chunks }
    requires numbers_of { NumbersOf s.now c ch }
    requires least { Least (length (chunk_no (module_of s.now) c).tags) (length (chunk_no (module_of s.now) c).params) n }
    ensures { result ≡ agree (chunk_no (module_of s.now) c).tags (chunk_no (module_of s.now) c).params }
{
    for k in 0..n {
        if !agrees(s, c, ch, k) {
            return false;
        }
    }
    true
}

fn smaller(a: usize, b: usize) -> usize
    ensures { Least a b result }
{
    if a < b { a } else { b }
}

// 9, 10 or 0 for a reachable chunk.
fn admission(s: &[u8], t: Tables, c: usize, ch: Chunk) -> u8
    requires good { Good s.now (words_of (module_of s.now)) }
    requires t_value { t ≡ tables_of s.now }
    requires c_in_bounds { c < length (module_of s.now).chunks }
    requires numbers_of { NumbersOf s.now c ch }
    ensures { result ≡ admission (module_of s.now) (chunk_no (module_of s.now) c) }
{
    let h = chunk_head_at(s, ch.at);
    if (t.signatures <= c) | ((ch.count == 0) | (ch.params != (h.arity as usize))) {
        return 9;
    }
    if all_agree(s, c, ch, smaller(h.tags as usize, ch.params)) {
        return 0;
    }
    10
}

// 9, 10 or 0 for any chunk.
fn fault(s: &[u8], t: Tables, c: usize, ch: Chunk) -> u8
    requires good { Good s.now (words_of (module_of s.now)) }
    requires t_value { t ≡ tables_of s.now }
    requires c_in_bounds { c < length (module_of s.now).chunks }
    requires numbers_of { NumbersOf s.now c ch }
    ensures { result ≡ cond ch.reachable (admission (module_of s.now) (chunk_no (module_of s.now) c)) 0 }
{
    if ch.reachable {
        return admission(s, t, c, ch);
    }
    0
}

// The refusal for the first chunk that is not admitted, if one is not.
pub fn admitted(s: &[u8], ws: &[u32], t: Tables) -> Result<(), Refusal>
    requires indexed { Indexed s.now ws.now }
    requires t_value { t ≡ tables_of s.now }
    ensures { result ≡ found (admitted (module_of s.now) (module_of s.now).chunks) }
{
    for c in 0..t.chunks {
        let n = fault(s, t, c, chunk_at(s, ws, c));
        if n != 0 {
            return Err(refuse(n, c, 65535, 0));
        }
    }
    Ok(())
}
