// Parameter and result shapes, natives and shared kinds, read from the description at places that the index has; and which slots have a
// placement, as marked in the workspace.
ghost use Rattle.std.specs.Prelude.{◌≡◌, ◌+◌, ◌*◌, ◌<◌, ◌≤◌, length, get_or};
ghost use Rattle.definition.specs.Module.{module_of};
ghost use Rattle.definition.specs.Data.{is_body, shared_mask};
ghost use Rattle.form_laws.specs.Good.{Good, chunk_no, no_shape, words_of};
ghost use Rattle.layout.specs.Indexed.{Indexed, tables_of, chunk_place, no_native};

use description::{declared_result, param_at, shape_at};
use layout::{Chunk, Tables, slot_at};
use le::u8_at;
use masks::Mask;
use widths::Shape;

// The parameter shape k of the chunk c.
pub fn param_of(s: &[u8], c: usize, ch: Chunk, k: usize) -> Shape
    requires good { Good s.now (words_of (module_of s.now)) }
    requires c_in_bounds { c < length (module_of s.now).chunks }
    requires at_value { ch.at ≡ (chunk_place s.now c).at }
    requires k_in_bounds { k < length (chunk_no (module_of s.now) c).params }
    ensures { result ≡ get_or (chunk_no (module_of s.now) c).params k no_shape }
{
    param_at(s, ch.at, k)
}

// The shape that the chunk c gives back.
pub fn result_of(s: &[u8], c: usize, ch: Chunk) -> Shape
    requires good { Good s.now (words_of (module_of s.now)) }
    requires c_in_bounds { c < length (module_of s.now).chunks }
    requires at_value { ch.at ≡ (chunk_place s.now c).at }
    ensures { result ≡ (chunk_no (module_of s.now) c).result }
{
    declared_result(s, ch.at)
}

pub fn native_shape(s: &[u8], t: Tables, i: usize) -> Shape
    requires good { Good s.now (words_of (module_of s.now)) }
    requires t_value { t ≡ tables_of s.now }
    requires i_lt_natives { i < t.natives }
    ensures { result ≡ (get_or (module_of s.now).natives i no_native).shape }
{
    shape_at(s, t.natives_at + 11 * i + 3)
}

pub fn snapshot(s: &[u8], t: Tables, i: usize) -> bool
    requires good { Good s.now (words_of (module_of s.now)) }
    requires t_value { t ≡ tables_of s.now }
    requires i_lt_natives { i < t.natives }
    ensures { result ≡ (get_or (module_of s.now).natives i no_native).snapshot }
{
    u8_at(s, t.natives_at + 11 * i + 10) == 1
}

pub fn shared_kind(s: &[u8], t: Tables, slot: usize) -> u8
    requires good { Good s.now (words_of (module_of s.now)) }
    requires t_value { t ≡ tables_of s.now }
    requires slot_lt_shared { slot < t.shared }
    ensures { result ≡ get_or (module_of s.now).shared slot 0 }
{
    u8_at(s, t.shared_at + 4 * slot + 3)
}

// The mask of a shared slot, by its kind.
pub fn shared_mask(kind: u8) -> Mask
    ensures { result ≡ shared_mask kind }
{
    if kind < 8 {
        Mask::scalar(kind)
    } else {
        Mask::body(kind % 128)
    }
}

// Whether a field 7 names the slot. `slot` may be `t.slots`, one past the last: a read of 0 slots may name it (D6 of docs/DECISIONS.md).
pub fn slot_placed(s: &[u8], ws: &[u32], t: Tables, slot: usize) -> bool
    requires indexed { Indexed s.now ws.now }
    requires t_value { t ≡ tables_of s.now }
    requires slot_le_slots { slot ≤ t.slots }
    ensures { result ≡ is_body (module_of s.now) slot }
{
    if slot < t.slots {
        let at = slot_at(t, slot) + 15;
        return 65535 < ws[at];
    }
    t.past_placed
}
