// An instruction, read from its field.
ghost use Rattle.std.specs.Prelude.{◌≡◌, ◌+◌, ◌*◌, ◌<◌, ◌≤◌, ◌^◌, length};
ghost use Rattle.description.specs.Fields.{instr_of};
ghost use Rattle.definition.specs.Module.{module_of};
ghost use Rattle.form_laws.specs.Good.{chunk_no};
ghost use Rattle.layout.specs.Indexed.{Indexed, chunk_at};
ghost use Rattle.definition.specs.Leaves.{line_at};

use crate::access::field_of;
use description::{Instr, instr_at};
use layout::Chunk;
use le::u32_inside;

// An instruction's field within the description: one test for all its bytes.
fn instr_in(s: &[u8], p: usize) -> Instr
    requires { p + 18 ≤ length s.now }
    ensures { result ≡ instr_of s.now p }
{
    Instr {
        op: s[p + 3],
        taken: s[p + 4],
        given: s[p + 5],
        a: u32_inside(s, p + 6),
        b: u32_inside(s, p + 10),
        c: u32_inside(s, p + 14),
    }
}

// A field of good form lies within.
fn read_instr(s: &[u8], p: usize) -> Instr
    requires { p < 2 ^ 62 }
    ensures { result ≡ instr_of s.now p }
{
    if p + 17 < s.len() {
        return instr_in(s, p);
    }
    instr_at(s, p)
}

pub fn instr_of(s: &[u8], ws: &[u32], c: usize, ch: Chunk, i: usize) -> Instr
    requires indexed { Indexed s.now ws.now }
    requires c_in_bounds { c < length (module_of s.now).chunks }
    requires ch_value { ch ≡ chunk_at s.now ws.now c }
    requires i_lt_count { i < ch.count }
    ensures { result ≡ (line_at (chunk_no (module_of s.now) c) i).instr }
{
    read_instr(s, field_of(s, ws, c, ch, i))
}
