// The fixed parts of fields 1, 2 and 3, read at the place of their tag. Every read is total.
ghost use Rattle.std.specs.Prelude.{◌≡◌, ◌<◌, ◌^◌};
ghost use Rattle.description.specs.Fields.{header_of, chunk_of, instr_of};

use crate::{ChunkHead, Header, Instr};
use le::{u8_at, u16_at, u32_at};

// Field 1.
pub fn header_at(s: &[u8], p: usize) -> Header
    requires { p < 2 ^ 62 }
    ensures { result ≡ header_of s.now p }
{
    Header {
        float: u8_at(s, p + 3),
        entry: u16_at(s, p + 4),
        chunks: u16_at(s, p + 6),
        signatures: u16_at(s, p + 8),
        layout: u8_at(s, p + 10),
        slots: u16_at(s, p + 11),
        owns: u8_at(s, p + 13),
        handle: u8_at(s, p + 18),
    }
}

// Field 2.
pub fn chunk_head_at(s: &[u8], p: usize) -> ChunkHead
    requires { p < 2 ^ 62 }
    ensures { result ≡ chunk_of s.now p }
{
    ChunkHead {
        reachable: u8_at(s, p + 3),
        block: u8_at(s, p + 4),
        locals: u16_at(s, p + 5),
        stack: u16_at(s, p + 7),
        arity: u8_at(s, p + 9),
        tags: u8_at(s, p + 10),
    }
}

// Field 3.
pub fn instr_at(s: &[u8], p: usize) -> Instr
    requires { p < 2 ^ 62 }
    ensures { result ≡ instr_of s.now p }
{
    Instr {
        op: u8_at(s, p + 3),
        taken: u8_at(s, p + 4),
        given: u8_at(s, p + 5),
        a: u32_at(s, p + 6),
        b: u32_at(s, p + 10),
        c: u32_at(s, p + 14),
    }
}
