// The rules of a chunk field: the lowest number of a fault, or 0.
ghost use Rattle.std.specs.Prelude.{◌≡◌, ◌<◌, ◌^◌, ltb};
ghost use Rattle.definition.specs.Form.{chunk_fault};

use crate::contents::contents_fine;
use crate::low;
use definition::params_in;
use description::ChunkHead;

// Document 01's largest values of a chunk: L, D, `param_count`, type tags, parameter shapes.
const MOST_LOCALS: u16 = 256;

const MOST_STACK: u16 = 64;

const MOST_ARITY: u8 = 16;

const MOST_TAGS: u8 = 16;

const MOST_PARAMS: u8 = 16;

fn below(locals: u16, params: u8) -> bool
    ensures { result ≡ ltb locals params }
{
    locals < (params as u16)
}

pub fn chunk_fault(s: &[u8], p: usize, due: bool, len: u16, signed: bool, h: ChunkHead) -> u8
    requires { p < 2 ^ 61 }
    ensures { result ≡ chunk_fault s.now p due len signed h }
{
    let params = params_in(s, p, signed);
    let contents = contents_fine(s, p, len, signed, h.tags);
    let over = below(h.locals, params);
    low(
        !due | !contents | (1 < h.reachable) | (2 < h.block),
        (MOST_LOCALS < h.locals)
            | (MOST_STACK < h.stack)
            | (MOST_ARITY < h.arity)
            | (MOST_TAGS < h.tags)
            | (MOST_PARAMS < params),
        over,
        false,
    )
}
