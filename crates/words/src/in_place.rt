// What a cell's words say without loading it: its mask, whether it has a flow, whether it is the same as another.
ghost use Rattle.std.specs.Prelude.{◌≡◌, ◌+◌, ◌≤◌, ◌<◌, length};
ghost use Rattle.words.specs.Layout.{cell_at, same_n, flow_at, plain_at};

use crate::cell::CELL_WORDS;
use masks::Mask;

pub fn mask_at(ws: &[u32], at: usize) -> Mask
    requires { at < length ws.now }
    ensures { result ≡ (cell_at ws.now at).mask }
{
    Mask {
        bits: (ws[at] % 65536) as u16,
    }
}

// The cells at a and b are the same words. The last of the sixteen is not the cell's, and nobody may have written it.
pub fn same16(ws: &[u32], a: usize, b: usize) -> bool
    requires a_in_bounds { a + 15 ≤ length ws.now }
    requires b_in_bounds { b + 15 ≤ length ws.now }
    ensures { result ≡ same_n ws.now a b 15 }
{
    let mut same = true;
    for k in 0..CELL_WORDS {
        same = same & (ws[a + k] == ws[b + k]);
    }
    same
}

// Neither origin nor predicate.
pub fn is_plain(ws: &[u32], at: usize) -> bool
    requires { at < length ws.now }
    ensures { result ≡ plain_at ws.now at }
{
    ws[at] < 1048576
}

// A body, owned, an origin or a predicate.
pub fn has_flow(ws: &[u32], at: usize) -> bool
    requires { at + 15 ≤ length ws.now }
    ensures { result ≡ flow_at ws.now at }
{
    (262143 < ws[at])
        | ((ws[at + 2] != 0) | ((ws[at + 5] != 0) | ((ws[at + 8] != 0) | (ws[at + 11] != 0))))
}
