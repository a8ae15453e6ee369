// The mark over the words of a workspace: all of them, the mark's own word included, sum to THE_MARK modulo 2^32.
#![tactic(auto)]

ghost use Rattle.std.specs.Prelude.{◌≡◌, ◌%◌, ◌<◌, length};
ghost use Rattle.mark.specs.Marks.{word_range, sum, marked, with_mark};

use std::num::{wrapping_add_u32, wrapping_sub_u32};

const THE_MARK: u32 = 1346458195;

// Modulo 2^32, by a sum that wraps: of a u64 with a remainder LLVM makes no vector loop, and there may be hundreds of millions of words.
fn sum_of(ws: &[u32]) -> u32
    ensures { result ≡ sum ws.now % word_range }
{
    let mut total: u32 = 0;
    for word in ws {
        total = wrapping_add_u32(total, *word);
    }
    total
}

// Every word counts, also those that nothing else uses.
pub fn is_marked(ws: &[u32]) -> bool
    ensures { result ≡ marked ws.now }
{
    sum_of(ws) == THE_MARK
}

// Puts the word at `at` that makes the words marked, whatever stood there; no other word changes.
pub fn put_mark(ws: &mut [u32], at: usize)
    requires { at < length ws.old }
    ensures { ws.new ≡ with_mark ws.old at }
{
    ws[at] = 0;
    let others = sum_of(ws);
    ws[at] = wrapping_sub_u32(THE_MARK, others);
}
