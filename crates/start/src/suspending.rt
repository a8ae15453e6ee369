// Which chunks suspend: those with a site, which the index has, and those that call one that does.
ghost use Rattle.std.specs.Prelude.{◌≡◌, false, ◌&&◌, ◌<◌, eqb, length, get_or};
ghost use Rattle.definition.specs.Module.{module_of};
ghost use Rattle.definition.specs.Start.{calls_one, suspend_more, suspend_loop};
ghost use Rattle.form_laws.specs.Good.{chunk_no};
ghost use Rattle.layout.specs.Indexed.{Indexed, tables_of, chunk_at};
ghost use Rattle.start.specs.suspending.Suspending.{suspends_in, look_at, NumbersOnly, Looked};
ghost use Rattle.ops.specs.Numbers.{op_call};

use description::Instr;
use index::{chunk_at, instr_of, set_suspends};
use layout::{Chunk, Tables};
use ops::CALL;

// The instruction calls a chunk that suspends.
fn calls(s: &[u8], ws: &[u32], ins: Instr) -> bool
    requires indexed { Indexed s.now ws.now }
    requires a_in_bounds { ins.op ≡ op_call → ins.a < length (module_of s.now).chunks }
    ensures { result ≡ (eqb ins.op op_call && get_or (suspends_in s.now ws.now) ins.a false) }
{
    if ins.op == CALL {
        let callee = chunk_at(s, ws, ins.a as usize);
        return callee.suspends;
    }
    false
}

// A call of a chunk that suspends stands in this one.
fn calls_suspending(s: &[u8], ws: &[u32], c: usize, ch: Chunk) -> bool
    requires indexed { Indexed s.now ws.now }
    requires c_in_bounds { c < length (module_of s.now).chunks }
    requires ch_value { ch ≡ chunk_at s.now ws.now c }
    ensures { result ≡ calls_one (suspends_in s.now ws.now) (chunk_no (module_of s.now) c).code }
{
    for i in 0..ch.count {
        if calls(s, ws, instr_of(s, ws, c, ch, i)) {
            return true;
        }
    }
    false
}

// A look at one chunk: whether it suspends and was not known to.
fn suspend_one(s: &[u8], ws: &mut [u32], c: usize) -> bool
    requires indexed { Indexed s.now ws.old }
    requires c_in_bounds { c < length (module_of s.now).chunks }
    ensures { Looked s.now ws.old ws.new
        (look_at s.now ws.old c)
        result }
{
    let ch = chunk_at(s, ws, c);
    if ch.suspends {
        return false;
    }
    if calls_suspending(s, ws, c, ch) {
        set_suspends(ws, c);
        return true;
    }
    false
}

// One more look at every chunk: whether one more suspends.
fn suspend_more(s: &[u8], ws: &mut [u32], t: Tables) -> bool
    requires indexed { Indexed s.now ws.old }
    requires t_value { t ≡ tables_of s.now }
    ensures { Looked s.now ws.old ws.new
        (suspend_more (module_of s.now).chunks (suspends_in s.now ws.old))
        result }
{
    let mut changed = false;
    for c in 0..t.chunks {
        changed = suspend_one(s, ws, c) | changed;
    }
    changed
}

// As many looks as there are chunks find all; a look that finds none is the last.
pub fn suspend_all(s: &[u8], ws: &mut [u32], t: Tables)
    requires indexed { Indexed s.now ws.old }
    requires t_value { t ≡ tables_of s.now }
    ensures { NumbersOnly s.now ws.old ws.new
        × (suspends_in s.now ws.new
        ≡ suspend_loop (length (module_of s.now).chunks) (module_of s.now).chunks (suspends_in s.now ws.old)) }
{
    for look in 0..t.chunks {
        if !suspend_more(s, ws, t) {
            return;
        }
    }
}
