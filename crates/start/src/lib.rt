// Before the rounds: refusals 9 and 10 (`admitting`), 11 and 12, the declared inputs and results, the reply, which chunks suspend
// (`suspending`).
#![tactic(auto)]

mod admitting;
mod suspending;

ghost use Rattle.std.specs.Prelude.{◌≡◌, ◌&&◌, ◌+◌, ◌<◌, ◌^◌, ltb, length};
ghost use Rattle.std.proofs.Math.Option.{none};
ghost use Rattle.definition.specs.Module.{module_of, site_of};
ghost use Rattle.definition.specs.Start.{admitted, declared_params, first_facts, site_reply, reply_in, first_reply, reply_cell};
ghost use Rattle.form_laws.specs.Good.{chunk_no, words_of};
ghost use Rattle.layout.specs.Indexed.{Indexed, Fresh, tables_of, chunk_at};
ghost use Rattle.start.specs.Starting.{SitesSuspend, StartedAs, RebuiltAs};
ghost use Rattle.start.specs.Inputs.{InputsIn, ChunkIn, ChunksDeclared};
ghost use Rattle.start.specs.Settled.{ended};

use admitting::admitted;
use answers::{Refusal, nowhere};
use cells::Cell;
use description::{has_site, site_reply};
use index::{chunk_at, field_of, param_of, result_of};
use layout::{Chunk, Tables, input_at, result_at};
use suspending::suspend_all;
use words::store;

// ---- the declared facts
fn declare_inputs(s: &[u8], ws: &mut [u32], c: usize, ch: Chunk, owns: bool)
    requires indexed { Indexed s.now ws.old }
    requires c_in_bounds { c < length (module_of s.now).chunks }
    requires ch_value { ch ≡ chunk_at s.now ws.old c }
    requires owns_value { owns ≡ (module_of s.now).owns }
    ensures { InputsIn s.now ws.old ws.new c (length (chunk_no (module_of s.now) c).params) }
{
    for k in 0..ch.params {
        let shape = param_of(s, c, ch, k);
        store(ws, input_at(ch, k), Cell::declared(shape, owns));
    }
}

// The declared inputs and result of one chunk.
fn declare_chunk(s: &[u8], ws: &mut [u32], c: usize, ch: Chunk, owns: bool)
    requires indexed { Indexed s.now ws.old }
    requires c_in_bounds { c < length (module_of s.now).chunks }
    requires ch_value { ch ≡ chunk_at s.now ws.old c }
    requires owns_value { owns ≡ (module_of s.now).owns }
    ensures { ChunkIn s.now ws.old ws.new c }
{
    declare_inputs(s, ws, c, ch, owns);
    let shape = result_of(s, c, ch);
    store(ws, result_at(ch), Cell::declared(shape, owns));
}

fn declare(s: &[u8], ws: &mut [u32], t: Tables)
    requires indexed { Indexed s.now ws.old }
    requires t_value { t ≡ tables_of s.now }
    ensures { ChunksDeclared s.now ws.old ws.new (module_of s.now).signatures }
{
    for c in 0..t.signatures {
        let ch = chunk_at(s, ws, c);
        declare_chunk(s, ws, c, ch, t.owns);
    }
}

// ---- the reply
// The entry's first parameter, or Unit.
fn first_reply(s: &[u8], ws: &[u32], t: Tables) -> Cell
    requires indexed { Indexed s.now ws.now }
    requires t_value { t ≡ tables_of s.now }
    ensures { result ≡ first_reply (declared_params (module_of s.now) (chunk_no (module_of s.now) (module_of s.now).entry)) }
{
    let ch = chunk_at(s, ws, t.entry);
    if 0 < ch.params {
        return Cell::declared(param_of(s, t.entry, ch, 0), t.owns);
    }
    Cell::unit()
}

// With the reply of the site that follows this instruction, if one does.
fn with_site(s: &[u8], field: usize, owns: bool, so: Cell) -> Cell
    requires field_bound { field < 2 ^ 61 }
    requires owns_value { owns ≡ (module_of s.now).owns }
    ensures { result ≡ site_reply (module_of s.now) so (site_of s.now field) }
{
    if has_site(s, field) {
        return so.with(Cell::declared(site_reply(s, field), owns));
    }
    so
}

// With the replies of a chunk's sites.
fn with_chunk(s: &[u8], ws: &[u32], c: usize, ch: Chunk, owns: bool, so: Cell) -> Cell
    requires indexed { Indexed s.now ws.now }
    requires c_in_bounds { c < length (module_of s.now).chunks }
    requires ch_value { ch ≡ chunk_at s.now ws.now c }
    requires owns_value { owns ≡ (module_of s.now).owns }
    ensures { result ≡ reply_in (module_of s.now) so (chunk_no (module_of s.now) c).code }
{
    let mut reply = so;
    for i in 0..ch.count {
        reply = with_site(s, field_of(s, ws, c, ch, i), owns, reply);
    }
    reply
}

// The entry's first parameter or Unit, joined with the reply of every site.
fn reply_of(s: &[u8], ws: &[u32], t: Tables) -> Cell
    requires indexed { Indexed s.now ws.now }
    requires t_value { t ≡ tables_of s.now }
    ensures { result ≡ reply_cell (module_of s.now) (first_facts (module_of s.now)) }
{
    let mut reply = first_reply(s, ws, t);
    for c in 0..t.chunks {
        reply = with_chunk(s, ws, c, chunk_at(s, ws, c), t.owns, reply);
    }
    reply
}

// ---- all of it
// The largest body of a reply, or the refusal: 11 for a reply without bound, 12 for an initializer past the slots.
fn bounded(t: Tables, size: Option<u32>) -> Result<u32, Refusal>
    requires { t.shared + t.inits < 2 ^ 32 }
    ensures { result ≡ ended (ltb 0 t.inits && ltb t.slots (t.shared + t.inits)) size }
{
    match size {
        None => Err(nowhere(11, 0)),
        Some(n) => if (0 < t.inits) & (t.slots < t.shared + t.inits) {
            Err(nowhere(12, 0))
        } else {
            Ok(n)
        },
    }
}

// What a run knows from its start on, worked out from the description: the reply, and which chunks suspend. The facts of a run stay.
fn rebuild(s: &[u8], ws: &mut [u32], t: Tables) -> Result<u32, Refusal>
    requires indexed { Indexed s.now ws.old }
    requires sites_suspend { SitesSuspend s.now ws.old }
    requires s_in_bounds { words_of (module_of s.now) < length ws.old }
    requires t_value { t ≡ tables_of s.now }
    requires s_value { admitted (module_of s.now) (module_of s.now).chunks ≡ none }
    ensures { RebuiltAs s.now ws.old ws.new result }
{
    let reply = reply_of(s, ws, t);
    store(ws, 0, reply);
    suspend_all(s, ws, t);
    let f = reply.flow;
    bounded(t, f.maximum())
}

fn prepare(s: &[u8], ws: &mut [u32], t: Tables) -> Result<u32, Refusal>
    requires indexed { Indexed s.now ws.old }
    requires fresh { Fresh s.now ws.old }
    requires s_in_bounds { words_of (module_of s.now) < length ws.old }
    requires t_value { t ≡ tables_of s.now }
    requires s_value { admitted (module_of s.now) (module_of s.now).chunks ≡ none }
    ensures { StartedAs s.now ws.old ws.new result }
{
    declare(s, ws, t);
    rebuild(s, ws, t)
}

// The facts before the first round, or why there is none; the largest body of a reply.
#[tactic(auto, using(crate::proofs::Refusing::start_refused, crate::proofs::Refusing::all_admitted))]
pub fn start(s: &[u8], ws: &mut [u32], t: Tables) -> Result<u32, Refusal>
    requires indexed { Indexed s.now ws.old }
    requires fresh { Fresh s.now ws.old }
    requires s_in_bounds { words_of (module_of s.now) < length ws.old }
    requires t_value { t ≡ tables_of s.now }
    ensures { StartedAs s.now ws.old ws.new result }
{
    admitted(s, ws, t)?; // before anything is written
    prepare(s, ws, t)
}

// What a run that is taken up again knows, or why there can be none: 9 to 12. Its facts stay as they are; the largest body of a reply.
#[tactic(auto, using(crate::proofs::Refusing::restart_refused, crate::proofs::Refusing::all_admitted))]
pub fn restart(s: &[u8], ws: &mut [u32], t: Tables) -> Result<u32, Refusal>
    requires indexed { Indexed s.now ws.old }
    requires sites_suspend { SitesSuspend s.now ws.old }
    requires s_in_bounds { words_of (module_of s.now) < length ws.old }
    requires t_value { t ≡ tables_of s.now }
    ensures { RebuiltAs s.now ws.old ws.new result }
{
    admitted(s, ws, t)?; // what a run has stored doesn't show it
    rebuild(s, ws, t)
}
