// The local that a visit sets, and what is forgotten with it.
ghost use Rattle.std.specs.Prelude.{◌≡◌, cond, ◌%◌, ◌^◌, ◌<◌, length, get_or, None};
ghost use Rattle.std.proofs.Math.Option.{none};
ghost use Rattle.cells.specs.Cell.{made, invalidated_cell};
ghost use Rattle.description.specs.Fields.{reply_of};
ghost use Rattle.ops.specs.declared.Acts.TheVariants.{Calls};
ghost use Rattle.definition.specs.Module.{module_of};
ghost use Rattle.definition.specs.Outputs.{no_cell, with_origin, reply_shape, sets, setting};
ghost use Rattle.definition.specs.Leaves.{always};
ghost use Rattle.layout.specs.Indexed.{chunk_at};
ghost use Rattle.visit.specs.Held.{Looking, visit_in};
ghost use Rattle.row_join.specs.places.Arrive.{no_local};
ghost use Rattle.row_join.specs.joining.Met.{SetAs};

use crate::reply_cell;
use cells::Cell;
use index::chunk_at;
use layout::{Chunk, NO_LOCAL, local_at};
use masks::Mask;
use new_values::with_origin;
use ops::Acts;
use row_join::SetLocal;
use visit::{RowVisit, operand};
use words::load;

fn set_none() -> SetLocal
    ensures { result.local ≡ no_local }
{
    SetLocal {
        local: NO_LOCAL,
        cell: Cell::unit(),
    }
}

// `SetLocal`: what names the local is forgotten, in the value too.
fn set_by_value(v: RowVisit, value: Cell) -> SetLocal
    ensures { (result.local ≡ v.ins.a % 65536) × (result.cell ≡ with_origin (invalidated_cell value (v.ins.a % 65536)) None) }
{
    let ins = v.ins;
    let local = (ins.a % 65536) as u16;
    let c = value.invalidate(local);
    SetLocal {
        local,
        cell: with_origin(c, None),
    }
}

// The first local, or a cell of no kind where the chunk has none.
fn first_local(s: &[u8], ws: &[u32], ch: Chunk, v: RowVisit) -> Cell
    requires looking { Looking s.now ws.now v }
    requires ch_value { ch ≡ chunk_at s.now ws.now v.chunk }
    ensures { result ≡ get_or (visit_in s.now ws.now v).locals 0 no_cell }
{
    if 0 < ch.locals {
        return load(ws, local_at(ch, v.row, 0));
    }
    Cell::made(Mask::NONE, 0)
}

// A call of a chunk that suspends, in a streaming entry: its first local may be any reply.
fn set_by_call(s: &[u8], ws: &[u32], ch: Chunk, v: RowVisit) -> SetLocal
    requires looking { Looking s.now ws.now v }
    requires ch_value { ch ≡ chunk_at s.now ws.now v.chunk }
    requires a_in_bounds { v.ins.a < length (module_of s.now).chunks }
    ensures { SetAs (setting (visit_in s.now ws.now v) Calls) result }
{
    let ins = v.ins;
    let callee = chunk_at(s, ws, ins.a as usize);
    if ch.streams & callee.suspends {
        let c = first_local(s, ws, ch, v);
        return SetLocal {
            local: 0,
            cell: c.invalidate(0).with(load(ws, 0)),
        };
    }
    set_none()
}

fn set_by_yield(s: &[u8], ch: Chunk, v: RowVisit) -> SetLocal
    requires { v.field < 2 ^ 61 }
    ensures { SetAs (cond ch.streams (sets 0 (reply_shape (reply_of s.now v.field))) none) result }
{
    if ch.streams {
        return SetLocal {
            local: 0,
            cell: reply_cell(s, v),
        };
    }
    set_none()
}

// The local that the visit sets. At a `Yield` of a streaming entry the first local is the reply.
pub fn set_local(s: &[u8], ws: &[u32], ch: Chunk, v: RowVisit) -> SetLocal
    requires looking { Looking s.now ws.now v }
    requires ch_value { ch ≡ chunk_at s.now ws.now v.chunk }
    requires v_value { always (visit_in s.now ws.now v) ≡ 0 }
    ensures { SetAs (setting (visit_in s.now ws.now v) v.rule.acts) result }
{
    let rule = v.rule;
    let acts = rule.acts;
    match acts {
        Acts::SetsLocal => set_by_value(v, operand(ws, v, 0)),
        Acts::Yields => set_by_yield(s, ch, v),
        Acts::Calls => set_by_call(s, ws, ch, v),
        Acts::Still => set_none(),
        Acts::Returns => set_none(),
        Acts::Resets => set_none(),
        Acts::Stores => set_none(),
    }
}
