// Whether no recorded row has a fault, so that the report can be measured and written.
ghost use Rattle.std.specs.Prelude.{◌≡◌, ◌<◌, length};
ghost use Rattle.definition.specs.Module.{module_of};
ghost use Rattle.layout.specs.Indexed.{tables_of};
ghost use Rattle.run_state.specs.Course.{Ended};
ghost use Rattle.report_size.specs.Reporting.{Faultless};
ghost use Rattle.report_size.specs.Here.{Here};
ghost use Rattle.resumable.specs.Decides.{Decides};
ghost use Rattle.resumable.specs.faultless.Fine.{FineAt, FineIn};

use checks::always_fault;
use index::chunk_at;
use layout::{Chunk, Tables, row_at};
use report_size::{is_recorded, recorded_count};
use visit::visit_at;

// The visit of an instruction, if it is recorded, is refused in no mode.
fn is_fine(s: &[u8], ws: &[u32], t: Tables, c: usize, ch: Chunk, i: usize) -> bool
    requires ended { Ended s.now ws.now }
    requires t_value { t ≡ tables_of s.now }
    requires here { Here s.now ws.now c ch i }
    ensures { Decides result (FineAt s.now ws.now c i) }
{
    if !is_recorded(ws, row_at(ch, i)) {
        return true;
    }
    always_fault(s, ws, t, visit_at(s, ws, c, ch, i)) == 0
}

fn chunk_fine(s: &[u8], ws: &[u32], t: Tables, c: usize) -> bool
    requires ended { Ended s.now ws.now }
    requires t_value { t ≡ tables_of s.now }
    requires c_in_bounds { c < length (module_of s.now).chunks }
    ensures { Decides result (FineIn s.now ws.now c) }
{
    let ch = chunk_at(s, ws, c);
    let count = recorded_count(ch);
    for i in 0..count {
        if !is_fine(s, ws, t, c, ch, i) {
            return false;
        }
    }
    true
}

// No recorded row has a fault.
pub fn is_faultless(s: &[u8], ws: &[u32], t: Tables) -> bool
    requires ended { Ended s.now ws.now }
    requires t_value { t ≡ tables_of s.now }
    ensures { Decides result (Faultless s.now ws.now) }
{
    for c in 0..t.chunks {
        if !chunk_fine(s, ws, t, c) {
            return false;
        }
    }
    true
}
