// Access through the index in the workspace: chunks and rows (`access`), instructions (`fetch`), the description's tables (`entries`). No
// access depends on the description's length.
#![tactic(auto)]

mod access;
mod entries;
mod fetch;

pub use access::{chunk_at, field_of, row_height, set_row, set_suspends};
pub use entries::{
    native_shape, param_of, result_of, shared_kind, shared_mask, slot_placed, snapshot,
};
pub use fetch::instr_of;
