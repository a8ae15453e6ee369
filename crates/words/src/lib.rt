// Cells in 16 words of the workspace: stored, loaded, seen in place; and words set to 0.
#![tactic(auto)]

mod cell;
pub mod clearing;
mod in_place;

pub use cell::{copy16, load, put_words, store};
pub use clearing::clear;
pub use in_place::{has_flow, is_plain, mask_at, same16};
