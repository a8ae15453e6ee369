// What a visit is refused for: in the rounds and in validation alike, and what validation asks of it besides.
#![tactic(auto)]

pub mod asked;
mod refusals;
mod validation;

pub use asked::{Places, check_place, places_asked, want_at};
pub use refusals::always_fault;
pub use validation::proven;
