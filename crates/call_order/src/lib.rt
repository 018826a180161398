//! The order of boxes: what calls what, which boxes stand in a cycle, and the level of each.
#![tactic(auto)]

mod calls;
mod cycles;
pub mod laws;
mod levelling;
mod levels;
mod ordering;
mod refusal;

pub use ordering::{level_of, order};
pub use refusal::OrderRefusal;
