//! The variables that a procedure tests, reads and writes, by its compiled code.
#![tactic(auto)]

mod beginnings;
mod finding;
mod instructions;
pub mod laws;
mod mentions;
mod sets;

pub use finding::effects;
pub use sets::Effects;
