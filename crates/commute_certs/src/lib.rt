//! Certificates of semicommutation, decided over the cases of their methods.
#![tactic(auto)]

mod body;
mod comparing;
mod deciding;
mod foreseeing;
mod foreseen;
pub mod laws;
mod orders;
mod part;
mod parts;
mod places;
mod singles;
mod term;
mod verdict;
mod why;

pub use deciding::decide;
pub use foreseeing::foresee;
pub use foreseen::{Ending, Foreseen};
pub use term::tell;
pub use verdict::Verdict;
pub use why::{Reason, Untold, Why};
