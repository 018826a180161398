//! One word that says who gave up first, in a run of several workers.
#![tactic(auto)]

mod quit;
mod rule;
mod view;

pub use quit::{QuitFirst, QuitSeat, QuitView, QuitWord, crosses};
