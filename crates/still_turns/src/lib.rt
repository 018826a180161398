//! The record of turns, made by the engine for one thread.
#![tactic(auto)]

mod closing;
mod hand;
mod running;
mod showing;
mod working;

pub use running::run_on_engine;
