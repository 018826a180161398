//! Runs by turns: virtual workers on one thread, each with at most one pass.
#![tactic(auto)]

mod clocks;
mod hand;
pub mod keeping;
pub mod laws;
mod reading;
mod recording;
mod run;
mod turning;

pub use turning::{run_by_turns, worker_of};
