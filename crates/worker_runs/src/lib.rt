//! The record of a run by workers, each in a thread of its own, at the engine for several threads.
#![tactic(auto)]

mod running;

pub use running::run_by_workers;
