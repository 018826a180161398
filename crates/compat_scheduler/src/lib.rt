//! The machine that decides which attempt starts, which pass is void, and when a round and the run are over.
#![tactic(auto)]

mod counting;
mod finishing;
pub mod laws;
mod scan;
mod sched_core;
mod setting;
mod slot;
mod starting;
mod ticket;

pub use sched_core::SchedCore;
pub use slot::Slot;
pub use ticket::{FinishVerdict, Ticket};

#[cfg(test)]
mod tests;
