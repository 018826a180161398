//! The record of an engine that has ended: its journals are closed with all its seats, and what they say together
//! is a loose record.
#![tactic(auto)]

mod closing;
mod gathering;
pub mod laws;
mod listing;
mod parting;
mod settling;

pub use gathering::gather;
