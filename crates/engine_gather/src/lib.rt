//! The record of the threaded engine, whose run has ended: all seats come back, the turns are closed, the
//! rows of the ready queue are joined, and the journals are closed.
#![tactic(auto)]

mod gathering;
pub mod laws;
mod seats_apart;
mod seeing;
mod settling;
mod turn_column;

pub use gathering::gather;
