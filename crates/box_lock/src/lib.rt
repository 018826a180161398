//! One box with the journal of its steps.
#![tactic(auto)]

mod box_cell;
mod names;
mod recording;

pub use box_cell::{BoxCell, crosses};
pub use names::CellNames;
