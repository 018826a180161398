//! The scheduler with its journal: each start and each finish is one entry.
#![tactic(auto)]

mod sched_cell;
mod standing;

pub use sched_cell::{SchedCell, crosses};
pub use standing::Standing;
