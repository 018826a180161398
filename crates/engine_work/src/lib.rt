//! The work of workers at the threaded engine: each starts, advances and finishes passes until it is told
//! that the run has ended, and the workers of a run go by threads.
#![tactic(auto)]

mod bench;
mod running;
mod turn;
mod working;

pub use bench::HeldPass;
pub use running::work_all;
pub use working::{WorkerRecord, work};
