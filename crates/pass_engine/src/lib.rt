//! The engine for one thread: seats of workers start, advance and finish passes at its desks, by calls that
//! return, and its record is made at the end.
#![tactic(auto)]

mod gathering;
mod going;
pub mod laws;
mod parts;
mod still;
mod worker;

pub use parts::EngineParts;
pub use still::StillEngine;
pub use worker::WorkerSeat;
