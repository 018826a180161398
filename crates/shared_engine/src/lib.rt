//! The threaded engine: boxes lie in turns, the scheduler under a lock, started passes in the ready queue, and seats
//! of workers start, advance and finish passes there.
#![tactic(auto)]

mod engine;
mod going;
mod making;
mod open_turn;
mod parts;

pub use engine::{Engine, engine_crosses};
pub use parts::EngineParts;
