//! The seats of workers at the threaded engine: each makes steps at boxes that it takes by turns, pushes the passes
//! that it starts into the ready queue, and takes passes from there.
#![tactic(auto)]

mod progress;
mod ready_item;
mod readying;
mod starting;
mod trying;
mod turn_desk;
mod worker_seat;

pub use progress::TryProgress;
pub use ready_item::ReadyItem;
pub use turn_desk::TurnDesk;
pub use worker_seat::{WorkerParts, WorkerSeat, workers_cross};
