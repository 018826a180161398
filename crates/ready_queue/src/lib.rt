//! A queue of items that are ready to run, and what each seat has put into it and taken out of it.
#![tactic(auto)]

mod first_seat;
pub mod laws;
mod ready_queue;
mod ready_seat;
mod rule;
mod view;

pub use first_seat::FirstSeat;
pub use ready_queue::{ReadyQueue, crosses};
pub use ready_seat::ReadySeat;
pub use rule::Queued;
pub use view::{Mark, Row};

#[cfg(test)]
mod tests;
