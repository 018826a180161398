//! A value that one seat at a time can take: a word that says whether it is taken, and a slot where it lies.
#![tactic(auto)]

mod kept;
mod rule;
mod seat;
mod turn;
mod view;

pub use kept::Kept;
pub use rule::Terms;
pub use seat::TurnSeat;
pub use turn::{BoxTurn, crosses};

#[cfg(test)]
mod tests;
