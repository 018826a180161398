//! Append-only journals that one owner writes, with notes of what was seen and shares of what was written.
#![tactic(auto)]

mod closed;
mod desk;
mod histories;
mod journal;
mod note;
mod receipt;
mod refusal;
mod rule;
mod share;
mod view;

pub use closed::Closed;
pub use histories::{Records, beginning_is_legal, longer_is_legal};
pub use journal::Journal;
pub use note::Note;
pub use receipt::Receipt;
pub use refusal::CellRefusal;
pub use share::Share;

#[cfg(test)]
mod tests;
