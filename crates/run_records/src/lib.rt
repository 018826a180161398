//! The record of a run as a text, by which others can check it.
#![tactic(auto)]

mod boxes;
mod head;
mod schedule;
mod text;

pub use text::record_text;
