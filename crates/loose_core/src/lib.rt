//! The order of commits of a loose record, and that it is as good as a tight run.
#![tactic(auto)]

mod key;
pub mod laws;
mod ordering;

pub use ordering::commit_order;

#[cfg(test)]
mod tests;
