//! A pipeline of relays that is made, as a workload: its program and its input.
#![tactic(auto)]

mod input;
mod program;
#[cfg(test)]
mod tests;

pub use input::demo_input;
pub use program::demo_program;
