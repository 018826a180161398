//! The programs that texts spell, for tests of the calls that take a program.
#![tactic(auto)]

#[cfg(test)]
mod expressions;
mod loading;

pub use loading::{Fault, program_of};
