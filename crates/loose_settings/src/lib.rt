//! The levels of a program make a setting of its runs.
#![tactic(auto)]

pub mod laws;
