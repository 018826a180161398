//! Tests of runs: every short word of turns beside the plain interpreter, cells by hand, and an engine with two seats.
#![tactic(auto)]

#[cfg(test)]
mod cells;
#[cfg(test)]
mod engines;
#[cfg(test)]
mod turns;
