//! Tests of the engine for several threads by hand, and of runs by workers: a gate holds one attempt back until another one has come to its steps, so that a run whose
//! attempts don't overlap is told; and runs of many workers, whose outcomes are the same in each order.
#![tactic(auto)]

#[cfg(test)]
mod engines;
#[cfg(test)]
mod holding;
#[cfg(test)]
mod loads;
#[cfg(test)]
mod overlaps;
#[cfg(test)]
mod runs;
