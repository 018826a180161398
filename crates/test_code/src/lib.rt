//! Tests of compiled code and of what is said of it: steps by hand, whole passes beside the interpreter, effects,
//! and what checked programs tell.
#![tactic(auto)]

#[cfg(test)]
mod chains;
#[cfg(test)]
mod checked_programs;
#[cfg(test)]
mod effects;
#[cfg(test)]
mod steps;
