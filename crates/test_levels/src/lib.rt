//! Tests of forms, of the cases of certificates and of their verdicts.
#![tactic(auto)]

#[cfg(test)]
mod case_lists;
#[cfg(test)]
mod number_forms;
#[cfg(test)]
mod sequence_forms;
#[cfg(test)]
mod verdicts;
