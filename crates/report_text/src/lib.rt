//! What is printed, byte for byte: reports, the counts and the levels of a program, and refusals.
#![tactic(auto)]

mod checked;
mod ends;
pub mod laws;
mod matrix;
mod names;
mod numbers;
mod outcomes;
mod refusals;
mod rounds;
mod tight;
mod values;

pub use checked::check_text;
pub use ends::end_text;
pub use matrix::matrix_text;
pub use names::action_text;
pub use numbers::{push_number, push_signed};
pub use outcomes::push_trap;
pub use refusals::{Refused, refusal_text};
pub use rounds::rounds_text;
pub use tight::{tight_end, tight_text};
