//! Symbolic numbers and sequences, and the cases of a certificate over which it is decided.
#![tactic(auto)]

mod apart;
mod case;
mod choices;
pub mod laws;
mod listing;
mod lists;
mod num_form;
mod refusal;
mod rows;
mod rows_of_symbols;
mod seq_form;
mod shape;
mod symbol;
mod symbols;
mod taking;
mod telling;
mod texts;
mod values;

pub use apart::Apart;
pub use case::Case;
pub use listing::cases;
pub use num_form::NumForm;
pub use refusal::{CaseRefusal, FormRefusal};
pub use seq_form::SeqForm;
pub use shape::Shape;
pub use symbol::Symbol;
