//! The checks of a tree, and the program that it stands for.
#![tactic(auto)]

mod built_in_texts;
mod call_places;
mod checking;
mod expressions;
mod faults;
pub mod laws;
mod lookups;
mod names;
mod naming;
mod naming_cats;
mod outer_places;
mod places;
mod refusal;
mod registers;
mod resolving;
mod scopes;
mod single_expressions;
mod walk;
mod walk_cats;

pub use refusal::CheckRefusal;
pub use resolving::{Resolved, resolve};
pub use single_expressions::resolve_expr;
