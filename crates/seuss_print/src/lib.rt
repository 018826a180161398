//! Trees printed in their one canonical text.
#![tactic(auto)]

mod declarations;
mod expressions;
mod laws;
mod numbers;
mod statements;
mod tree;

pub use laws::{fewest_tokens, lines_dont_show, parentheses_are_needed, parsed_is_printable};
pub use tree::print;
