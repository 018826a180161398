//! Texts of the notation, read as trees.
#![tactic(auto)]

mod declarations;
mod expressions;
mod input;
mod laws;
mod level;
mod lists;
mod natural;
mod procedures;
mod programs;
mod refusal;
mod single_expressions;
mod spelling;
mod statements;
mod stop;
mod symbol;
mod tables;
mod word;
mod words;

pub use input::{InputRefusal, one_input, parse_input};
pub use laws::{one_answer, one_expression};
use level::Level;
pub use natural::Natural;
pub use programs::parse;
pub use refusal::ParseRefusal;
pub use single_expressions::parse_expr;
pub use spelling::text_words;
pub use symbol::Symbol;
pub use word::{Behind, Marked, Numeral, Sort, Word};
