//! The tokens of the notation: names, numbers, signs and keywords, with the gaps between them.
#![tactic(auto)]

mod bytes;
mod gaps;
mod laws;
mod limits;
mod reader;
mod refusal;
mod slices;
mod token;
mod words;

pub use bytes::is_white;
pub use laws::{one_fault, one_reading, tokens_have_kinds, tokens_rise};
pub use limits::digits_value;
pub use reader::tokens;
pub use refusal::TextRefusal;
pub use slices::{number_value, token_text};
pub use token::{Token, TokenKind, Tokens};
pub use words::is_name;

#[cfg(test)]
mod tests;
