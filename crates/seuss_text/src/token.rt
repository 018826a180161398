//! Tokens, as places in their text.

use seuss_base::List;

/// What kind of word a token is. A keyword is none of the names.
#[derive(Clone, Copy, Debug, PartialEq, Eq)]
pub enum TokenKind {
    Name,
    Number,
    Sign,
    Keyword,
}

/// A token of a text: the bytes from `start` up to before `stop`. Lines are counted from 1.
#[derive(Clone, Copy, Debug, PartialEq, Eq)]
pub struct Token {
    pub kind: TokenKind,
    pub start: u64,
    pub stop: u64,
    pub line: u32,
}

/// The tokens of a text, in their order.
#[derive(Debug, Drop)]
pub struct Tokens {
    pub list: List<Token>,
}
