//! Tokens as words of the grammar: symbols, names and numbers.

ghost use Rattle.std.specs.Prelude.{◌≡◌, ◌<◌, ◌≤◌, length, drop, slice_index_or, Some, IfOk};
ghost use Rattle.std.specs.Str.{bytes_eq};
ghost use Rattle.seuss_text.specs.Words.{kind_of};
ghost use Rattle.seuss_text.specs.Rows.{AreTokens};
ghost use Rattle.seuss_text.specs.Limits.{IsInLimit, AreInLimits};
ghost use Rattle.seuss_text.specs.declared.token.Token.{Token as Piece};
ghost use Rattle.seuss_parser.specs.Symbols.{keyword_of, sign_of};
ghost use Rattle.seuss_parser.specs.Words.{sort_of, word_of, words_of};

use crate::{Natural, Sort, Symbol, Word};
use seuss_base::{Memory, Text};
use seuss_text::{TokenKind, Tokens, number_value, token_text};
use std::alloc::Global;
use std::collections::VecDeque;

/// The symbol that a keyword is.
#[tactic(auto, unfolding(crate::specs::Symbols::keyword_of))]
fn keyword_symbol(bytes: &[u8]) -> Symbol
    ensures { result ≡ keyword_of bytes.now }
{
    if is_same(bytes, b"seuss") {
        Symbol::Seuss
    } else if is_same(bytes, b"cat") {
        Symbol::Cat
    } else if is_same(bytes, b"box") {
        Symbol::Box
    } else if is_same(bytes, b"var") {
        Symbol::Var
    } else if is_same(bytes, b"total") {
        Symbol::Total
    } else if is_same(bytes, b"partial") {
        Symbol::Partial
    } else if is_same(bytes, b"action") {
        Symbol::Action
    } else if is_same(bytes, b"is") {
        Symbol::Is
    } else if is_same(bytes, b"when") {
        Symbol::When
    } else if is_same(bytes, b"let") {
        Symbol::Let
    } else if is_same(bytes, b"if") {
        Symbol::If
    } else if is_same(bytes, b"then") {
        Symbol::Then
    } else if is_same(bytes, b"else") {
        Symbol::Else
    } else if is_same(bytes, b"while") {
        Symbol::While
    } else if is_same(bytes, b"do") {
        Symbol::Do
    } else if is_same(bytes, b"end") {
        Symbol::End
    } else if is_same(bytes, b"semi") {
        Symbol::Semi
    } else if is_same(bytes, b"int") {
        Symbol::Int
    } else if is_same(bytes, b"bool") {
        Symbol::Bool
    } else if is_same(bytes, b"seq") {
        Symbol::Seq
    } else if is_same(bytes, b"true") {
        Symbol::True
    } else if is_same(bytes, b"false") {
        Symbol::False
    } else if is_same(bytes, b"and") {
        Symbol::And
    } else if is_same(bytes, b"or") {
        Symbol::Or
    } else if is_same(bytes, b"not") {
        Symbol::Not
    } else if is_same(bytes, b"first") {
        Symbol::First
    } else if is_same(bytes, b"last") {
        Symbol::Last
    } else if is_same(bytes, b"rest") {
        Symbol::Rest
    } else if is_same(bytes, b"front") {
        Symbol::Front
    } else if is_same(bytes, b"back") {
        Symbol::Back
    } else if is_same(bytes, b"len") {
        Symbol::Len
    } else if is_same(bytes, b"at") {
        Symbol::At
    } else if is_same(bytes, b"add") {
        Symbol::Add
    } else {
        Symbol::Other
    }
}

/// The symbol that a sign is.
#[tactic(auto, unfolding(crate::specs::Symbols::sign_of))]
fn sign_symbol(bytes: &[u8]) -> Symbol
    ensures { result ≡ sign_of bytes.now }
{
    if is_same(bytes, b":=") {
        Symbol::Assign
    } else if is_same(bytes, b"->") {
        Symbol::Arrow
    } else if is_same(bytes, b"~>") {
        Symbol::NegativeArrow
    } else if is_same(bytes, b"<>") {
        Symbol::NotEqual
    } else if is_same(bytes, b"<=") {
        Symbol::LessOrEqual
    } else if is_same(bytes, b">=") {
        Symbol::GreaterOrEqual
    } else if is_same(bytes, b"&+") {
        Symbol::WrapPlus
    } else if is_same(bytes, b"&-") {
        Symbol::WrapMinus
    } else if is_same(bytes, b":") {
        Symbol::Colon
    } else if is_same(bytes, b";") {
        Symbol::Semicolon
    } else if is_same(bytes, b",") {
        Symbol::Comma
    } else if is_same(bytes, b".") {
        Symbol::Dot
    } else if is_same(bytes, b"(") {
        Symbol::Open
    } else if is_same(bytes, b")") {
        Symbol::Close
    } else if is_same(bytes, b"[") {
        Symbol::OpenSquare
    } else if is_same(bytes, b"]") {
        Symbol::CloseSquare
    } else if is_same(bytes, b"=") {
        Symbol::Equal
    } else if is_same(bytes, b"<") {
        Symbol::Less
    } else if is_same(bytes, b">") {
        Symbol::Greater
    } else if is_same(bytes, b"+") {
        Symbol::Plus
    } else if is_same(bytes, b"-") {
        Symbol::Minus
    } else if is_same(bytes, b"*") {
        Symbol::Times
    } else if is_same(bytes, b"/") {
        Symbol::Divide
    } else if is_same(bytes, b"%") {
        Symbol::Remainder
    } else {
        Symbol::Other
    }
}

fn is_same(bytes: &[u8], word: &[u8]) -> bool
    ensures { result ≡ bytes_eq bytes.now word.now }
{
    bytes == word
}

/// What a token of this kind is to the grammar.
fn token_sort(alloc: Global, kind: TokenKind, bytes: &[u8]) -> Result<Sort, Memory>
    requires kind { kind_of bytes.now ≡ Some kind }
    requires limit { IsInLimit kind bytes.now }
    ensures { IfOk result (λ sort. sort ≡ sort_of kind bytes.now) }
{
    match kind {
        TokenKind::Name => Ok(Sort::Name(Text::from_slice(alloc, bytes)?)),
        TokenKind::Number => Ok(Sort::Number(Natural::new(number_value(bytes)))),
        TokenKind::Sign => Ok(Sort::Fixed(sign_symbol(bytes))),
        TokenKind::Keyword => Ok(Sort::Fixed(keyword_symbol(bytes))),
    }
}

/// A token of a text as a word, by its number from 0.
fn token_word(alloc: Global, text: &[u8], tokens: &Tokens, at: u64) -> Result<Word, Memory>
    requires tokens { AreTokens text.now tokens.now.list }
    requires limits { AreInLimits text.now tokens.now.list }
    requires at { at < length tokens.now.list }
    ensures { (d : Piece) → IfOk result
        (λ word. word ≡ word_of text.now (slice_index_or tokens.now.list at d)) }
{
    let token = tokens.list.as_slice()[at as usize];
    let sort = token_sort(alloc, token.kind, token_text(text, tokens, at))?;
    Ok(Word {
        line: token.line,
        sort,
    })
}

/// The words of a text, by its tokens from this one on.
pub fn text_words(
    alloc: Global,
    text: &[u8],
    tokens: &Tokens,
    from: u64,
) -> Result<VecDeque<Word>, Memory>
    requires tokens { AreTokens text.now tokens.now.list }
    requires limits { AreInLimits text.now tokens.now.list }
    requires from { from ≤ length tokens.now.list }
    ensures { IfOk result (λ words. words.items ≡ drop from (words_of text.now tokens.now.list)) }
{
    let mut words = VecDeque::new(alloc);
    for at in from..tokens.list.len() {
        words.push_back(token_word(alloc, text, tokens, at)?)?;
    }
    Ok(words)
}
