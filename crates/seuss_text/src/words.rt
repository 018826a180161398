//! The longest token at the front of a text.

ghost use Rattle.std.specs.Prelude.{◌≡◌, ◌↔◌, IsTrue, Some, MatchOption, if◌then◌else◌};
ghost use Rattle.std.specs.List.{list_any, prefix_len};
ghost use Rattle.std.specs.Char.{is_ascii_digit};
ghost use Rattle.std.specs.Str.{bytes_eq};
ghost use Rattle.seuss_text.specs.Bytes.{is_name_byte};
ghost use Rattle.seuss_text.specs.Words.{signs, keywords, is_among, is_letters, kind_of, BeginsNoToken};
ghost use Rattle.seuss_text.specs.Reading.{IsFrontWord, sign_len};
ghost use Rattle.seuss_text.specs.declared.token.TokenKind.TheVariants.{Name, Keyword};

use crate::TokenKind;
use crate::bytes::is_name_byte;

const SIGNS: [&[u8]; 24] = [
    b":=", b"->", b"~>", b"<>", b"<=", b">=", b"&+", b"&-", b":", b";", b",", b".", b"(", b")",
    b"[", b"]", b"=", b"<", b">", b"+", b"-", b"*", b"/", b"%",
];

const KEYWORDS: [&[u8]; 33] = [
    b"seuss", b"cat", b"box", b"var", b"total", b"partial", b"action", b"is", b"when", b"let",
    b"if", b"then", b"else", b"while", b"do", b"end", b"semi", b"int", b"bool", b"seq", b"true",
    b"false", b"and", b"or", b"not", b"first", b"last", b"rest", b"front", b"back", b"len", b"at",
    b"add",
];

/// The kind and the length of the longest token at the front of a text, or None where none begins there.
pub(crate) fn front_word(text: &[u8]) -> Option<(TokenKind, usize)>
    ensures { MatchOption result (BeginsNoToken text.now) (λ found. IsFrontWord text.now found.0 found.1) }
{
    let first = *text.first()?;
    if first.is_ascii_alphabetic() {
        let len = letters_len(text);
        Some((letters_kind(&text[..len]), len))
    } else if first.is_ascii_digit() {
        Some((TokenKind::Number, digits_len(text)))
    } else {
        let len = sign_len(text)?;
        Some((TokenKind::Sign, len))
    }
}

/// How many bytes at the front are letters, digits and `_`.
fn letters_len(text: &[u8]) -> usize
    ensures { result ≡ prefix_len is_name_byte text.now }
{
    text.iter().take_while(|byte| is_name_byte(**byte)).count()
}

/// How many bytes at the front are digits.
fn digits_len(text: &[u8]) -> usize
    ensures { result ≡ prefix_len is_ascii_digit text.now }
{
    text.iter().take_while(|byte| byte.is_ascii_digit()).count()
}

/// Whether the word stands in the table.
fn is_among(table: &[&[u8]], word: &[u8]) -> bool
    ensures { result ≡ list_any (λ entry. bytes_eq entry.now word.now) table.now }
{
    table.iter().any(|entry| *entry == word)
}

/// Whether the word is a keyword.
fn is_keyword(word: &[u8]) -> bool
    ensures { result ≡ is_among keywords word.now }
{
    is_among(&KEYWORDS, word)
}

/// Whether the word is a sign.
fn is_sign(word: &[u8]) -> bool
    ensures { result ≡ is_among signs word.now }
{
    is_among(&SIGNS, word)
}

/// Whether letters, digits and `_` behind a letter are a keyword or a name.
fn letters_kind(word: &[u8]) -> TokenKind
    ensures { result ≡ (if is_among keywords word.now then Keyword else Name) }
{
    if is_keyword(word) {
        TokenKind::Keyword
    } else {
        TokenKind::Name
    }
}

/// How many bytes the longest sign at the front has.
fn sign_len(text: &[u8]) -> Option<usize>
    ensures { result ≡ sign_len text.now }
{
    if text.len() >= 2 && is_sign(&text[..2]) {
        Some(2)
    } else if !text.is_empty() && is_sign(&text[..1]) {
        Some(1)
    } else {
        None
    }
}

/// Whether a word is a letter, and behind it letters, digits and `_`.
fn is_letters(word: &[u8]) -> bool
    ensures { result ≡ is_letters word.now }
{
    match word.split_first() {
        Some((first, rest)) => first.is_ascii_alphabetic() && letters_len(rest) == rest.len(),
        None => false,
    }
}

/// Whether a whole word is a name, of any length.
pub fn is_name(word: &[u8]) -> bool
    ensures { IsTrue result ↔ (kind_of word.now ≡ Some Name) }
{
    is_letters(word) && !is_keyword(word)
}
