//! The bytes of a token, and the value of a number.

ghost use Rattle.std.specs.Prelude.{◌≡◌, ◌<◌, ◌≤◌, length, slice_range, slice_index_or, Some};
ghost use Rattle.seuss_text.specs.Words.{kind_of};
ghost use Rattle.seuss_text.specs.Rows.{AreTokens, token_text};
ghost use Rattle.seuss_text.specs.Limits.{decimal_value, max_number};
ghost use Rattle.seuss_text.specs.declared.token.Token.{Token as Word};
ghost use Rattle.seuss_text.specs.declared.token.TokenKind.TheVariants.{Number};

use crate::limits::MAX_NUMBER;
use crate::{Token, Tokens, digits_value};

/// The text of a token, by its number from 0 among the tokens of the text.
pub fn token_text<'a>(text: &'a [u8], tokens: &Tokens, at: u64) -> &'a [u8]
    requires tokens { AreTokens text.now tokens.now.list }
    requires at { at < length tokens.now.list }
    ensures value { (d : Word) → result.now ≡ token_text text.now (slice_index_or tokens.now.list at d) }
    ensures kind { (d : Word) → kind_of result.now ≡ Some (slice_index_or tokens.now.list at d).kind }
{
    slice_of(text, tokens.list.as_slice()[at as usize])
}

/// The bytes of a token that lies within the text.
fn slice_of(text: &[u8], token: Token) -> &[u8]
    requires rising { token.start ≤ token.stop }
    requires within { token.stop ≤ length text.now }
    ensures { result.now ≡ slice_range text.now token.start token.stop }
{
    &text[token.start as usize..token.stop as usize]
}

/// What a number of the notation stands for.
pub fn number_value(word: &[u8]) -> u64
    requires number { kind_of word.now ≡ Some Number }
    requires limit { decimal_value word.now ≤ max_number }
    ensures { result ≡ decimal_value word.now }
{
    digits_value(word, MAX_NUMBER).unwrap()
}
