//! The limits of texts, names and numbers.

ghost use Rattle.std.specs.Prelude.{◌≡◌, ◌≤◌, ◌↔◌, IsTrue};
ghost use Rattle.std.specs.Option.{SomeIff};
ghost use Rattle.std.specs.List.{AllPass};
ghost use Rattle.std.specs.Char.{is_ascii_digit};
ghost use Rattle.seuss_text.specs.Limits.{decimal_value, IsInLimit};
ghost use Rattle.seuss_text.specs.Words.{kind_of};

use crate::TokenKind;

pub(crate) const MAX_TEXT: usize = 1_048_576;

const MAX_NAME: usize = 32;

pub(crate) const MAX_NUMBER: u64 = 9_223_372_036_854_775_807;

/// What decimal digits stand for, or None where it is above the limit.
pub fn digits_value(digits: &[u8], limit: u64) -> Option<u64>
    requires { AllPass is_ascii_digit digits.now }
    ensures { SomeIff result (decimal_value digits.now ≤ limit) (decimal_value digits.now) }
{
    let mut value = 0u64;
    for digit in digits {
        let next = value as u128 * 10 + (*digit - b'0') as u128;
        if next > limit as u128 {
            return None;
        }
        value = next as u64;
    }
    Some(value)
}

/// Whether a word of this kind is within its limit.
pub(crate) fn is_in_limit(kind: TokenKind, word: &[u8]) -> bool
    requires { kind_of word.now ≡ Some kind }
    ensures { IsTrue result ↔ IsInLimit kind word.now }
{
    match kind {
        TokenKind::Name => word.len() <= MAX_NAME,
        TokenKind::Number => digits_value(word, MAX_NUMBER).is_some(),
        TokenKind::Sign | TokenKind::Keyword => true,
    }
}
