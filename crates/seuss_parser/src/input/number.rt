//! The number that a word of an input stands for.

ghost use Rattle.std.specs.Prelude.{◌≡◌, ◌≤◌, ℤ, IsTrue, MatchOption};
ghost use Rattle.std.specs.Option.{SomeIff};
ghost use Rattle.std.specs.List.{list_all};
ghost use Rattle.std.specs.Char.{is_ascii_digit};
ghost use Rattle.seuss_text.specs.Limits.{decimal_value};
ghost use Rattle.seuss_text.specs.Words.{is_digits};
ghost use Rattle.seuss_parser.specs.Inputs.{IsNumber, IsNoNumber};

use seuss_text::digits_value;

/// How far numbers go to each side: the least one is -2^63, the greatest one 2^63 - 1.
const LEAST: u64 = 9_223_372_036_854_775_808;

const GREATEST: u64 = 9_223_372_036_854_775_807;

/// Whether each of these bytes is a decimal digit.
fn are_digits(bytes: &[u8]) -> bool
    ensures { result ≡ list_all is_ascii_digit bytes.now }
{
    bytes.iter().all(|byte| byte.is_ascii_digit())
}

/// What decimal digits stand for, where it is no more than a limit.
fn value_within(digits: &[u8], limit: u64) -> Option<u64>
    ensures { SomeIff result (IsTrue (is_digits digits.now) × (decimal_value digits.now ≤ limit))
        (decimal_value digits.now) }
{
    if !digits.is_empty() && are_digits(digits) {
        digits_value(digits, limit)
    } else {
        None
    }
}

/// The number that a word stands for: decimal digits, with a minus in front or without.
pub(crate) fn number(word: &[u8]) -> Option<i64>
    ensures { MatchOption result (IsNoNumber word.now) (λ z. IsNumber word.now z) }
{
    if let [b'-', digits @ ..] = word {
        let size = value_within(digits, LEAST)?;
        Some((-i128::from(size)) as i64)
    } else {
        let value = value_within(word, GREATEST)?;
        Some(value as i64)
    }
}
