//! The numbers of an input.

mod number;
mod refusal;

ghost use Rattle.std.specs.Prelude.{◌≡◌, ◌≢◌, ℕ, ℤ, List, ◌≤◌, ◌∷◌, [], length, Result, Err};
ghost use Rattle.seuss_text.specs.Limits.{max_text};
ghost use Rattle.seuss_parser.specs.Inputs.{ReadsInput, words_of, filled};
ghost use Rattle.seuss_parser.specs.InputLines.{Puts};
ghost use Rattle.seuss_parser.specs.declared.input.refusal.InputRefusal.{InputRefusal as Refusal};
ghost use Rattle.seuss_parser.specs.declared.input.refusal.InputRefusal.TheVariants.{Memory as Wanting};

use crate::input::number::number;
pub use refusal::InputRefusal;
use seuss_base::Ints;
use seuss_text::is_white;
use std::alloc::Global;

const MAX_TEXT: usize = 1_048_576;

/// The numbers of an input: words with white space between, each of them decimal digits with a minus in
/// front or without. The first word that is no number of 64 bits is refused, and before it that the text
/// is too long.
pub fn parse_input(alloc: Global, text: &[u8]) -> Result<Ints, InputRefusal>
    ensures { ReadsInput result text.now }
{
    if text.len() > MAX_TEXT {
        return Err(InputRefusal::TooLong);
    }
    read(alloc, text)
}

/// The numbers of an input that isn't too long.
fn read(alloc: Global, text: &[u8]) -> Result<Ints, InputRefusal>
    requires { length text.now ≤ max_text }
    ensures { ReadsInput result text.now }
{
    let mut numbers = Ints::new(alloc);
    let mut line = 0;
    for bytes in text.split(|byte| *byte == b'\n') {
        line += 1;
        push_line(&mut numbers, bytes, line)?;
    }
    Ok(numbers)
}

/// Puts the numbers of a line at the end.
fn push_line(numbers: &mut Ints, bytes: &[u8], line: u32) -> Result<(), InputRefusal>
    ensures { Puts (words_of bytes.now) line numbers.old numbers.new result }
{
    for part in bytes.split(|byte| is_white(*byte)) {
        push_part(numbers, part, line)?;
    }
    Ok(())
}

/// Puts the number that a part of a line stands for at the end. An empty part is no word.
fn push_part(numbers: &mut Ints, part: &[u8], line: u32) -> Result<(), InputRefusal>
    ensures { Puts (filled (part.now ∷ [])) line numbers.old numbers.new result }
{
    if part.is_empty() {
        return Ok(());
    }
    let Some(z) = number(part) else {
        return Err(InputRefusal::Bad(line));
    };
    numbers.push(z)?;
    Ok(())
}

/// A text is read in one way: two answers that aren't want of memory are the same.
pub fn one_input()
    ensures { (text : List ℕ) (a b : Result (List ℤ) Refusal) → ReadsInput a text → ReadsInput b text →
        a ≢ Err Wanting → b ≢ Err Wanting → a ≡ b }
{}
