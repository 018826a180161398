//! Values, as they are printed.

ghost use Rattle.std.specs.Prelude.{◌≡◌, ◌++◌, ◌∷◌, ◌<◌, length, slice_get, Some, OnOk};
ghost use Rattle.std.specs.Fmt.{signed_decimal};
ghost use Rattle.seuss_program.specs.Reports.{spaced, value_text};

use crate::numbers::push_signed;
use seuss_base::{Ints, Memory, Text};
use seuss_program::Value;

/// The number at a place of a sequence.
fn number_at(numbers: &Ints, at: u64) -> i64
    requires { at < length numbers.now }
    ensures { slice_get numbers.now at ≡ Some result }
{
    numbers.get(at).unwrap()
}

/// Puts a space and a number at the end.
fn push_next(text: &mut Text, z: i64) -> Result<(), Memory>
    ensures { OnOk result (text.new ≡ text.old ++ 32 ∷ signed_decimal z) }
{
    text.push(b' ')?;
    push_signed(text, z)?;
    Ok(())
}

/// Puts the numbers of a sequence at the end, with a space between two.
fn push_spaced(text: &mut Text, numbers: &Ints) -> Result<(), Memory>
    ensures { OnOk result (text.new ≡ text.old ++ spaced numbers.now) }
{
    let Some(first) = numbers.get(0) else {
        return Ok(());
    };
    push_signed(text, first)?;
    for at in 1..numbers.len() {
        push_next(text, number_at(numbers, at))?;
    }
    Ok(())
}

/// Puts a value at the end: a number, a bool, or a sequence in brackets.
pub fn push_value(text: &mut Text, value: &Value) -> Result<(), Memory>
    ensures { OnOk result (text.new ≡ text.old ++ value_text value.now) }
{
    match value {
        Value::Int(z) => push_signed(text, *z),
        Value::Bool(true) => text.push_all(b"true"),
        Value::Bool(false) => text.push_all(b"false"),
        Value::Seq(numbers) => {
            text.push_all(b"[")?;
            push_spaced(text, numbers)?;
            text.push_all(b"]")
        }
    }
}
