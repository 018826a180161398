//! The first lines of a record's text.

ghost use Rattle.std.specs.Prelude.{◌≡◌, ◌<◌, ◌∷◌, ◌++◌, Some, OnOk, length, slice_get};
ghost use Rattle.std.specs.Fmt.{signed_decimal};
ghost use Rattle.std.specs.List.{flat_map};
ghost use Rattle.run_records.specs.RecordTexts.{behind, head_text};

use report_text::{push_number, push_signed};
use seuss_base::{Ints, Memory, Text};

/// Puts a number at the end, behind a space.
pub(crate) fn push_behind(text: &mut Text, n: u64) -> Result<(), Memory>
    ensures { OnOk result (text.new ≡ text.old ++ behind n) }
{
    text.push(b' ')?;
    push_number(text, n)
}

/// Puts a number of an input at the end, behind a space.
fn push_next(text: &mut Text, z: i64) -> Result<(), Memory>
    ensures { OnOk result (text.new ≡ text.old ++ 32 ∷ signed_decimal z) }
{
    text.push(b' ')?;
    push_signed(text, z)
}

/// The number of an input at a place, from 0.
fn number_at(input: &Ints, at: u64) -> i64
    requires { at < length input.now }
    ensures { slice_get input.now at ≡ Some result }
{
    input.get(at).unwrap()
}

/// Puts the numbers of an input at the end, each behind a space.
fn push_input(text: &mut Text, input: &Ints) -> Result<(), Memory>
    ensures { OnOk result (text.new ≡ text.old ++ flat_map (λ z. 32 ∷ signed_decimal z) input.now) }
{
    for at in 0..input.len() {
        push_next(text, number_at(input, at))?;
    }
    Ok(())
}

/// Puts the rounds, the budget and the input at the end.
pub(crate) fn push_head(
    text: &mut Text,
    rounds: u32,
    budget: u64,
    input: &Ints,
) -> Result<(), Memory>
    ensures { OnOk result (text.new ≡ text.old ++ head_text rounds budget input.now) }
{
    text.push_all(b"record")?;
    push_behind(text, u64::from(rounds))?;
    push_behind(text, budget)?;
    text.push_all(b"\ninput")?;
    push_input(text, input)?;
    text.push(b'\n')
}
