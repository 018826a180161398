//! Numbers in decimal digits.

ghost use Rattle.std.specs.Prelude.{◌≡◌, ◌++◌, decimal, OnOk};
ghost use Rattle.std.specs.Fmt.{signed_decimal};
ghost use Rattle.seuss_print.specs.Items.{text_of};
ghost use Rattle.seuss_print.specs.Canonical.{signed};

use itoa::Buffer;
use seuss_base::{Memory, Text};

/// Puts a number in decimal digits, with a minus where it is negative, at the end.
pub(crate) fn push_number(text: &mut Text, z: i64) -> Result<(), Memory>
    ensures { OnOk result (text.new ≡ text.old ++ signed_decimal z) }
{
    let mut buffer = Buffer::new();
    text.push_all(buffer.format(z).as_bytes())?;
    Ok(())
}

/// Puts a number of a start value at the end.
pub(crate) fn push_signed(text: &mut Text, z: i64) -> Result<(), Memory>
    ensures { OnOk result (text.new ≡ text.old ++ text_of (signed z)) }
{
    push_number(text, z)
}

/// Puts a depth in decimal digits at the end.
pub(crate) fn push_depth(text: &mut Text, n: u64) -> Result<(), Memory>
    ensures { OnOk result (text.new ≡ text.old ++ decimal n) }
{
    let mut buffer = Buffer::new();
    text.push_all(buffer.format(n).as_bytes())?;
    Ok(())
}
