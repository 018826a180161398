//! Numbers in decimal digits.

ghost use Rattle.std.specs.Prelude.{◌≡◌, ◌++◌, decimal, OnOk};
ghost use Rattle.std.specs.Fmt.{signed_decimal};

use itoa::Buffer;
use seuss_base::{Memory, Text};

/// Puts a number in decimal digits at the end.
pub fn push_number(text: &mut Text, n: u64) -> Result<(), Memory>
    ensures { OnOk result (text.new ≡ text.old ++ decimal n) }
{
    let mut buffer = Buffer::new();
    text.push_all(buffer.format(n).as_bytes())?;
    Ok(())
}

/// Puts a number in decimal digits, with a minus where it is negative, at the end.
pub fn push_signed(text: &mut Text, z: i64) -> Result<(), Memory>
    ensures { OnOk result (text.new ≡ text.old ++ signed_decimal z) }
{
    let mut buffer = Buffer::new();
    text.push_all(buffer.format(z).as_bytes())?;
    Ok(())
}
