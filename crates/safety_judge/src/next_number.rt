//! Numbers of names, procedures and boxes.

ghost use Rattle.std.specs.Prelude.{◌≡◌, ◌+◌, IfOk};

use seuss_base::Memory;

/// One more. Where 32 bits don't suffice, memory is wanted.
pub(crate) fn next_number(number: u32) -> Result<u32, Memory>
    ensures { IfOk result (λ next. next ≡ number + 1) }
{
    match number.checked_add(1) {
        Some(next) => Ok(next),
        None => Err(Memory),
    }
}
