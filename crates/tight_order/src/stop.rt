//! Why an attempt stops before its end.

ghost use Rattle.std.specs.Prelude.{◌≡◌};
ghost use Rattle.tight_order.specs.declared.stop.Stop.TheVariants.{Memory as OutOfMemory};

use seuss_base::{Memory, Trap};

/// Why an attempt stops before its end.
#[derive(Clone, Copy, Debug, PartialEq, Eq)]
pub enum Stop {
    Trapped(Trap),
    /// The budget was used up.
    Spent,
    /// Memory was refused, so the attempt has no outcome.
    Memory,
}

impl From<Memory> for Stop {
    ghost from_gives = { λ _ stop. stop ≡ OutOfMemory };

    fn from(_refused: Memory) -> Stop {
        Stop::Memory
    }
}
