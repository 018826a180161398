//! Why reading stopped at a word.

ghost use Rattle.std.specs.Prelude.{◌≡◌};
ghost use Rattle.seuss_parser.specs.declared.stop.Stop.TheVariants.{Memory as OutOfMemory};

use seuss_base::Memory;

/// Why reading stopped before its end.
#[derive(Clone, Copy, Debug, PartialEq, Eq)]
pub(crate) enum Stop {
    /// The next word goes on nothing of the grammar, or there is none.
    Unexpected,
    /// The next word passes a limit of marks or nesting.
    TooDeep,
    Memory,
}

impl From<Memory> for Stop {
    ghost from_gives = { λ _ stop. stop ≡ OutOfMemory };

    fn from(_refused: Memory) -> Stop {
        Stop::Memory
    }
}
