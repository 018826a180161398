//! Why tokens are no program.

ghost use Rattle.std.specs.Prelude.{◌≡◌};
ghost use Rattle.seuss_parser.specs.declared.refusal.ParseRefusal.TheVariants.{Memory as OutOfMemory};

use seuss_base::Memory;
use thiserror::Error;

/// Why tokens are no program. Lines are counted from 1.
#[derive(Clone, Copy, Debug, PartialEq, Eq, Error)]
pub enum ParseRefusal {
    /// No program continues the tokens before this line's token with it, or the text ends too early.
    #[error("line {0}: no program goes on like this")]
    Syntax(u32),
    /// The token on this line is the 257th mark of an expression, or an `if` or `while` inside 64 others.
    #[error("line {0}: this is nested too deep")]
    Nesting(u32),
    #[error("out of memory")]
    Memory,
}

impl From<Memory> for ParseRefusal {
    ghost from_gives = { λ _ refusal. refusal ≡ OutOfMemory };

    fn from(_refused: Memory) -> ParseRefusal {
        ParseRefusal::Memory
    }
}
