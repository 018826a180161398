//! Why a text is no input.

ghost use Rattle.std.specs.Prelude.{◌≡◌};
ghost use Rattle.seuss_parser.specs.declared.input.refusal.InputRefusal.TheVariants.{Memory as OutOfMemory};

use seuss_base::Memory;
use thiserror::Error;

/// Why a text is no input. Lines are counted from 1.
#[derive(Clone, Copy, Debug, PartialEq, Eq, Error)]
pub enum InputRefusal {
    /// A word on this line, the first such one, is no number from -2^63 to 2^63 - 1.
    #[error("line {0}: this word is no number of 64 bits")]
    Bad(u32),
    /// The text has more than 1,048,576 bytes.
    #[error("the input is too long")]
    TooLong,
    #[error("out of memory")]
    Memory,
}

impl From<Memory> for InputRefusal {
    ghost from_gives = { λ _ refusal. refusal ≡ OutOfMemory };

    fn from(_refused: Memory) -> InputRefusal {
        InputRefusal::Memory
    }
}
