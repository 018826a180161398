//! Why a text is no list of properties of a program.
ghost use Rattle.std.specs.Prelude.{◌≡◌};
ghost use Rattle.safety_texts.specs.declared.refusal.PropertyRefusal.TheVariants.{Memory as OutOfMemory};

use seuss_base::Memory;
use thiserror::Error;

/// Why a text is no list of properties of a program. Lines are counted from 1.
#[derive(Clone, Copy, Debug, PartialEq, Eq, Error)]
pub enum PropertyRefusal {
    /// The text has more than 1,048,576 bytes.
    #[error("the text is too long")]
    TooLong,
    /// The text is no list of properties of the program, by the line of its first fault.
    #[error("line {0}: this is no property of the program")]
    Bad(u32),
    #[error("out of memory")]
    Memory,
}

impl From<Memory> for PropertyRefusal {
    ghost from_gives = { λ _ refusal. refusal ≡ OutOfMemory };

    fn from(_refused: Memory) -> PropertyRefusal {
        PropertyRefusal::Memory
    }
}
