//! Why a text has no tokens.

ghost use Rattle.std.specs.Prelude.{◌≡◌};
ghost use Rattle.seuss_text.specs.declared.refusal.TextRefusal.TheVariants.{Memory as OutOfMemory};

use seuss_base::Memory;
use thiserror::Error;

/// Why a text has no tokens. Lines are counted from 1.
#[derive(Clone, Copy, Debug, PartialEq, Eq, Error)]
pub enum TextRefusal {
    /// A byte on this line begins no token.
    #[error("line {0}: this byte begins no token")]
    BadByte(u32),
    /// A number on this line is above 9,223,372,036,854,775,807, or a name is longer than 32 bytes.
    #[error("line {0}: this number or name is too long")]
    Range(u32),
    /// The text has more than 1,048,576 bytes.
    #[error("the text is too long")]
    TooLong,
    #[error("out of memory")]
    Memory,
}

impl From<Memory> for TextRefusal {
    ghost from_gives = { λ _ refusal. refusal ≡ OutOfMemory };

    fn from(_refused: Memory) -> TextRefusal {
        TextRefusal::Memory
    }
}
