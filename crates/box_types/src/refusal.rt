//! Why a text is no program.
ghost use Rattle.std.specs.Prelude.{◌≡◌};
ghost use Rattle.box_types.specs.declared.refusal.CheckRefusal.TheVariants.{Memory as OutOfMemory};

use seuss_base::Memory;
use thiserror::Error;

/// Why a text is no program: the first check that fails, by the line of its first place, counted from 1.
#[derive(Clone, Copy, Debug, PartialEq, Eq, Error)]
pub enum CheckRefusal {
    /// A name, a certificate or a hint stands twice where it may stand once.
    #[error("line {0}: this stands twice")]
    Twice(u32),
    /// A name is used and not declared where it is visible.
    #[error("line {0}: this name is not declared")]
    Unknown(u32),
    /// A name is declared as something else than what it is used for.
    #[error("line {0}: this name stands for something else")]
    WrongKind(u32),
    /// An expression, a result or a given box is of another type than wanted.
    #[error("line {0}: this is of another type")]
    WrongType(u32),
    /// A call or a box has another number of arguments than declared.
    #[error("line {0}: another number of arguments is declared")]
    Arguments(u32),
    /// There is one of this sort too many.
    #[error("line {0}: there are too many")]
    Count(u32),
    #[error("out of memory")]
    Memory,
}

impl From<Memory> for CheckRefusal {
    ghost from_gives = { λ _ refusal. refusal ≡ OutOfMemory };

    fn from(_refused: Memory) -> CheckRefusal {
        CheckRefusal::Memory
    }
}
