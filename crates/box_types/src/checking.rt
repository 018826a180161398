//! The checks, and why one of them stops.
ghost use Rattle.std.specs.Prelude.{◌≡◌};
ghost use Rattle.box_types.specs.declared.checking.Stop.TheVariants.{Memory as OutOfMemory};

use seuss_base::Memory;

/// The checks of a tree, in their order.
#[derive(Clone, Copy, Debug, PartialEq, Eq)]
pub enum Check {
    Twice,
    Unknown,
    WrongKind,
    WrongType,
    Arguments,
    Count,
}

/// Why a check stops: at a place that fails, by its line, or for want of memory.
#[derive(Clone, Copy, Debug, PartialEq, Eq)]
pub enum Stop {
    Line(u32),
    Memory,
}

impl From<Memory> for Stop {
    ghost from_gives = { λ _ stop. stop ≡ OutOfMemory };

    fn from(_refused: Memory) -> Stop {
        Stop::Memory
    }
}
