//! Why a text has no order of calls.

ghost use Rattle.std.specs.Prelude.{◌≡◌};
ghost use Rattle.call_order.specs.declared.refusal.OrderRefusal.TheVariants.{Memory as OutOfMemory};

use seuss_base::Memory;
use thiserror::Error;

/// Why a program has no order of calls. Lines are counted from 1.
#[derive(Clone, Copy, Debug, PartialEq, Eq, Error)]
pub enum OrderRefusal {
    /// A body calls a partial method; the line is that of the method's name.
    #[error("line {0}: a body calls a partial method")]
    PartialCall(u32),
    /// A preprocedure is a total method; the line is that of the method's name.
    #[error("line {0}: a preprocedure is a total method")]
    TotalCall(u32),
    /// A box is given to itself, through any number of boxes. The first such box by declaration is
    /// `first`, counted from 0, and it is declared on the line.
    #[error("line {line}: this box is given to itself")]
    Cycle { line: u32, first: u32 },
    #[error("out of memory")]
    Memory,
}

impl From<Memory> for OrderRefusal {
    ghost from_gives = { λ _ refusal. refusal ≡ OutOfMemory };

    fn from(_refused: Memory) -> OrderRefusal {
        OrderRefusal::Memory
    }
}
