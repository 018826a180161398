//! Why a certificate is unclear, or a part isn't told.

ghost use Rattle.std.specs.Prelude.{◌≡◌};
ghost use Rattle.commute_certs.specs.declared.why.Untold.TheVariants.{Memory as OutOfMemory};

use seuss_base::Memory;

/// Why a certificate is unclear.
#[derive(Clone, Copy, Debug, PartialEq, Eq)]
pub enum Why {
    /// A method has `+`, `-`, `*`, `/` or `%`, a minus before anything but a number, or takes from a
    /// sequence that may be too short.
    MayTrap,
    /// A method has a preprocedure, a call or a loop.
    NotSingle,
    /// A condition, or a bool, isn't told by the case.
    UndecidedCondition,
    /// A method takes from a sequence what the hints don't show.
    NotShown,
    /// There are more than 4,096 cases.
    TooManyCases,
}

/// Why something can't be told in a case.
#[derive(Clone, Copy, Debug, PartialEq, Eq)]
pub enum Reason {
    /// It may trap.
    MayTrap,
    /// It is a condition, or a bool, that isn't told by the case.
    UndecidedCondition,
    /// A sequence has it, but behind its unknown rest.
    NotShown,
}

/// Why something isn't told.
#[derive(Clone, Copy, Debug, PartialEq, Eq)]
pub enum Untold {
    Reason(Reason),
    /// Memory was refused, so nothing is known.
    Memory,
}

impl From<Memory> for Untold {
    ghost from_gives = { λ _ untold. untold ≡ OutOfMemory };

    fn from(_refused: Memory) -> Untold {
        Untold::Memory
    }
}
