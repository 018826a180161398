//! Why a form gives nothing, and why a certificate has no list of cases.

ghost use Rattle.std.specs.Prelude.{◌≡◌};
ghost use Rattle.shape_terms.specs.declared.refusal.CaseRefusal.TheVariants.{Memory as NoMemory};
ghost use Rattle.shape_terms.specs.declared.refusal.FormRefusal.TheVariants.{Memory as OutOfMemory};

use seuss_base::Memory;
use thiserror::Error;

/// Why a call that takes from a sequence gives nothing.
#[derive(Clone, Copy, Debug, PartialEq, Eq, Error)]
pub enum FormRefusal {
    /// The sequence may be empty, or the index may be out of range: the call may trap.
    #[error("the sequence may be empty")]
    MayBeEmpty,
    /// The sequence has what is asked for, behind the unknown rest.
    #[error("what is asked for isn't shown")]
    NotShown,
    #[error("out of memory")]
    Memory,
}

impl From<Memory> for FormRefusal {
    ghost from_gives = { λ _ refusal. refusal ≡ OutOfMemory };

    fn from(_refused: Memory) -> FormRefusal {
        FormRefusal::Memory
    }
}

/// Why a certificate has no list of cases.
#[derive(Clone, Copy, Debug, PartialEq, Eq, Error)]
pub enum CaseRefusal {
    /// There are more than 4,096, which this product of the numbers of cases of its first variables and
    /// parameters shows.
    #[error("{0} cases are too many")]
    TooMany(u64),
    #[error("out of memory")]
    Memory,
}

impl From<Memory> for CaseRefusal {
    ghost from_gives = { λ _ refusal. refusal ≡ NoMemory };

    fn from(_refused: Memory) -> CaseRefusal {
        CaseRefusal::Memory
    }
}
