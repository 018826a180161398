//! Why a row has no end.

use seuss_base::Memory;
use std::alloc::{AllocError, AllocFailed};

/// Why a row has no end.
#[derive(Clone, Copy, Debug, PartialEq, Eq)]
pub enum Refusal {
    /// The row isn't in the form of a table.
    Form,
    Memory,
}

impl From<AllocError> for Refusal {
    fn from(_refused: AllocError) -> Refusal {
        Refusal::Memory
    }
}

impl From<Memory> for Refusal {
    fn from(_refused: Memory) -> Refusal {
        Refusal::Memory
    }
}

impl<T: Drop> From<AllocFailed<T>> for Refusal {
    fn from(_refused: AllocFailed<T>) -> Refusal {
        Refusal::Memory
    }
}
