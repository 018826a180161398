//! Why a program has no levels.

ghost use Rattle.std.specs.Prelude.{◌≡◌};
ghost use Rattle.compat_matrix.specs.declared.refusal.MatrixRefusal.TheVariants.{Memory as OutOfMemory};

use commute_certs::Why;
use seuss_base::{List, Memory};
use seuss_program::{Value, Vars};

/// Why there are no levels: the first certificate in the order of the text that doesn't hold.
#[derive(Debug, Drop)]
pub enum MatrixRefusal {
    /// From this state, with these arguments, its two methods don't commute.
    No {
        line: u32,
        vars: Vars,
        first: List<Value>,
        second: List<Value>,
    },
    /// It isn't told whether it holds.
    Unclear {
        line: u32,
        why: Why,
    },
    /// Memory was refused, so nothing is known.
    Memory,
}

impl From<Memory> for MatrixRefusal {
    ghost from_gives = { λ _ refusal. refusal ≡ OutOfMemory };

    fn from(_refused: Memory) -> MatrixRefusal {
        MatrixRefusal::Memory
    }
}
