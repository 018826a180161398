//! Verdicts on certificates.

use crate::why::Why;
use seuss_base::{Level, List};
use seuss_program::{Value, Vars};

/// The verdict on a certificate.
#[derive(Debug, Drop)]
pub enum Verdict {
    /// It holds at this level and at none above.
    Yes(Level),
    /// From this state, with these arguments of the first and of the second method, the two orders differ,
    /// though the first method isn't plainly rejected.
    No {
        vars: Vars,
        first: List<Value>,
        second: List<Value>,
    },
    /// It isn't told by the cases whether it holds.
    Unclear(Why),
}
