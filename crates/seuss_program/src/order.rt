//! Outcomes of attempts, orders of attempts, and the last line of a report.

use seuss_base::{List, Outcome, Trap};

/// The outcomes of attempts, in their order.
#[derive(Debug, Drop)]
pub struct Outcomes {
    pub list: List<Outcome>,
}

/// An attempt in a printed order. Attempt `a` of `n` slots is that of slot `a % n` in round `a / n`.
#[derive(Clone, Copy, Debug, PartialEq, Eq)]
pub struct Placed {
    pub attempt: u64,
    pub action: u32,
    pub outcome: Outcome,
}

/// The attempts of a run, in the order in which they are printed.
#[derive(Debug, Drop)]
pub struct Order {
    pub list: List<Placed>,
}

/// What the last line of a report says: the run was done, or the first action that stopped it.
#[derive(Clone, Copy, Debug, PartialEq, Eq)]
pub enum LastLine {
    Done,
    Trapped(u32, Trap),
    Spent(u32),
}
