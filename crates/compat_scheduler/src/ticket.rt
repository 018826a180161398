//! The ticket of a pass, and the verdict on it.

use seuss_base::Level;

/// One pass of an attempt: its number in order of the starts, the number of the attempt, the action
/// that is attempted, and the mode.
#[derive(Clone, Copy, Debug, PartialEq, Eq)]
pub struct Ticket {
    pub pass: u64,
    pub attempt: u64,
    pub action: u32,
    pub mode: Level,
}

/// What becomes of a pass that is over.
#[derive(Clone, Copy, Debug, PartialEq, Eq)]
pub enum FinishVerdict {
    /// Its attempt has ended.
    Kept,
    /// It was plainly rejected beside a pass beside which it isn't firm-safe, and its attempt is tried
    /// again in mode firm.
    Void,
}
