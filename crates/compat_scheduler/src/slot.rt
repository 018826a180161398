//! What becomes of an attempt of a round.

use seuss_base::Level;

/// What becomes of one attempt of a round, which has a slot of its own.
#[derive(Clone, Copy, Debug, PartialEq, Eq)]
pub enum Slot {
    /// The attempt was kept.
    Ended,
    /// The attempt waits for its start in this mode.
    Pending(Level),
    /// A pass of the attempt runs. Its flag is up while it is firm-safe beside all that it has overlapped.
    Running { pass: u64, mode: Level, clean: bool },
}
