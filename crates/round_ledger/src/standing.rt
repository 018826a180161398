//! Whether a run goes on.

/// Whether a run goes on.
#[derive(Clone, Copy, Debug, PartialEq, Eq)]
pub enum Standing {
    /// A pass runs, or one can start.
    Going,
    /// All rounds are done, or the scheduler has stopped and nothing runs.
    Ended,
}
