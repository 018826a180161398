//! What a try of a step answers.

/// Whether a pass goes on after a try of a step.
#[derive(Clone, Copy, Debug, PartialEq, Eq)]
pub enum TryProgress {
    /// The step was made, and the pass goes on.
    Stepped,
    /// The step was made, and the pass is over.
    Over,
    /// Another seat has the box, and no step was made.
    Busy,
}
