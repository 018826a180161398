//! The line and the tail of an action.

/// Where a procedure stands among those of an action: in its line, or in its tail.
#[derive(Clone, Copy, Debug, PartialEq, Eq)]
pub enum Part {
    Line,
    Tail,
}
