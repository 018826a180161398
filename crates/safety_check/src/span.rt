//! Spans of numbers.

/// The numbers from a least one on, up to a greatest one where there is one.
#[derive(Clone, Copy, Debug, PartialEq, Eq)]
pub struct Span {
    pub least: i128,
    pub most: Option<i128>,
}
