//! Regions of values.

use crate::Span;

/// Ints of a span, a bool that may be told, sequences whose length is of a span, or any value.
#[derive(Clone, Copy, Debug, PartialEq, Eq)]
pub enum Region {
    Numbers(Span),
    Truth(Option<bool>),
    Lengths(Span),
    Anything,
}
