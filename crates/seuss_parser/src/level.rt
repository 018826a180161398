//! The levels of operators.

/// How strongly an operator of two parts binds, the weakest first.
#[derive(Clone, Copy, Debug, PartialEq, Eq)]
pub(crate) enum Level {
    Or,
    And,
    Comparison,
    Sum,
    Product,
}
