//! What a part of an expression is in a case.

use shape_terms::{SeqForm, Symbol};

/// What a part of an expression is in a case.
#[derive(Debug, Drop)]
pub enum Part {
    /// A number in digits.
    Digits(i64),
    /// A number with a minus before it.
    Minus(i64),
    /// The length of this sequence.
    Length(SeqForm),
    Other(Symbol),
}
