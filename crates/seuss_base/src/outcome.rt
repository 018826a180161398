//! How evaluations, attempts and passes end.

/// Why an evaluation stopped without a value.
#[derive(Clone, Copy, Debug, PartialEq, Eq)]
pub enum Trap {
    /// The exact result is outside the signed 64-bit range.
    Overflow,
    /// A divisor was 0.
    ZeroDivisor,
    /// An element or the rest of an empty sequence was asked for.
    EmptySequence,
    /// An index was outside its sequence.
    OutOfRange,
}

/// How an attempt of an action ends, as it is printed.
#[derive(Clone, Copy, Debug, PartialEq, Eq)]
pub enum Outcome {
    Accepted,
    Rejected,
    Trapped(Trap),
    /// The budget was used up.
    Spent,
}

/// How one pass of an attempt ends, as the scheduler sees it.
#[derive(Clone, Copy, Debug, PartialEq, Eq)]
pub enum PassEnd {
    Accepted,
    /// No precondition held at the commit step, so nothing was changed.
    PlainRejected,
    /// A rejection that kept the effects of its body.
    Rejected,
    Trapped(Trap),
    Spent,
}
