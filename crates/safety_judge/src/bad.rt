//! Why a procedure is bad.

/// Why a procedure is bad.
#[derive(Clone, Copy, Debug, PartialEq, Eq)]
pub(crate) enum Bad {
    /// An end of it may be without the property.
    Open,
    /// It has too many cases to look at.
    Many,
}
