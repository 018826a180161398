//! What a checker answers.

/// Whether every attempt keeps a property, or what was found against it.
#[derive(Clone, Copy, Debug, PartialEq, Eq)]
pub enum Safety {
    /// Every attempt keeps it.
    Safe,
    /// It isn't true of the start values of the box of this number.
    Start(u32),
    /// An end of the procedure of this number in the cat may be without it.
    Open(u32),
    /// The procedure of this number in the cat has too many cases to look at.
    Many(u32),
}
