//! Values that lie in a turn.

/// A value that lies in a turn, with what it keeps there.
pub trait Kept {
    /// What never changes of it, by which it is told from others.
    type Names;

    /// Some names, for proofs alone.
    ghost any: { Self.Names };

    /// A value with these names keeps this whenever it lies in the slot, and whoever takes it learns that.
    ghost keeps: { Self.Names → Self → Type 0 };
}
