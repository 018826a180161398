//! What a seat of a turn's table knows.

/// What a seat of a turn's table knows. No value of it is made: it exists in proofs alone.
pub enum View<N> {
    /// Nothing: the seat was joined into another one.
    Spent,
    /// What never changes of the value, how many parts of the turn the seat has, how often it found the
    /// turn taken, and whether it holds it.
    Live {
        names: N,
        parts: u64,
        misses: u64,
        holds: bool,
    },
}
