//! What a seat of the word knows.

use std::collections::LinkedList;

/// What a seat of the word knows. No value of it is made: it exists in proofs alone.
pub struct View {
    /// Whether it is the first view, which gives the numbers.
    pub first: bool,
    /// How many numbers it gave.
    pub given: u64,
    /// The numbers that it has, each with whether it is marked.
    pub held: LinkedList<(u64, bool)>,
    /// Which number it has seen.
    pub seen: Option<u64>,
}
