//! What a seat of a journal's table knows, in proofs alone.

use std::collections::LinkedList;

/// What a seat of a journal's table knows. No value of it is made: it exists in proofs alone.
pub enum View<E> {
    /// Nothing.
    Spent,
    /// A note: the number of its maker, and the beginning of the journal that it has seen.
    Noted {
        maker: u64,
        seen: LinkedList<(u64, E)>,
    },
    /// The writer: the whole journal, the lists of the notes that were taken in, and how many
    /// maker's numbers were given.
    Writer {
        log: LinkedList<(u64, E)>,
        olds: LinkedList<(u64, LinkedList<(u64, E)>)>,
        given: u64,
    },
}
