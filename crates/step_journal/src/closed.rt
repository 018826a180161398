//! Closed journals, with a maker for each entry.

use seuss_base::List;

/// The entries of a closed journal, in their order, with one maker for each.
#[derive(Debug, Drop)]
pub struct Closed<E> {
    pub makers: List<u64>,
    pub entries: List<E>,
}
