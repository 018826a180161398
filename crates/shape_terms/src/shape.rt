//! What is known of a sequence: all of its elements, or both ends of it.

use crate::num_form::NumForm;
use seuss_base::List;

/// What a sequence of a case is known to be.
#[derive(Debug, Drop)]
pub enum Shape {
    /// All of its elements.
    Exact(List<NumForm>),
    /// Its first elements, an unknown rest, and its last elements.
    Long {
        front: List<NumForm>,
        rest: u32,
        back: List<NumForm>,
    },
}
