//! What the place of a pass in the commit order is taken from.

use seuss_program::Placed;

/// The stamp of the commit step of a kept pass, and what is printed of the pass.
#[derive(Clone, Copy, Drop)]
pub struct Key {
    pub stamp: u64,
    pub placed: Placed,
}
