//! What a worker has in hand.

use pass_seats::Pass;

/// What a worker has in hand.
#[derive(Drop)]
pub enum InHand {
    /// No pass.
    Nothing,
    /// A pass whose next step may be made.
    Going(Pass),
    /// A pass whose steps are over.
    Through(Pass),
}
