//! What a worker has in hand.

use compat_scheduler::Ticket;
use method_code::Activation;
use seuss_base::PassEnd;

/// The pass that a worker has in hand: its ticket, its clock, and how far it is.
#[derive(Drop)]
pub struct Hand {
    pub ticket: Ticket,
    pub clock: u64,
    pub progress: Progress,
}

/// How far a pass is: it goes on from here with this budget, or its steps are over.
#[derive(Drop)]
pub enum Progress {
    Going(Activation, u64),
    Through(PassEnd),
}
