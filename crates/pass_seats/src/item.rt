//! A pass that was started and that no seat has taken yet.

use crate::EngineNames;
use compat_scheduler::Ticket;
use loose_records::SchedEntry;
use std::marker::{Model, PhantomData};
use step_journal::{Note, Share};

/// A pass that was started and that no seat has taken yet: its ticket, the stamp of its start, the number of the
/// seat that started it, and the note and share that came with it.
#[derive(Drop)]
pub struct Item<N: EngineNames> {
    pub(crate) ticket: Ticket,
    pub(crate) stamp: u64,
    pub(crate) seat: u32,
    pub(crate) note: Note<SchedEntry>,
    pub(crate) share: Share,
    pub(crate) of: PhantomData<N>,
}

impl<N: EngineNames> Model for Item<N> {
    ghost use Rattle.pass_seats.specs.Items.{ItemState, IsStarted};

    ghost Value = { ItemState };

    ghost view = { λ i. record { ticket = i.ticket; stamp = i.stamp; seat = i.seat; note = i.note } };

    ghost invariant = { λ i. IsStarted N.names
        (record { ticket = i.ticket; stamp = i.stamp; seat = i.seat; note = i.note }) i.share };
}
