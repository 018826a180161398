//! The seats of a queue.

ghost use Rattle.std.specs.Prelude.{◌≡◌};

use crate::view::View;
use crossbeam_queue::SegPass;
use std::marker::Model;

/// A seat of the queue, with which its holder pushes and pops. Contracts see of which queue it is, and what
/// was pushed and taken under its number. It takes no memory, and goes with a worker to another thread.
#[derive(Drop)]
pub struct ReadySeat<T> {
    pub(crate) number: u32,
    pub(crate) pass: SegPass<T, View>,
}

impl<T> Model for ReadySeat<T> {
    ghost use Rattle.std.specs.Prelude.{◌≡◌, None};
    ghost use Rattle.ready_queue.specs.declared.view.View.TheVariants.{Seated};
    ghost use Rattle.ready_queue.specs.Seats.{SeatState, row_of};

    ghost Value = { SeatState };

    ghost view = { λ s. record { queue = s.pass.web; row = row_of s.pass.me.view.client } };

    ghost invariant = { λ s. (s.pass.me.hand ≡ None) × (s.pass.me.spare ≡ None)
        × (s.pass.me.view.client ≡ Seated (row_of s.pass.me.view.client))
        × ((row_of s.pass.me.view.client).number ≡ s.number) };
}

impl<T> ReadySeat<T> {
    /// Its number. The seats are numbered from 0 in the order in which they were made.
    pub fn number(&self) -> u32
        ensures { result ≡ self.now.row.number }
    {
        self.number
    }
}
