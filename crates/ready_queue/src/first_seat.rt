//! The first view of a queue.

use crate::view::View;
use crossbeam_queue::SegPass;
use std::marker::Model;

/// The first view of the queue. It gives seats their numbers, and gets their rows back: whoever begins a run
/// keeps it, and joins the seats into it at the end.
#[derive(Drop)]
pub struct FirstSeat<T> {
    pub(crate) pass: SegPass<T, View>,
}

impl<T> Model for FirstSeat<T> {
    ghost use Rattle.std.specs.Prelude.{◌≡◌, None};
    ghost use Rattle.ready_queue.specs.declared.view.View.TheVariants.{First};
    ghost use Rattle.ready_queue.specs.Seats.{FirstState, joined_in, given_in};

    ghost Value = { FirstState };

    ghost view = { λ s. record {
      queue = s.pass.web;
      rows = joined_in s.pass.me.view.client;
      given = given_in s.pass.me.view.client;
    } };

    ghost invariant = { λ s. (s.pass.me.hand ≡ None) × (s.pass.me.spare ≡ None)
        × (s.pass.me.view.client
        ≡ First (joined_in s.pass.me.view.client) (given_in s.pass.me.view.client)) };
}
