//! Started passes in the ready queue.

ghost use Rattle.std.specs.Prelude.{◌≡◌};

use pass_seats::{EngineNames, Item};
use ready_queue::Queued;
use std::marker::Model;

/// A started pass that lies in the ready queue. The queue's rule sees its ticket, and the seat that started it.
#[derive(Drop)]
pub struct ReadyItem<N: EngineNames> {
    pub(crate) item: Item<N>,
}

impl<N: EngineNames> Model for ReadyItem<N> {
    ghost use Rattle.pass_seats.specs.Items.{ItemState};

    ghost Value = { ItemState };

    ghost view = { λ i. i.item };
}

impl<N: EngineNames> Queued for ReadyItem<N> {
    ghost use Rattle.worker_seats.specs.Marks.{mark_of_item};

    ghost mark = { mark_of_item };
}
