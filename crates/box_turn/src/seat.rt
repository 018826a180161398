//! The seats of a turn.

ghost use Rattle.std.specs.Prelude.{◌≡◌, false};
ghost use Rattle.box_turn.specs.Seats.{new_seat};

use crate::kept::Kept;
use crate::view::View;
use atomic_table::Seat;
use std::marker::Model;

/// The right to ask for the value of a turn. It takes no memory, and goes with a worker to another thread. A
/// seat that is dropped while it holds the turn leaves it taken for ever.
#[derive(Drop)]
pub struct TurnSeat<C: Kept> {
    pub(crate) seat: Seat<Option<C>, View<C::Names>>,
}

impl<C: Kept> Model for TurnSeat<C> {
    ghost use Rattle.box_turn.specs.Seats.{SeatState, seat_code, seat_state, IsSeat};

    ghost Value = { SeatState C.Names };

    ghost coded = { seat_code C.Names.code };

    ghost view = { λ s. seat_state s.seat.table_id C.any s.seat.me.0 };

    ghost invariant = { λ s. IsSeat C.any s.seat.me };
}

/// A seat that may have more parts of the turn than one, and doesn't hold it: the first one while a turn is
/// made, and the last one while it is closed.
#[derive(Drop)]
pub(crate) struct PartsSeat<C: Kept> {
    pub(crate) seat: Seat<Option<C>, View<C::Names>>,
}

impl<C: Kept> Model for PartsSeat<C> {
    ghost use Rattle.box_turn.specs.Seats.{PartsState, parts_code, parts_state, IsIdle};

    ghost Value = { PartsState C.Names };

    ghost coded = { parts_code C.Names.code };

    ghost view = { λ s. parts_state s.seat.table_id C.any s.seat.me.0 };

    ghost invariant = { λ s. IsIdle C.any s.seat.me };
}

impl<C: Kept> PartsSeat<C> {
    /// The seat with one part, as it is given out.
    pub(crate) fn into_single(self) -> TurnSeat<C>
        requires one { self.parts ≡ 1 }
        ensures { result
            ≡ record { turn = self.turn; names = self.names; misses = self.misses; holds = false } }
    {
        let PartsSeat { seat } = self;
        TurnSeat { seat }
    }
}

impl<C: Kept> TurnSeat<C> {
    /// The seat as the first one of those that are joined.
    pub(crate) fn into_parts(self) -> PartsSeat<C>
        requires free { self.holds ≡ false }
        ensures { result
            ≡ record { turn = self.turn; names = self.names; parts = 1; misses = self.misses } }
    {
        let TurnSeat { seat } = self;
        PartsSeat { seat }
    }
}
