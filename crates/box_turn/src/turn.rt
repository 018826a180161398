//! The turn, and its calls.

ghost use Rattle.std.specs.Prelude.{◌≡◌, ◌<◌, ◌+◌, ◌-◌, false, true, All, length, replicate};
ghost use Rattle.std.specs.Prelude.{IfOk, IfNone, IfSome};
ghost use Rattle.box_turn.specs.Seats.{new_seat};

use crate::kept::Kept;
use crate::rule::{Add, CutOff, Give, InTurn, Take, Terms};
use crate::seat::{PartsSeat, TurnSeat};
use crate::view::View;
use atomic_table::Table;
use seuss_base::{List, Memory};
use std::alloc::Global;
use std::marker::Model;
use std::snapshot::Snapshot;

/// A value that one seat at a time can take. Contracts see which turn it is, what never changes of the
/// value, and how many seats there are. What else the value is no clause can say, since another thread may
/// have it.
#[derive(Drop)]
pub struct BoxTurn<C: Kept> {
    table: Table<Option<C>, View<C::Names>, Terms<C::Names>, InTurn, Global>,
}

impl<C: Kept> Model for BoxTurn<C> {
    ghost use Rattle.std.specs.Prelude.{◌≡◌, ◌<◌};
    ghost use Rattle.box_turn.specs.Seats.{TurnState, turn_code};

    ghost Value = { TurnState C.Names };

    ghost coded = { turn_code C.Names.code };

    ghost view = { λ t. record {
      name = t.table.shared.table_id;
      names = t.table.shared.key.names.value;
      seats = t.table.shared.key.seats;
    } };

    ghost invariant = { λ t. (t.table.shared.table_id.words ≡ 1) × (t.table.shared.table_id.slots ≡ 1)
        × (0 < t.table.shared.key.seats) };
}

impl<C: Kept + Drop> BoxTurn<C> {
    /// A turn with this value in its slot, under its names, and as many seats as are asked for.
    pub fn new(
        alloc: Global,
        cell: C,
        names: &C::Names,
        seats: u32,
    ) -> Result<(BoxTurn<C>, List<TurnSeat<C>>), Memory>
        requires some { 0 < seats }
        requires kept { C.keeps names.now cell }
        ensures turn { IfOk result (λ made. (made.0.names ≡ names.now) × (made.0.seats ≡ seats)) }
        ensures seats { IfOk result (λ made. made.1 ≡ replicate seats (new_seat made.0.name names.now)) }
    {
        let (turn, first) = BoxTurn::open(alloc, cell, names, seats)?;
        let given = turn.deal(alloc, first, seats)?;
        Ok((turn, given))
    }

    /// The turn, and a seat with all its parts.
    fn open(
        alloc: Global,
        cell: C,
        names: &C::Names,
        seats: u32,
    ) -> Result<(BoxTurn<C>, PartsSeat<C>), Memory>
        requires some { 0 < seats }
        requires kept { C.keeps names.now cell }
        ensures turn { IfOk result (λ made. (made.0.names ≡ names.now) × (made.0.seats ≡ seats)) }
        ensures seat { IfOk result (λ made. made.1
            ≡ record { turn = made.0.name; names = names.now; parts = seats; misses = 0 }) }
    {
        let terms = Terms {
            names: Snapshot::of(names),
            seats,
        };
        let mut slots = Vec::new(alloc);
        slots.push(Some(cell))?;
        let Ok((table, seat)) = Table::new(alloc, &[0], slots, &terms) else {
            return Err(Memory);
        };
        Ok((BoxTurn { table }, PartsSeat { seat }))
    }

    /// The seats, one part each, of a seat that has all parts.
    fn deal(
        &self,
        alloc: Global,
        mut first: PartsSeat<C>,
        seats: u32,
    ) -> Result<List<TurnSeat<C>>, Memory>
        requires some { 0 < seats }
        requires seat { first
            ≡ record { turn = self.now.name; names = first.names; parts = seats; misses = 0 } }
        ensures { IfOk result (λ given. given ≡ replicate seats (new_seat self.now.name first.names)) }
    {
        let mut given = List::new(alloc);
        let mut left = seats;
        while left > 1 {
            given.push(self.split(&mut first))?;
            left -= 1;
        }
        given.push(first.into_single())?;
        Ok(given)
    }
}

impl<C: Kept> BoxTurn<C> {
    /// A seat with one of the parts.
    fn split(&self, first: &mut PartsSeat<C>) -> TurnSeat<C>
        requires turn { first.old.turn ≡ self.now.name }
        requires parts { 1 < first.old.parts }
        ensures first { first.new ≡ record first.old { parts = first.old.parts - 1 } }
        ensures new { result ≡ new_seat self.now.name first.old.names }
    {
        let table = &self.table;
        let seat = table.shared.split_seat::<CutOff>(&mut first.seat);
        TurnSeat { seat }
    }

    /// The part of a seat is added to those of another one.
    fn join(&self, last: &mut PartsSeat<C>, other: TurnSeat<C>)
        requires turns { (last.old.turn ≡ self.now.name) × (other.turn ≡ self.now.name) }
        requires free { other.holds ≡ false }
        ensures { last.new ≡ record last.old { parts = last.old.parts + 1 } }
    {
        let TurnSeat { seat } = other;
        let table = &self.table;
        table.shared.join_seat::<Add>(&mut last.seat, seat);
    }

    /// Takes the value, where no seat holds it: what it keeps is then known. None comes exactly where this
    /// call's one compare and exchange found the word at 1, and the seat then counts one miss more; of the
    /// kinds of step no other counts a miss. It takes no memory and doesn't wait.
    pub fn try_take(&self, seat: &mut TurnSeat<C>) -> Option<C>
        requires turn { seat.old.turn ≡ self.now.name }
        requires free { seat.old.holds ≡ false }
        ensures missed { IfNone result (seat.new ≡ record seat.old { misses = seat.old.misses + 1 }) }
        ensures taken { IfSome result (λ _. seat.new ≡ record seat.old { holds = true }) }
        ensures kept { IfSome result (C.keeps seat.old.names) }
    {
        let table = &self.table;
        let found = table
            .shared
            .compare_exchange::<Take>(&mut seat.seat, 0, 0, 1);
        if found != 0 {
            return None;
        }
        table.shared.exchange(&mut seat.seat, 0, None)
    }

    /// Gives the value back, under the names that it was taken under. It takes no memory and doesn't wait.
    pub fn give(&self, seat: &mut TurnSeat<C>, cell: C)
        requires turn { seat.old.turn ≡ self.now.name }
        requires holds { seat.old.holds ≡ true }
        requires kept { C.keeps seat.old.names cell }
        ensures { seat.new ≡ record seat.old { holds = false } }
    {
        let table = &self.table;
        match table.shared.exchange(&mut seat.seat, 0, Some(cell)) {
            None => {}
            Some(_) => unreachable!(),
        }
        table.shared.store::<Give>(&mut seat.seat, 0, 0);
    }

    /// Ends the turn with all its seats, and gives the value out. It takes no memory.
    pub fn close(self, seats: List<TurnSeat<C>>) -> C
        requires turn { All (λ s. (s.turn ≡ self.name) × (s.holds ≡ false)) seats }
        requires all { length seats ≡ self.seats }
        ensures { C.keeps self.names result }
    {
        let mut left = seats;
        let Some(seat) = left.pop() else {
            unreachable!()
        };
        let mut last = seat.into_parts();
        while let Some(other) = left.pop() {
            self.join(&mut last, other);
        }
        self.take_out(last)
    }

    /// Ends the turn with a seat that has all its parts.
    fn take_out(self, last: PartsSeat<C>) -> C
        requires turn { last.turn ≡ self.name }
        requires all { last.parts ≡ self.seats }
        ensures { C.keeps self.names result }
    {
        let BoxTurn { table } = self;
        let PartsSeat { seat } = last;
        let mut closed = table.close_with(seat);
        let slot = closed.take(0);
        closed.free();
        let Some(cell) = slot else { unreachable!() };
        cell
    }
}

fn needs_send<T: Send>() {}

fn needs_sync<T: Sync>() {}

/// A turn may be shared by threads, and its seats go from one to another, where the value may.
pub fn crosses<C: Kept + Send>() {
    needs_send::<BoxTurn<C>>();
    needs_sync::<BoxTurn<C>>();
    needs_send::<TurnSeat<C>>();
}
