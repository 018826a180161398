//! The word, its views and their calls.

ghost use Rattle.std.specs.Prelude.{◌≡◌, ◌⊎◌, ℕ, [], ◌∷◌, ◌+◌, length, true, false, All, IfOk, MatchOption};
ghost use Rattle.quit_word.specs.Rules.{either_seen};

use crate::rule::{Joined, Look, NewCell, NewWorker, Quit, Quits};
use crate::view::View;
use atomic_table::{Seat, Table};
use seuss_base::Memory;
use std::alloc::Global;
use std::marker::Model;

/// The word, which the workers of one run share. Contracts see which table it is, and tell it by that
/// from every other one.
#[derive(Drop)]
pub struct QuitWord {
    table: Table<(), View, (), Quits, Global>,
}

impl Model for QuitWord {
    ghost use Rattle.std.specs.Prelude.{◌≡◌};
    ghost use Rattle.atomic_table.specs.Seated.{TableId};

    ghost Value = { TableId };

    ghost view = { λ q. q.table.shared.table_id };

    ghost invariant = { λ q. q.table.shared.table_id.words ≡ 1 };
}

/// The first view: how many numbers it gave, those that were joined into it with their marks, and
/// whom it has seen give up. Whoever begins a run keeps it, and takes the other views in at its end.
#[derive(Drop)]
pub struct QuitFirst {
    seat: Seat<(), View>,
}

impl Model for QuitFirst {
    ghost use Rattle.quit_word.specs.Seats.{FirstState, first_of, IsFirst};

    ghost Value = { FirstState };

    ghost view = { λ q. first_of q.seat.table_id q.seat.me.0 };

    ghost invariant = { λ q. IsFirst q.seat.me };
}

/// A worker's view: its number, whether it is the one that gave up, and whom it has seen give up. It
/// goes with its worker to another thread.
#[derive(Drop)]
pub struct QuitSeat {
    number: u32,
    seat: Seat<(), View>,
}

impl Model for QuitSeat {
    ghost use Rattle.quit_word.specs.Seats.{SeatState, seat_of, IsSeat};

    ghost Value = { SeatState };

    ghost view = { λ q. seat_of q.number q.seat.table_id q.seat.me.0 };

    ghost invariant = { λ q. IsSeat q.number q.seat.me };
}

/// A view without a number: whom it has seen give up. It stands beside a cell, under the cell's lock,
/// so that whoever finds the cell broken learns that somebody gave up.
#[derive(Drop)]
pub struct QuitView {
    seat: Seat<(), View>,
}

impl Model for QuitView {
    ghost use Rattle.quit_word.specs.Seats.{ViewState, view_of, IsView};

    ghost Value = { ViewState };

    ghost view = { λ q. view_of q.seat.table_id q.seat.me.0 };

    ghost invariant = { λ q. IsView q.seat.me };
}

impl QuitWord {
    /// The word at 0, with the first view. Nobody has given up.
    pub fn open(alloc: Global) -> Result<(QuitWord, QuitFirst), Memory>
        ensures { IfOk result (λ r. r.1 ≡ record { given = 0; held = []; seen = None; name = r.0 }) }
    {
        let (table, seat) = Table::of_words(alloc, &[0], &())?;
        Ok((QuitWord { table }, QuitFirst { seat }))
    }

    /// A worker's view with the next number, counted from 0.
    pub fn worker(&self, first: &mut QuitFirst, number: u32) -> QuitSeat
        requires name { first.old.name ≡ self.now }
        requires next { number ≡ first.old.given }
        ensures first { first.new ≡ record first.old { given = first.old.given + 1 } }
        ensures seat { result ≡ record { number = number; mark = false; seen = None; name = self.now } }
    {
        let table = &self.table;
        let seat = table.shared.split_seat::<NewWorker>(&mut first.seat);
        QuitSeat { number, seat }
    }

    /// A view without a number, for a cell, which has seen as much as the first one.
    pub fn cell(&self, first: &mut QuitFirst) -> QuitView
        requires name { first.old.name ≡ self.now }
        ensures first { first.new ≡ first.old }
        ensures view { result ≡ record { seen = first.old.seen; name = self.now } }
    {
        let table = &self.table;
        let seat = table.shared.split_seat::<NewCell>(&mut first.seat);
        QuitView { seat }
    }

    /// A view without a number which has seen as much as a worker. A worker that breaks a cell gives
    /// up, and leaves such a view beside the cell before it lets go of it.
    pub fn tell(&self, worker: &mut QuitSeat) -> QuitView
        requires name { worker.old.name ≡ self.now }
        ensures worker { worker.new ≡ worker.old }
        ensures view { result ≡ record { seen = worker.old.seen; name = self.now } }
    {
        let table = &self.table;
        let seat = table.shared.split_seat::<NewCell>(&mut worker.seat);
        QuitView { seat }
    }

    /// Gives up, where nobody did before: the worker is marked and has seen itself. Else its mark is
    /// as it was, and it has seen who did first.
    pub fn quit(&self, worker: &mut QuitSeat)
        requires name { worker.old.name ≡ self.now }
        ensures same { (worker.new.number ≡ worker.old.number) × (worker.new.name ≡ worker.old.name) }
        ensures marked { ((worker.new.mark ≡ true) × (worker.new.seen ≡ Some worker.old.number))
            ⊎ ((worker.new.mark ≡ worker.old.mark) × ((s : ℕ) × (worker.new.seen ≡ Some s))) }
    {
        let table = &self.table;
        table
            .shared
            .compare_exchange::<Quit>(&mut worker.seat, 0, 0, worker.number as u64 + 1);
    }

    /// Who gave up first, if anybody did, by one load. The worker has then seen that. None comes only
    /// where it had seen nobody before.
    pub fn look(&self, worker: &mut QuitSeat) -> Option<u32>
        requires name { worker.old.name ≡ self.now }
        ensures { MatchOption result ((worker.new ≡ worker.old) × (worker.old.seen ≡ None))
            (λ s. worker.new ≡ record worker.old { seen = Some s }) }
    {
        let table = &self.table;
        let found = table.shared.load::<Look>(&mut worker.seat, 0);
        if found == 0 {
            None
        } else {
            Some((found - 1) as u32)
        }
    }

    /// Who gave up first, by one load, beside a view that has seen somebody, as that of a broken cell
    /// has. The worker has then seen that.
    pub fn look_beside(&self, worker: &mut QuitSeat, view: &mut QuitView) -> u32
        requires names { (worker.old.name ≡ self.now) × (view.old.name ≡ self.now) }
        requires seen { (s : ℕ) × (view.old.seen ≡ Some s) }
        ensures worker { worker.new ≡ record worker.old { seen = Some result } }
        ensures view { view.new ≡ view.old }
    {
        let table = &self.table;
        let copy = table.shared.split_seat::<NewCell>(&mut view.seat);
        table.shared.join_seat::<Joined>(&mut worker.seat, copy);
        let found = table.shared.load::<Look>(&mut worker.seat, 0);
        (found - 1) as u32
    }

    /// Takes a worker's view in, with its number and mark.
    pub fn join_worker(&self, first: &mut QuitFirst, worker: QuitSeat)
        requires names { (first.old.name ≡ self.now) × (worker.name ≡ self.now) }
        ensures { first.new ≡ record first.old {
          held = (worker.number, worker.mark) ∷ first.old.held;
          seen = either_seen first.old.seen worker.seen;
        } }
    {
        let table = &self.table;
        let QuitSeat { number: _, seat } = worker;
        table.shared.join_seat::<Joined>(&mut first.seat, seat);
    }

    /// Takes a view without a number in.
    pub fn join_cell(&self, first: &mut QuitFirst, cell: QuitView)
        requires names { (first.old.name ≡ self.now) × (cell.name ≡ self.now) }
        ensures { first.new ≡ record first.old { seen = either_seen first.old.seen cell.seen } }
    {
        let table = &self.table;
        let QuitView { seat } = cell;
        table.shared.join_seat::<Joined>(&mut first.seat, seat);
    }

    /// Learns by one load that nobody gave up, where the first view has all numbers and none is
    /// marked. So no view that was joined into it had seen anybody, and no cell beside which one of
    /// them stood is broken.
    pub fn settle(&self, first: &mut QuitFirst)
        requires name { first.old.name ≡ self.now }
        requires all { length first.old.held ≡ first.old.given }
        requires unmarked { All (λ h. h.1 ≡ false) first.old.held }
        ensures { first.old.seen ≡ None }
    {
        let table = &self.table;
        table.shared.load::<Look>(&mut first.seat, 0);
    }
}

fn needs_send<T: Send>() {}

fn needs_sync<T: Sync>() {}

/// The views may go to other threads, and the word may be shared.
pub fn crosses() {
    needs_send::<QuitSeat>();
    needs_send::<QuitView>();
    needs_send::<QuitFirst>();
    needs_sync::<QuitWord>();
}
