//! The seat of a worker at the threaded engine.

ghost use Rattle.std.specs.Prelude.{◌≡◌, ℕ, ◌<◌, [], length, false, None, Some, MatchOption, slice_get};
ghost use Rattle.box_turn.specs.Seats as T;
ghost use Rattle.ready_queue.specs.Rules.{new_row};
ghost use Rattle.pass_seats.specs.Seats.{IsSeat};
ghost use Rattle.pass_seats.specs.Opening.{IsFresh};
ghost use Rattle.pass_seats.specs.Steps.{IsOpen, Tears, sees_quit};
ghost use Rattle.worker_seats.specs.Workers.{IsSameSeat, IsTurn, IsWorker, ring_of, with_core};

use crate::{ReadyItem, TurnDesk};
use box_turn::{BoxTurn, TurnSeat};
use pass_seats::{EngineNames, SeatCore};
use quit_word::QuitWord;
use ready_queue::{FirstSeat, ReadyQueue, ReadySeat};
use std::marker::Model;

/// The seat of a worker at the threaded engine: what it has of any engine, its seat at the turn of each box, its seat
/// of the ready queue, and in one of all seats the queue's first view, which lies there until the engine is gathered.
#[derive(Drop)]
pub struct WorkerSeat<N: EngineNames> {
    pub(crate) core: SeatCore<N>,
    pub(crate) turns: Vec<TurnSeat<TurnDesk<N>>>,
    pub(crate) ready: ReadySeat<ReadyItem<N>>,
    pub(crate) first: Option<FirstSeat<ReadyItem<N>>>,
}

impl<N: EngineNames> Model for WorkerSeat<N> {
    ghost use Rattle.worker_seats.specs.Workers.{WorkerState, IsWorker};

    ghost Value = { WorkerState };

    ghost view = { λ s. record {
      core = s.core;
      turns = s.turns.items;
      ready = s.ready;
      first = s.first;
    } };

    ghost invariant = { λ s. IsWorker N.names (record {
      core = s.core;
      turns = s.turns.items;
      ready = s.ready;
      first = s.first;
    }) };
}

/// The parts of a worker's seat.
#[derive(Drop)]
pub struct WorkerParts<N: EngineNames> {
    pub core: SeatCore<N>,
    pub turns: Vec<TurnSeat<TurnDesk<N>>>,
    pub ready: ReadySeat<ReadyItem<N>>,
    pub first: Option<FirstSeat<ReadyItem<N>>>,
}

impl<N: EngineNames> WorkerSeat<N> {
    /// A seat over a core that has seen nothing and was given no pass, with a seat at the turn of each box and one of
    /// the ready queue, without its first view.
    pub fn new(
        core: SeatCore<N>,
        turns: Vec<TurnSeat<TurnDesk<N>>>,
        ready: ReadySeat<ReadyItem<N>>,
    ) -> WorkerSeat<N>
        requires core { IsFresh core.number core }
        requires many { length turns.items ≡ length N.names.boxes }
        requires turns { (b : ℕ) (t : T.SeatState ℕ) → slice_get turns.items b ≡ Some t → IsTurn b t }
        requires ready { ready.row ≡ new_row core.number }
        ensures { result ≡ record { core = core; turns = turns.items; ready = ready; first = None } }
    {
        WorkerSeat {
            core,
            turns,
            ready,
            first: None,
        }
    }

    /// Keeps the first view of the ready queue, which has given each seat its number.
    pub fn keep(&mut self, first: FirstSeat<ReadyItem<N>>)
        requires { first
            ≡ record { queue = self.old.ready.queue; rows = []; given = N.names.seats } }
        ensures { self.new ≡ record self.old { first = Some first } }
    {
        self.first = Some(first);
    }

    /// The number of the seat.
    pub fn number(&self) -> u32
        ensures { result ≡ self.now.core.number }
    {
        self.core.number()
    }

    /// What the seat keeps.
    pub fn facts(&self)
        ensures core { IsSeat N.names self.now.core }
        ensures worker { IsWorker N.names self.now }
    {
        self.core.facts();
    }

    /// Whom the quit word names, by one look. The seat has then seen that.
    pub fn look(&mut self, quit: &QuitWord) -> Option<u32>
        requires { quit.now ≡ N.names.quit }
        ensures { MatchOption result ((self.new ≡ self.old) × (self.old.core.quit.seen ≡ None)
            × (self.old.core.torn ≡ false)) (λ by. self.new ≡ with_core self.old (sees_quit self.old.core by)) }
    {
        self.core.look(quit)
    }

    /// Gives the engine up. It takes no memory and doesn't wait.
    pub fn give_up(&mut self, quit: &QuitWord)
        requires { quit.now ≡ N.names.quit }
        ensures torn { Tears self.old.core self.new.core }
        ensures same { (self.new.core.passes ≡ self.old.core.passes)
            × (self.new.core.places ≡ self.old.core.places) × (self.new.core.note ≡ self.old.core.note) }
        ensures rest { self.new ≡ with_core self.old self.new.core }
    {
        self.core.give_up(quit);
    }

    /// The box of the next step of the pass in a slot.
    pub fn box_of(&self, slot: u64) -> u32
        requires { (b : ℕ) × IsOpen self.now.core slot b }
        ensures open { IsOpen self.now.core slot result }
        ensures there { self.now.core.torn ≡ false → result < length N.names.boxes }
    {
        self.core.box_of(slot)
    }

    /// The parts of the seat, with what it has kept of them.
    pub fn apart(self) -> WorkerParts<N>
        ensures core { result.core ≡ self.core }
        ensures turns { result.turns.items ≡ self.turns }
        ensures ready { result.ready ≡ self.ready }
        ensures first { result.first ≡ self.first }
        ensures kept { IsWorker N.names self }
    {
        let WorkerSeat {
            core,
            turns,
            ready,
            first,
        } = self;
        WorkerParts {
            core,
            turns,
            ready,
            first,
        }
    }
}

fn needs_send<T: Send>() {}

fn needs_sync<T: Sync>() {}

/// Seats go to other threads, and turns and the ready queue may be shared.
pub fn workers_cross<N: EngineNames + Send + Sync>() {
    needs_send::<WorkerSeat<N>>();
    needs_send::<TurnDesk<N>>();
    needs_send::<ReadyItem<N>>();
    needs_sync::<BoxTurn<TurnDesk<N>>>();
    needs_sync::<Vec<BoxTurn<TurnDesk<N>>>>();
    needs_sync::<ReadyQueue<ReadyItem<N>>>();
}
