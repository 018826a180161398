//! The seat of a worker at the engine for one thread.

ghost use Rattle.std.specs.Prelude.{◌≡◌};
ghost use Rattle.pass_seats.specs.Seats.{IsSeat};
ghost use Rattle.pass_engine.specs.Engines.{IsWorker};

use pass_seats::{EngineNames, SeatCore};
use std::marker::Model;

/// The seat of a worker at the engine for one thread. It was given just the passes that it has started,
/// until a call with it is refused for want of memory, or gives the engine up.
#[derive(Drop)]
pub struct WorkerSeat<N: EngineNames> {
    pub(crate) core: SeatCore<N>,
}

impl<N: EngineNames> Model for WorkerSeat<N> {
    ghost use Rattle.pass_seats.specs.Seats.{SeatState};
    ghost use Rattle.pass_engine.specs.Engines.{IsWorker};

    ghost Value = { SeatState };

    ghost view = { λ s. s.core };

    ghost invariant = { λ s. IsWorker s.core };
}

impl<N: EngineNames> WorkerSeat<N> {
    /// The number of the seat.
    pub fn number(&self) -> u32
        ensures { result ≡ self.now.number }
    {
        self.core.number()
    }

    /// What the seat keeps.
    pub fn facts(&self)
        ensures seat { IsSeat N.names self.now }
        ensures worker { IsWorker self.now }
    {
        self.core.facts();
    }

    /// The seat's core, which says no more which passes it was given.
    pub fn into_core(self) -> SeatCore<N>
        ensures core { result ≡ self }
        ensures worker { IsWorker self }
    {
        let WorkerSeat { core } = self;
        core
    }
}

fn needs_send<T: Send>() {}

/// A seat may go to another thread.
pub fn worker_crosses<N: EngineNames + Send>() {
    needs_send::<WorkerSeat<N>>();
}
