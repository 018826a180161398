//! The record of an engine whose run has ended.

ghost use Rattle.std.specs.Prelude.{◌≡◌, All, length, IfOk, OnOk};
ghost use Rattle.round_ledger.specs.Cells.{HasEnded};
ghost use Rattle.pass_seats.specs.Seats.{IsSeat};
ghost use Rattle.pass_gather.specs.Given.{given_of};
ghost use Rattle.pass_gather.specs.Gathered.{IsGathered};
ghost use Rattle.still_turns.specs.Shown.{AreWorkers};

use loose_records::Record;
use pass_engine::{EngineParts, StillEngine, WorkerSeat};
use pass_gather::gather;
use pass_seats::{EngineNames, SeatCore};
use seuss_base::Memory;
use std::alloc::Global;

/// The cores of seats, in their order.
fn cores_of<N: EngineNames>(
    alloc: Global,
    seats: Vec<WorkerSeat<N>>,
) -> Result<Vec<SeatCore<N>>, Memory>
    ensures cores { IfOk result (λ cores. cores.items ≡ seats.items) }
    ensures seats { OnOk result (All (IsSeat N.names) seats.items) }
{
    let mut cores = Vec::new(alloc);
    for seat in seats {
        cores.push(core_of(seat))?;
    }
    Ok(cores)
}

/// The core of a seat.
fn core_of<N: EngineNames>(seat: WorkerSeat<N>) -> SeatCore<N>
    ensures core { result ≡ seat }
    ensures seat { IsSeat N.names seat }
{
    seat.facts();
    seat.into_core()
}

/// The record of an engine whose run has ended, with its seats.
pub fn close<'a, N: EngineNames>(
    alloc: Global,
    engine: StillEngine<'a, N>,
    seats: Vec<WorkerSeat<N>>,
) -> Result<Record, Memory>
    requires parts { N.parts ≡ N.names.seats }
    requires workers { AreWorkers N.names.seats seats.items }
    requires given { length (given_of seats.items) ≡ engine.sched.machine.starts }
    requires ended { HasEnded N.names.setting.scheduler engine.sched.machine }
    ensures { IfOk result (IsGathered N.names.first engine.entry.boxes engine.entry.sched seats.items) }
{
    let cores = cores_of(alloc, seats)?;
    let EngineParts {
        first,
        boxes,
        sched,
        quit,
    } = engine.apart();
    gather(alloc, first, boxes, sched, quit, cores)
}
