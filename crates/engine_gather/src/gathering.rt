//! The record of the threaded engine.

ghost use Rattle.std.specs.Prelude.{◌≡◌, map, IfOk};
ghost use Rattle.loose_records.specs.LooseRecords.{IsLoose};
ghost use Rattle.pass_gather.specs.Made.{SeatsMade};
ghost use Rattle.engine_gather.specs.Gathering.{AreAllSeats, AreTheirPasses, HaveSeenEnd, core_of};

use crate::laws::{all_passes_were_taken, an_end_is_the_end};
use crate::seats_apart::{SeatsApart, take_seats};
use crate::seeing::see_all;
use crate::settling::settle;
use crate::turn_column::close_columns;
use loose_records::Record;
use pass_seats::EngineNames;
use seuss_base::{List, Memory};
use shared_engine::{Engine, EngineParts};
use std::alloc::Global;
use std::sync::Wait;
use worker_seats::WorkerSeat;

/// Closes the threaded engine with all its seats, by their numbers, and makes its record. No call with one
/// of them was refused for want of memory or gave the engine up, and some seat was told that the run has
/// ended. Want of memory is all that can be refused.
pub fn gather<'a, N: EngineNames, R: Wait>(
    rt: &R,
    alloc: Global,
    engine: Engine<'a, N>,
    seats: List<WorkerSeat<N>>,
) -> Result<Record, Memory>
    requires seats { AreAllSeats N.names engine seats }
    requires ended { HaveSeenEnd N.names.setting.scheduler seats }
    ensures loose { IfOk result (IsLoose N.names.setting) }
    ensures first { IfOk result (λ r. r.first ≡ N.names.first) }
    ensures made { IfOk result (SeatsMade (map core_of seats)) }
    ensures passes { IfOk result (λ r. AreTheirPasses (map core_of seats) r.passes) }
{
    all_passes_were_taken();
    an_end_is_the_end();
    let EngineParts {
        first,
        boxes,
        queue,
        mut sched,
        quit,
    } = engine.apart();
    sched.facts();
    let SeatsApart {
        columns,
        cores,
        rows,
        line,
    } = take_seats(alloc, boxes, seats.into_vec())?;
    let Some(line) = line else { unreachable!() };
    settle(rt, &queue, line, rows);
    let desks = close_columns(alloc, columns)?;
    let seen = see_all(alloc, &mut sched, &quit, cores)?;
    let record = pass_gather::gather(alloc, first, desks, sched, quit, seen)?;
    Ok(record)
}
