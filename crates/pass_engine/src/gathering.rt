//! The record of an engine whose run has ended.

ghost use Rattle.std.specs.Prelude.{◌≡◌, None, false, map, All, IfOk, OnOk};
ghost use Rattle.loose_records.specs.LooseRecords.{IsLoose};
ghost use Rattle.round_ledger.specs.Cells.{HasEnded};
ghost use Rattle.pass_seats.specs.Starts.{sees_sched};
ghost use Rattle.pass_gather.specs.Gathered.{IsGathered};
ghost use Rattle.pass_gather.specs.Made.{SeatsMade};
ghost use Rattle.pass_engine.specs.Gathering.{AreAllSeats, SeesAll, seen_with};

use crate::{EngineParts, StillEngine, WorkerSeat};
use loose_records::Record;
use pass_gather::gather;
use pass_gather::laws::all_starts_were_given;
use pass_seats::{EngineNames, SchedDesk, SeatCore};
use quit_word::QuitWord;
use seuss_base::{List, Memory};
use std::alloc::Global;

impl<'a, N: EngineNames> StillEngine<'a, N> {
    /// Closes the engine, whose run has ended, with all its seats, and makes its record. Nobody has given
    /// the engine up. Want of memory is all that can be refused.
    pub fn gather(self, alloc: Global, seats: List<WorkerSeat<N>>) -> Result<Record, Memory>
        requires going { self.given_up ≡ None }
        requires seats { AreAllSeats N.names seats }
        requires ended { HasEnded N.names.setting.scheduler self.sched.machine }
        ensures gathered { IfOk result (IsGathered N.names.first self.entry.boxes self.entry.sched seats) }
        ensures loose { IfOk result (IsLoose N.names.setting) }
        ensures first { IfOk result (λ r. r.first ≡ N.names.first) }
        ensures made { IfOk result (SeatsMade seats) }
    {
        all_starts_were_given();
        let EngineParts {
            first,
            boxes,
            mut sched,
            quit,
        } = self.apart();
        sched.facts();
        let cores = see_all(alloc, &mut sched, &quit, seats.into_vec())?;
        let record = gather(alloc, first, boxes, sched, quit, cores)?;
        Ok(record)
    }
}

/// The cores of seats, each of which sees the scheduler's whole list.
fn see_all<N: EngineNames>(
    alloc: Global,
    desk: &mut SchedDesk<N>,
    quit: &QuitWord,
    seats: Vec<WorkerSeat<N>>,
) -> Result<Vec<SeatCore<N>>, Memory>
    requires quit { quit.now ≡ N.names.quit }
    requires working { desk.old.cell.broken ≡ false }
    requires whole { All (λ s. s.torn ≡ false) seats.items }
    ensures desk { OnOk result (desk.new ≡ desk.old) }
    ensures cores { IfOk result
        (λ cores. cores.items ≡ map (seen_with desk.old.cell.journal.log) seats.items) }
    ensures sees { OnOk result (All (SeesAll N.names desk.old.cell.journal.log) seats.items) }
{
    let mut cores = Vec::new(alloc);
    for seat in seats {
        cores.push(see_list(desk, quit, seat))?;
    }
    Ok(cores)
}

/// The core of a seat, which sees the scheduler's whole list.
fn see_list<N: EngineNames>(
    desk: &mut SchedDesk<N>,
    quit: &QuitWord,
    seat: WorkerSeat<N>,
) -> SeatCore<N>
    requires quit { quit.now ≡ N.names.quit }
    requires working { desk.old.cell.broken ≡ false }
    requires whole { seat.torn ≡ false }
    ensures desk { desk.new ≡ desk.old }
    ensures core { result ≡ sees_sched seat desk.old.cell.journal.log }
    ensures sees { SeesAll N.names desk.old.cell.journal.log seat }
{
    let mut core = seat.into_core();
    let _told = desk.standing(quit, &mut core);
    core.facts();
    core
}
