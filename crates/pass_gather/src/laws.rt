//! Laws of closed journals and of the seats that made them.

ghost use Rattle.std.specs.Prelude.{◌≡◌, ℕ, List, All, map, length, sum_by, count_by, Some, slice_get};
ghost use Rattle.seuss_program.specs.declared.state.State.{State};
ghost use Rattle.seuss_program.specs.declared.state.Value.{Value};
ghost use Rattle.method_code.specs.declared.method.Method.{Method};
ghost use Rattle.compat_scheduler.specs.Settings.{Setting};
ghost use Rattle.compat_scheduler.specs.Machines.{Machine, running_count};
ghost use Rattle.compat_scheduler.specs.Runs.{IsRun};
ghost use Rattle.step_journal.specs.Histories.{Log};
ghost use Rattle.loose_records.specs.declared.record.BoxEntry.{BoxEntry};
ghost use Rattle.loose_records.specs.declared.record.SchedEntry.{SchedEntry};
ghost use Rattle.loose_records.specs.declared.record.PassRecord.{PassRecord};
ghost use Rattle.loose_records.specs.LooseRecords.{IsLoose, IsOver};
ghost use Rattle.round_ledger.specs.Cells.{CellState, HasEnded, IsOwned, IsOpenOrOver, log_events};
ghost use Rattle.pass_seats.specs.Names.{Names, AreNames};
ghost use Rattle.pass_seats.specs.Desks.{finishes_in};
ghost use Rattle.pass_seats.specs.Seats.{SeatState, is_done};
ghost use Rattle.pass_gather.specs.Given.{given_of, notes_of, places_of, AreSeats, TookItsOwn, AllFinished};
ghost use Rattle.pass_gather.specs.Given.{HaveAllNumbers, AreBelow, Lists};
ghost use Rattle.pass_gather.specs.Closing.{ClosesAll, ClosesSched};
ghost use Rattle.pass_gather.specs.Gathers.{GathersBoxes, GathersSched, record_of};
ghost use Rattle.pass_gather.specs.Made.{SeatsMade};

use compat_scheduler::laws::{an_ended_run_stays, passes_are_numbered};
use method_code::laws::{actions_are_actions, pass_commits_once, recorded_steps_are_a_pass};

/// Where a run has ended nothing runs, and the machine has stopped or all rounds are done.
pub fn an_ended_run_is_over()
    ensures { (names : Names) (machine : Machine) (sched : Log SchedEntry) →
        IsRun names.setting.scheduler (log_events sched) machine → HasEnded names.setting.scheduler machine →
        IsOver names.setting machine }
{
    an_ended_run_stays();
}

/// Where each seat was given just the passes that it has started, as many were given as were started.
pub fn all_starts_were_given()
    ensures { (setting : Setting) (machine : Machine) (sched : Log SchedEntry) (seats : List SeatState) →
        IsRun setting (log_events sched) machine → All (IsOwned (length seats)) sched →
        ((w : ℕ) (s : SeatState) → slice_get seats w ≡ Some s → (s.number ≡ w) × TookItsOwn sched s) →
        length (given_of seats) ≡ machine.starts }
{
    passes_are_numbered();
}

/// Where nothing runs, as many passes were given as were started, and the seats have counted as many finishes
/// as the scheduler, each given pass has finished.
pub fn no_pass_is_open()
    ensures { (setting : Setting) (machine : Machine) (sched : Log SchedEntry) (seats : List SeatState)
        (count : ℕ) → IsRun setting (log_events sched) machine → All (IsOwned count) sched →
        All (λ p. IsOpenOrOver setting machine count sched p.1) sched → running_count machine ≡ 0 →
        length (given_of seats) ≡ machine.starts →
        sum_by (λ s. count_by is_done s.passes) seats ≡ finishes_in sched → AllFinished (given_of seats) }
{
    passes_are_numbered();
}

/// The closes of all boxes, with the seats, give what a record needs of them.
pub fn the_boxes_gather()
    ensures { (names : Names) (code : List Method) (first : ℕ → List Value) (last : State)
        (logs : List (Log BoxEntry)) (seats : List SeatState) → AreNames names code first →
        ClosesAll names code first last logs (map places_of seats) → GathersBoxes names last logs seats }
{}

/// The close of a scheduler that has ended, with the notes of all seats and of the passes that they were
/// given, gives what a record needs of it. The numbers of the given passes are those below the starts.
pub fn the_scheduler_gathers()
    ensures gathers { (names : Names) (cell : CellState) (seats : List SeatState) →
        ClosesSched names cell (notes_of seats) → AreSeats names seats →
        HasEnded names.setting.scheduler cell.machine →
        GathersSched names cell.journal.log cell.machine seats }
    ensures numbers { (names : Names) (cell : CellState) (seats : List SeatState) →
        ClosesSched names cell (notes_of seats) → AreSeats names seats →
        HaveAllNumbers cell.machine.starts (given_of seats) }
    ensures below { (names : Names) (cell : CellState) (seats : List SeatState) →
        ClosesSched names cell (notes_of seats) → AreSeats names seats →
        AreBelow cell.machine.starts (given_of seats) }
{
    passes_are_numbered();
    an_ended_run_is_over();
}

/// Closed journals, with the seats that made them, are a loose record, where the given passes are listed by
/// their numbers.
pub fn parts_are_a_loose_record()
    ensures { (names : Names) (code : List Method) (first : ℕ → List Value) (last : State)
        (logs : List (Log BoxEntry)) (sched : Log SchedEntry) (machine : Machine) (seats : List SeatState)
        (passes : List PassRecord) → AreNames names code first → AreSeats names seats →
        GathersBoxes names last logs seats → GathersSched names sched machine seats →
        Lists (given_of seats) machine.starts passes →
        IsLoose names.setting (record_of names.first last logs sched passes) }
{
    passes_are_numbered();
    actions_are_actions();
    pass_commits_once();
    recorded_steps_are_a_pass();
}

/// The seats made what was gathered.
pub fn the_record_is_the_seats_own()
    ensures { (names : Names) (last : State) (logs : List (Log BoxEntry)) (sched : Log SchedEntry)
        (machine : Machine) (seats : List SeatState) (passes : List PassRecord) → AreSeats names seats →
        GathersBoxes names last logs seats → GathersSched names sched machine seats →
        SeatsMade seats (record_of names.first last logs sched passes) }
{}

/// The closes of all boxes and of the scheduler of an engine that has ended, with all its seats, give a
/// loose record, where the passes that the seats were given are listed by their numbers.
pub fn a_gathered_run_is_a_loose_record()
    ensures loose { (names : Names) (code : List Method) (first : ℕ → List Value) (last : State)
        (logs : List (Log BoxEntry)) (cell : CellState) (seats : List SeatState) (passes : List PassRecord) →
        AreNames names code first → ClosesAll names code first last logs (map places_of seats) →
        ClosesSched names cell (notes_of seats) → AreSeats names seats →
        HasEnded names.setting.scheduler cell.machine → Lists (given_of seats) cell.machine.starts passes →
        IsLoose names.setting (record_of names.first last logs cell.journal.log passes) }
    ensures made { (names : Names) (code : List Method) (first : ℕ → List Value) (last : State)
        (logs : List (Log BoxEntry)) (cell : CellState) (seats : List SeatState) (passes : List PassRecord) →
        AreNames names code first → ClosesAll names code first last logs (map places_of seats) →
        ClosesSched names cell (notes_of seats) → AreSeats names seats →
        HasEnded names.setting.scheduler cell.machine →
        SeatsMade seats (record_of names.first last logs cell.journal.log passes) }
{
    the_boxes_gather();
    the_scheduler_gathers();
    parts_are_a_loose_record();
    the_record_is_the_seats_own();
}
