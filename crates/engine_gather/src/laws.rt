//! Laws of the scheduler's list and the ready queue, once all seats have come back.

ghost use Rattle.std.specs.Prelude.{◌≡◌, ◌≤◌, ℕ, List, [], map, length, sum_by, count_by, IsPermutation};
ghost use Rattle.compat_scheduler.specs.Settings.{Setting};
ghost use Rattle.compat_scheduler.specs.Machines.{Machine};
ghost use Rattle.compat_scheduler.specs.Runs.{IsRun};
ghost use Rattle.step_journal.specs.Histories.{Log};
ghost use Rattle.loose_records.specs.declared.record.SchedEntry.{SchedEntry};
ghost use Rattle.round_ledger.specs.Cells.{HasEnded, log_events};
ghost use Rattle.round_ledger.specs.declared.standing.Standing.TheVariants.{Ended};
ghost use Rattle.ready_queue.specs.declared.view.Mark.{Mark};
ghost use Rattle.ready_queue.specs.declared.view.Row.{Row};
ghost use Rattle.pass_seats.specs.Names.{Names};
ghost use Rattle.pass_seats.specs.Seats.{SeatState, is_done};
ghost use Rattle.pass_gather.specs.Given.{given_of};
ghost use Rattle.worker_seats.specs.Marks.{mark_of, marks_in};
ghost use Rattle.worker_seats.specs.Workers.{WorkerState};
ghost use Rattle.shared_engine.specs.Calls.{Stands};
ghost use Rattle.engine_gather.specs.Gathering.{BeginsWithEnd};
ghost use Rattle.engine_gather.specs.Settled.{HasSettled};

use compat_scheduler::laws::{
    an_ended_run_stays, machine_is_determined, passes_are_numbered, runs_go_on,
};
use ready_queue::laws::all_passes_are_finished;

/// Where the seats have finished at least as many passes as were started, no pass is left in the ready
/// queue, and the passes that the seats were given are just those that were started, each once.
pub fn all_passes_were_taken()
    ensures empty { (setting : Setting) (machine : Machine) (sched : Log SchedEntry) (items : List Mark)
        (rows : List Row) (seats : List SeatState) → HasSettled setting machine sched items rows seats →
        machine.starts ≤ sum_by (λ s. count_by is_done s.passes) seats → items ≡ [] }
    ensures taken { (setting : Setting) (machine : Machine) (sched : Log SchedEntry) (items : List Mark)
        (rows : List Row) (seats : List SeatState) → HasSettled setting machine sched items rows seats →
        machine.starts ≤ sum_by (λ s. count_by is_done s.passes) seats →
        IsPermutation (map mark_of (given_of seats)) (marks_in sched) }
    ensures many { (setting : Setting) (machine : Machine) (sched : Log SchedEntry) (items : List Mark)
        (rows : List Row) (seats : List SeatState) → HasSettled setting machine sched items rows seats →
        machine.starts ≤ sum_by (λ s. count_by is_done s.passes) seats →
        length (given_of seats) ≡ machine.starts }
{
    passes_are_numbered();
    all_passes_are_finished();
}

/// A run that begins with one that has ended has ended.
pub fn an_end_is_the_end()
    ensures { (setting : Setting) (machine : Machine) (sched : Log SchedEntry) →
        IsRun setting (log_events sched) machine → BeginsWithEnd setting sched → HasEnded setting machine }
{
    an_ended_run_stays();
    machine_is_determined();
    runs_go_on();
}

/// A seat that was told that the run has ended has seen, of the scheduler's list, a run that has ended.
pub fn an_answer_shows_the_end()
    ensures { (names : Names) (old : WorkerState) (new : WorkerState) → Stands names old new Ended →
        BeginsWithEnd names.setting.scheduler new.core.note.seen }
{}
