//! Laws of records in the making, and of the turns of virtual workers.

ghost use Rattle.std.specs.Prelude.{◌≡◌, ◌<◌, ◌≤◌, ◌+◌, ◌*◌, ◌^◌, ℕ, List, [], All, Some, max};
ghost use Rattle.std.specs.Prelude.{length, slice_get};
ghost use Rattle.seuss_base.specs.declared.outcome.PassEnd.{PassEnd};
ghost use Rattle.seuss_program.specs.declared.state.State.{State};
ghost use Rattle.seuss_program.specs.Keeping.{HasForm, Keeps};
ghost use Rattle.compat_scheduler.specs.declared.ticket.Ticket.{Ticket};
ghost use Rattle.compat_scheduler.specs.declared.ticket.FinishVerdict.{FinishVerdict};
ghost use Rattle.compat_scheduler.specs.Settings.{copies};
ghost use Rattle.compat_scheduler.specs.Machines.{Machine, beginning};
ghost use Rattle.compat_scheduler.specs.Starts.{Starts};
ghost use Rattle.compat_scheduler.specs.Finishes.{Finishes};
ghost use Rattle.loose_records.specs.declared.record.BoxEntry.{BoxEntry};
ghost use Rattle.loose_records.specs.declared.record.PassRecord.{PassRecord};
ghost use Rattle.loose_records.specs.declared.record.Record.{Record};
ghost use Rattle.loose_records.specs.Settings.{RunSetting};
ghost use Rattle.loose_records.specs.LooseRecords.{IsLoose, IsOver};
ghost use Rattle.loose_records.specs.Growing.{Status, IsGrowing, AddsStart, AddsStep, AddsFinish, CommitsAt};
ghost use Rattle.loose_records.specs.Growing.{empty_record};
ghost use Rattle.loose_records.specs.Growing.Status.{Through};
ghost use Rattle.loose_records.specs.Turns.{Turning, AreTurns, IsRecordOfTurns, turning_begun, clock_of};
ghost use Rattle.loose_records.specs.Stamps.{IsLow, HasStampsLeft, events_in};

use compat_scheduler::laws::{
    machine_is_determined, open_passes_run, passes_are_few, passes_are_numbered,
    passes_finish_or_run, runs_go_on, tickets_start_once,
};
use method_code::laws::{
    actions_are_actions, open_pass_goes_on, pass_commits_once, pass_is_over_in_time,
    recorded_steps_are_a_pass,
};

/// A record in the making begins empty. A start, a step of an open pass and a finish of a pass whose steps
/// are over make it grow, in any order; and where the machine is over it is loose.
pub fn records_grow()
    ensures begins { (s : RunSetting) (state : State) → HasForm s.program state →
        IsGrowing s (empty_record state) [] (beginning s.scheduler) }
    ensures starts { (s : RunSetting) (old new : Record) (before after : List Status) (m n : Machine)
        (t : Ticket) (stamp : ℕ) → IsGrowing s old before m → Starts s.scheduler m t n →
        AddsStart s old before t stamp new after → IsGrowing s new after n }
    ensures steps { (s : RunSetting) (old new : Record) (before after : List Status) (m : Machine)
        (i : ℕ) (e : BoxEntry) → IsGrowing s old before m →
        AddsStep s old before i e new after → IsGrowing s new after m }
    ensures finishes { (s : RunSetting) (old new : Record) (before after : List Status) (m n : Machine)
        (i : ℕ) (t : Ticket) (end : PassEnd) (verdict : FinishVerdict) (stamp : ℕ) →
        IsGrowing s old before m → Finishes s.scheduler m t end verdict n →
        AddsFinish s old before i t end verdict stamp new after → IsGrowing s new after n }
    ensures loose { (s : RunSetting) (r : Record) (statuses : List Status) (m : Machine) →
        IsGrowing s r statuses m → IsOver s m → IsLoose s r }
{
    open_passes_run();
    passes_are_numbered();
    passes_finish_or_run();
    runs_go_on();
    open_pass_goes_on();
}

/// A pass whose steps are over has a commit step: the first that doesn't end by the call of a preprocedure.
pub fn open_pass_commits()
    ensures { (s : RunSetting) (r : Record) (statuses : List Status) (m : Machine) (i : ℕ)
        (pass : PassRecord) (end : PassEnd) → Keeps s.program → IsGrowing s r statuses m →
        slice_get r.passes i ≡ Some pass → slice_get statuses i ≡ Some (Through end) → CommitsAt s r pass }
{
    actions_are_actions();
    pass_commits_once();
    recorded_steps_are_a_pass();
}

/// The record of turns is loose, and begins with the state.
pub fn record_of_turns_is_loose()
    ensures loose { (s : RunSetting) (state : State) (width : ℕ) (digits : List ℕ) (r : Record) →
        HasForm s.program state → IsRecordOfTurns s state width digits r → IsLoose s r }
    ensures first { (s : RunSetting) (state : State) (width : ℕ) (digits : List ℕ) (r : Record) →
        IsRecordOfTurns s state width digits r → r.first ≡ state }
{
    records_grow();
}

/// A stamp after a clock and the clock of a list is above all of the list, and after all of a pass.
pub fn stamps_rise()
    ensures object { (clock : ℕ) (stamps : List ℕ) →
        All (λ (a : ℕ). a < 1 + max clock (clock_of stamps)) stamps }
    ensures pass { (clock : ℕ) (stamps : List ℕ) →
        All (λ (a : ℕ). a < 1 + max (clock_of stamps) clock) stamps }
{}

/// The record of turns is one.
pub fn record_of_turns_is_one()
    ensures { (s : RunSetting) (state : State) (width : ℕ) (digits : List ℕ) (r other : Record) →
        Keeps s.program → HasForm s.program state → IsRecordOfTurns s state width digits r →
        IsRecordOfTurns s state width digits other → r ≡ other }
{
    records_grow();
    open_pass_commits();
    machine_is_determined();
    open_passes_run();
    passes_are_numbered();
    passes_finish_or_run();
    runs_go_on();
    tickets_start_once();
}

/// A record in the making has few events: at most 2,000,302 for each pass. With at most 20,000,000 passes
/// these are far fewer than 2^63.
pub fn events_are_few()
    ensures passes { (s : RunSetting) (r : Record) (statuses : List Status) (m : Machine) → Keeps s.program →
        s.budget ≤ 1000000 → IsGrowing s r statuses m → events_in r ≤ 2000302 * length r.passes }
    ensures all { (s : RunSetting) (r : Record) (statuses : List Status) (m : Machine) → Keeps s.program →
        s.budget ≤ 1000000 → s.scheduler.rounds * copies s.scheduler ≤ 10000000 → IsGrowing s r statuses m →
        events_in r + 1 < 2 ^ 63 }
{
    pass_is_over_in_time();
    passes_finish_or_run();
    passes_are_few();
    passes_are_numbered();
}

/// Along turns no stamp reaches 2^63: none is above the number of events, and stamps are left for the next
/// event.
pub fn stamps_stay_low()
    ensures low { (s : RunSetting) (state : State) (width : ℕ) (workers : List ℕ) (x : Turning) →
        HasForm s.program state → AreTurns s workers (turning_begun s state width) x →
        IsLow x.made (events_in x.made) }
    ensures left { (s : RunSetting) (state : State) (width : ℕ) (workers : List ℕ) (x : Turning) →
        Keeps s.program → s.budget ≤ 1000000 → s.scheduler.rounds * copies s.scheduler ≤ 10000000 →
        HasForm s.program state → AreTurns s workers (turning_begun s state width) x →
        HasStampsLeft x.made }
{
    records_grow();
    events_are_few();
}
