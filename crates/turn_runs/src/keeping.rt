//! That turns of this crate are those of the definition.

ghost use Rattle.std.specs.Prelude.{◌≡◌, ℕ, ◌+◌, ◌-◌, ◌<◌, ◌≤◌, ◌^◌, List, Option, Some, length, slice_get};
ghost use Rattle.std.specs.Prelude.{slice_set, replicate, None};
ghost use Rattle.seuss_program.specs.declared.state.State.{State};
ghost use Rattle.seuss_program.specs.Keeping.{HasForm};
ghost use Rattle.compat_scheduler.specs.Machines.{beginning};
ghost use Rattle.loose_records.specs.LooseRecords.{IsOver};
ghost use Rattle.loose_records.specs.Growing.{empty_record};
ghost use Rattle.loose_records.specs.Settings.{RunSetting};
ghost use Rattle.loose_records.specs.Turns.{worker_of};
ghost use Rattle.turn_runs.specs.declared.hand.Hand.{Hand};
ghost use Rattle.turn_runs.specs.declared.run.Run.{Run};
ghost use Rattle.turn_runs.specs.RunStates.{HasTurned, IsTurnSetting};
ghost use Rattle.turn_runs.specs.RunTurns.{MayTurn, TakesTurn};

use compat_scheduler::laws::{
    machines_are_sound, open_passes_run, passes_are_few, passes_are_numbered, something_may_start,
    tickets_start_once,
};
use loose_records::laws::{
    events_are_few, open_pass_commits, records_grow, stamps_rise, stamps_stay_low,
};
use method_code::laws::{actions_are_actions, pass_is_over_in_time};

/// At the beginning no turn was made (`begins`). After any turns each worker may take its turn (`may`), and
/// after this turn the run is that of one turn more (`turn`). Turns come to an end (`end`): in each round of
/// the workers there is an event, and events are few.
pub fn turns_go_on()
    ensures begins { (s : RunSetting) (state : State) (width : ℕ) (digits : List ℕ) (run : Run)
        (hands : List (Option Hand)) → HasForm s.program state → run.core.setting ≡ s.scheduler →
        run.core.machine ≡ beginning s.scheduler → run.made ≡ empty_record state →
        hands ≡ replicate width None → HasTurned s state width digits 0 run hands }
    ensures may { (s : RunSetting) (state : State) (width : ℕ) (digits : List ℕ) (turns : ℕ) (run : Run)
        (hands : List (Option Hand)) (worker : ℕ) (hand : Option Hand) → IsTurnSetting s →
        HasForm s.program state → HasTurned s state width digits turns run hands →
        slice_get hands worker ≡ Some hand → MayTurn run hand }
    ensures turn { (s : RunSetting) (state : State) (width : ℕ) (digits : List ℕ) (turns : ℕ)
        (old new : Run) (hands : List (Option Hand)) (hand after : Option Hand) → IsTurnSetting s →
        0 < width →
        HasForm s.program state → HasTurned s state width digits turns old hands →
        ¬ IsOver s old.core.machine → slice_get hands (worker_of width digits turns) ≡ Some hand →
        TakesTurn s.program old.core.setting s.budget old hand new after →
        new.core.setting ≡ old.core.setting →
        HasTurned s state width digits (turns + 1) new
        (slice_set hands (worker_of width digits turns) after) }
    ensures end { (s : RunSetting) (state : State) (width : ℕ) (digits : List ℕ) (turns : ℕ) (run : Run)
        (hands : List (Option Hand)) → IsTurnSetting s → width ≤ 16 → length digits < 2 ^ 63 →
        HasTurned s state width digits turns run hands → turns < 2 ^ 64 - 1 }
{
    records_grow();
    stamps_rise();
    stamps_stay_low();
    events_are_few();
    open_pass_commits();
    machines_are_sound();
    open_passes_run();
    passes_are_few();
    passes_are_numbered();
    something_may_start();
    tickets_start_once();
    actions_are_actions();
    pass_is_over_in_time();
}
