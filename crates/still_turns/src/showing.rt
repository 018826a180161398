//! That the engine shows a run by turns, from its beginning to its end.

ghost use Rattle.std.specs.Prelude.{◌≡◌, ℕ, ◌+◌, ◌-◌, ◌<◌, ◌≤◌, ◌^◌, List, None, Some, length, slice_get, slice_set};
ghost use Rattle.std.specs.Prelude.{replicate};
ghost use Rattle.seuss_program.specs.declared.state.Value.{Value};
ghost use Rattle.seuss_program.specs.Keeping.{HasForm};
ghost use Rattle.method_code.specs.declared.method.Method.{Method};
ghost use Rattle.method_code.specs.Codes.{compiled};
ghost use Rattle.loose_records.specs.declared.record.Record.{Record};
ghost use Rattle.loose_records.specs.Turns.{IsRecordOfTurns, worker_of};
ghost use Rattle.round_ledger.specs.Cells.{HasEnded};
ghost use Rattle.pass_seats.specs.Names.{Names};
ghost use Rattle.pass_seats.specs.Seats.{SeatState};
ghost use Rattle.pass_gather.specs.Given.{given_of};
ghost use Rattle.pass_gather.specs.Gathered.{IsGathered};
ghost use Rattle.pass_engine.specs.Engines.{EngineState};
ghost use Rattle.pass_engine.specs.Beginnings.{AreNewWorkers, IsNewEngine};
ghost use Rattle.turn_runs.specs.RunStates.{IsTurnSetting};
ghost use Rattle.still_turns.specs.declared.hand.InHand.{InHand};
ghost use Rattle.still_turns.specs.declared.hand.InHand.TheVariants.{Nothing};
ghost use Rattle.still_turns.specs.Shown.{AreWorkers};
ghost use Rattle.still_turns.specs.WorkerTurns.{MayWork, Works, IsSameWorker};
ghost use Rattle.still_turns.specs.Workings.{HasWorked};

use compat_scheduler::laws::{an_ended_run_stays, passes_are_numbered};
use turn_runs::keeping::turns_go_on;

/// A new engine has worked for no turn (`begins`). After any turns each worker may go on (`may`), and a turn of the
/// next worker is one turn more of the run that the engine shows (`turn`); that a worker is told whether the run
/// goes on changes nothing of it (`told`). Turns come to an end (`end`).
pub fn workers_go_on()
    ensures begins { (names : Names) (width : ℕ) (digits : List ℕ) (e : EngineState) (seats : List SeatState) →
        names.seats ≡ width → HasForm names.setting.program names.first →
        length names.boxes ≡ length names.first.boxes → IsNewEngine names e → AreNewWorkers width seats →
        HasWorked names width digits 0 e seats (replicate width Nothing) }
    ensures may { (names : Names) (width : ℕ) (digits : List ℕ) (turns : ℕ) (e : EngineState)
        (seats : List SeatState) (held : List InHand) (w : ℕ) (seat : SeatState) (h : InHand) →
        IsTurnSetting names.setting → HasForm names.setting.program names.first →
        HasWorked names width digits turns e seats held → slice_get seats w ≡ Some seat →
        slice_get held w ≡ Some h → MayWork e seat h }
    ensures turn { (names : Names) (width : ℕ) (digits : List ℕ) (turns : ℕ) (code : List Method)
        (first : ℕ → List Value) (e new : EngineState) (seats : List SeatState) (held : List InHand)
        (seat after : SeatState) (h next : InHand) → IsTurnSetting names.setting → 0 < width →
        HasForm names.setting.program names.first → HasWorked names width digits turns e seats held →
        ¬ HasEnded e.sched.setting e.sched.machine → code ≡ compiled names.setting.program →
        slice_get seats (worker_of width digits turns) ≡ Some seat →
        slice_get held (worker_of width digits turns) ≡ Some h →
        Works names code first e new seat after h next →
        HasWorked names width digits (turns + 1) new (slice_set seats (worker_of width digits turns) after)
        (slice_set held (worker_of width digits turns) next) }
    ensures told { (names : Names) (width : ℕ) (digits : List ℕ) (turns : ℕ) (e : EngineState)
        (seats : List SeatState) (held : List InHand) (w : ℕ) (seat after : SeatState) →
        HasWorked names width digits turns e seats held → slice_get seats w ≡ Some seat →
        IsSameWorker seat after → HasWorked names width digits turns e (slice_set seats w after) held }
    ensures end { (names : Names) (width : ℕ) (digits : List ℕ) (turns : ℕ) (e : EngineState)
        (seats : List SeatState) (held : List InHand) → IsTurnSetting names.setting → width ≤ 16 →
        length digits < 2 ^ 63 → HasWorked names width digits turns e seats held → turns < 2 ^ 64 - 1 }
{
    turns_go_on();
    passes_are_numbered();
    an_ended_run_stays();
}

/// What holds after any turns: nobody has given the engine up (`going`), its seats are those of its workers
/// (`workers`), each has something in hand or nothing (`held`), the scheduler has the setting of the run
/// (`setting`), and as many passes were given as were started (`given`). Where the run has ended, what is gathered
/// from the engine is the record of the turns (`made`).
pub fn workers_made_the_record()
    ensures going { (names : Names) (width : ℕ) (digits : List ℕ) (turns : ℕ) (e : EngineState)
        (seats : List SeatState) (held : List InHand) → HasWorked names width digits turns e seats held →
        e.given_up ≡ None }
    ensures workers { (names : Names) (width : ℕ) (digits : List ℕ) (turns : ℕ) (e : EngineState)
        (seats : List SeatState) (held : List InHand) → HasWorked names width digits turns e seats held →
        AreWorkers names.seats seats × (length seats ≡ width) }
    ensures held { (names : Names) (width : ℕ) (digits : List ℕ) (turns : ℕ) (e : EngineState)
        (seats : List SeatState) (held : List InHand) → HasWorked names width digits turns e seats held →
        length held ≡ width }
    ensures setting { (names : Names) (width : ℕ) (digits : List ℕ) (turns : ℕ) (e : EngineState)
        (seats : List SeatState) (held : List InHand) → HasWorked names width digits turns e seats held →
        e.sched.setting ≡ names.setting.scheduler }
    ensures given { (names : Names) (width : ℕ) (digits : List ℕ) (turns : ℕ) (e : EngineState)
        (seats : List SeatState) (held : List InHand) → HasWorked names width digits turns e seats held →
        length (given_of seats) ≡ e.sched.machine.starts }
    ensures made { (names : Names) (width : ℕ) (digits : List ℕ) (turns : ℕ) (e : EngineState)
        (seats : List SeatState) (held : List InHand) (r : Record) →
        HasWorked names width digits turns e seats held → HasEnded e.sched.setting e.sched.machine →
        IsGathered names.first e.boxes e.sched seats r →
        IsRecordOfTurns names.setting names.first width digits r }
{
    passes_are_numbered();
    an_ended_run_stays();
}
