//! Steps at boxes that lie in turns.

ghost use Rattle.std.specs.Prelude.{◌≡◌, ℕ, false, IfOk, MatchResult, Some, slice_get};
ghost use Rattle.method_code.specs.Plans.{AreMadeFrom};
ghost use Rattle.box_turn.specs.Seats as T;
ghost use Rattle.pass_seats.specs.Names.{AreNames};
ghost use Rattle.pass_seats.specs.Steps.{IsOpen};
ghost use Rattle.worker_seats.specs.Workers.{IsSameSeat};
ghost use Rattle.worker_seats.specs.Tries.{Tries, StepRefused, as_tried};

use crate::{TryProgress, TurnDesk, WorkerSeat};
use box_turn::BoxTurn;
use method_code::{Code, Plan};
use pass_seats::{EngineNames, EngineRefusal, Progress};
use quit_word::QuitWord;
use std::alloc::Global;

/// What a step answers, as a try answers it.
fn tried(made: Result<Progress, EngineRefusal>) -> Result<TryProgress, EngineRefusal>
    ensures { result ≡ as_tried made }
{
    match made {
        Ok(Progress::Over) => Ok(TryProgress::Over),
        Ok(Progress::Stepped) => Ok(TryProgress::Stepped),
        Err(refusal) => Err(refusal),
    }
}

impl<N: EngineNames> WorkerSeat<N> {
    /// Makes one step of the pass in a slot, on the box with this number and turn, where no other seat holds it. It
    /// doesn't wait. `Busy` comes exactly where this call's one compare and exchange found the box taken: the seat
    /// then counts one miss more, and nothing else has changed.
    pub fn try_step(
        &mut self,
        alloc: Global,
        turn: &BoxTurn<TurnDesk<N>>,
        code: &Code,
        plan: &Plan,
        quit: &QuitWord,
        slot: u64,
        number: u32,
    ) -> Result<TryProgress, EngineRefusal>
        requires named { AreNames N.names N.code N.first }
        requires code { code.now ≡ N.code }
        requires made { AreMadeFrom N.names.setting.program code.now plan.now }
        requires quit { quit.now ≡ N.names.quit }
        requires whole { self.old.core.torn ≡ false }
        requires open { IsOpen self.old.core slot number }
        requires turn { (t : T.SeatState ℕ) × (slice_get self.old.turns number ≡ Some t)
            × (t.turn ≡ turn.now.name) }
        ensures done { IfOk result (λ progress. Tries N.names.setting.program N.code N.first self.old self.new
            slot number progress) }
        ensures refused { MatchResult result (λ _. ℕ) (StepRefused self.old self.new slot number) }
        ensures seat { IsSameSeat self.old self.new }
    {
        let seat = &mut self.turns[number as usize];
        let Some(mut held) = turn.try_take(seat) else {
            return Ok(TryProgress::Busy);
        };
        let made = held.advance(alloc, code, plan, quit, &mut self.core, slot);
        turn.give(seat, held);
        tried(made)
    }
}
