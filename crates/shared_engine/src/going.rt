//! What calls of the engine do at the scheduler's desk.

ghost use Rattle.std.specs.Prelude.{◌≡◌, ℕ, false, IfOk, MatchResult};
ghost use Rattle.pass_seats.specs.Names.{AreNames};
ghost use Rattle.pass_seats.specs.Finishes.{IsOver};
ghost use Rattle.worker_seats.specs.Workers.{IsSameSeat};
ghost use Rattle.shared_engine.specs.Calls.{HasFinished, FinishRefused, Stands, StandingRefused};

use compat_scheduler::FinishVerdict;
use pass_seats::{EngineNames, EngineRefusal, SchedDesk};
use quit_word::QuitWord;
use ready_queue::ReadyQueue;
use round_ledger::Standing;
use std::sync::Wait;
use worker_seats::{ReadyItem, WorkerSeat};

/// A finish at the scheduler's desk, of whatever list, with all starts after it.
pub(crate) fn finish_at<N: EngineNames, R: Wait>(
    rt: &R,
    desk: &mut SchedDesk<N>,
    queue: &ReadyQueue<ReadyItem<N>>,
    quit: &QuitWord,
    seat: &mut WorkerSeat<N>,
    slot: u64,
) -> Result<FinishVerdict, EngineRefusal>
    requires named { AreNames N.names N.code N.first }
    requires queue { seat.old.ready.queue ≡ queue.now }
    requires quit { quit.now ≡ N.names.quit }
    requires whole { seat.old.core.torn ≡ false }
    requires over { IsOver seat.old.core slot }
    ensures done { IfOk result (λ verdict. HasFinished N.names seat.old seat.new slot verdict) }
    ensures refused { MatchResult result (λ _. ℕ) (FinishRefused N.names seat.old seat.new slot) }
    ensures seat { IsSameSeat seat.old seat.new }
{
    desk.facts();
    seat.finish(rt, desk, queue, quit, slot)
}

/// Whether the run goes on, at the scheduler's desk.
pub(crate) fn standing_at<N: EngineNames>(
    desk: &mut SchedDesk<N>,
    quit: &QuitWord,
    seat: &mut WorkerSeat<N>,
) -> Result<Standing, EngineRefusal>
    requires { quit.now ≡ N.names.quit }
    ensures told { IfOk result (λ answer. Stands N.names seat.old seat.new answer) }
    ensures refused { MatchResult result (λ _. ℕ) (StandingRefused seat.old seat.new) }
    ensures seat { IsSameSeat seat.old seat.new }
{
    desk.facts();
    seat.standing(desk, quit)
}
