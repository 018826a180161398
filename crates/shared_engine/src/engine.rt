//! The threaded engine and its calls.

ghost use Rattle.std.specs.Prelude.{◌≡◌, ℕ, IfOk, IfSome, MatchOption, MatchResult, OnOk};
ghost use Rattle.pass_seats.specs.Steps.{Tears};
ghost use Rattle.pass_seats.specs.Slots.{HasStep, MayGoOn};
ghost use Rattle.pass_seats.specs.Finishes.{IsOver};
ghost use Rattle.worker_seats.specs.Workers.{IsSameSeat, with_core};
ghost use Rattle.worker_seats.specs.Takes.{Started, NoneStarted, StartRefused};
ghost use Rattle.shared_engine.specs.Rings.{IsSeatOf};
ghost use Rattle.shared_engine.specs.Calls.{Tried, TryRefused, Advanced, AdvanceRefused, HasFinished};
ghost use Rattle.shared_engine.specs.Calls.{FinishRefused, Stands, StandingRefused};
ghost use Rattle.shared_engine.specs.Calls.{KeepsOthers, KeepsPasses, MayTryOn};

use crate::going::{finish_at, standing_at};
use box_turn::BoxTurn;
use compat_scheduler::FinishVerdict;
use method_code::{Code, Plan};
use pass_seats::laws::passes_go_on;
use pass_seats::{EngineNames, EngineRefusal, Pass, Progress, SchedDesk};
use quit_word::QuitWord;
use ready_queue::ReadyQueue;
use round_ledger::Standing;
use seuss_program::State;
use std::alloc::Global;
use std::marker::Model;
use std::sync::{Mutex, Wait};
use std::thread;
use worker_seats::{ReadyItem, TryProgress, TurnDesk, WorkerSeat};

/// What an engine runs, from which state, and with which budget of each pass.
#[derive(Drop)]
pub(crate) struct Running<'a> {
    pub(crate) code: &'a Code,
    pub(crate) plan: &'a Plan,
    pub(crate) first: State,
    pub(crate) budget: u64,
}

/// The engine for several threads, which share it. Each box lies in a turn of its own, the scheduler under a lock, and
/// started passes in the ready queue. No call holds two boxes, nor a box and the scheduler. Contracts see which
/// turns and which queue these are.
#[derive(Drop)]
pub struct Engine<'a, N: EngineNames> {
    pub(crate) running: Running<'a>,
    pub(crate) boxes: Vec<BoxTurn<TurnDesk<N>>>,
    pub(crate) queue: ReadyQueue<ReadyItem<N>>,
    pub(crate) sched: Mutex<SchedDesk<N>>,
    pub(crate) quit: QuitWord,
}

impl<'a, N: EngineNames> Model for Engine<'a, N> {
    ghost use Rattle.std.specs.Prelude.{◌≡◌, length};
    ghost use Rattle.worker_seats.specs.Workers.{Ring};
    ghost use Rattle.shared_engine.specs.Rings.{ring_with, AreTurns, IsSetUp};

    ghost Value = { Ring };

    ghost view = { λ e. ring_with e.boxes.items e.queue };

    ghost invariant = { λ e.
        IsSetUp N.names N.code N.first N.parts e.running.code.now e.running.plan.now e.running.first
        e.running.budget e.quit
        × (length e.boxes.items ≡ length N.names.boxes) × AreTurns N.names e.boxes.items };
}

impl<'a, N: EngineNames> Engine<'a, N> {
    /// Takes a started pass from the ready queue, by one pop, and gives it to a seat, where it has a next step. It makes
    /// no entry. None comes exactly where this pop found the queue empty, and says nothing of what is pushed after that.
    /// `GivenUp` comes exactly where this call's look found who gave the engine up, and `Memory` where memory was
    /// refused in this call, which gives the engine up.
    pub fn start<R: Wait>(
        &self,
        rt: &R,
        alloc: Global,
        seat: &mut WorkerSeat<N>,
    ) -> Result<Option<Pass>, EngineRefusal>
        requires of { IsSeatOf self.now seat.old }
        ensures some { IfOk result (λ r. IfSome r (Started N.names seat.old seat.new)) }
        ensures none { IfOk result (λ r. MatchOption r (NoneStarted seat.old seat.new) (λ _. ℕ)) }
        ensures open { IfOk result (λ r. IfSome r (λ pass. HasStep seat.new.core pass.slot)) }
        ensures kept { OnOk result (KeepsPasses seat.old seat.new) }
        ensures refused { MatchResult result (λ _. ℕ) (StartRefused seat.old seat.new) }
        ensures seat { IsSameSeat seat.old seat.new }
    {
        passes_go_on();
        if let Some(by) = seat.look(&self.quit) {
            return Err(EngineRefusal::GivenUp(by));
        }
        match seat.start(
            rt,
            alloc,
            self.running.code,
            self.running.plan,
            &self.queue,
            &self.quit,
            self.running.budget,
        ) {
            Ok(started) => Ok(started),
            Err(_) => Err(EngineRefusal::Memory),
        }
    }

    /// Makes one step of a pass of a seat that isn't over, where no other seat holds the box at which it is. The pass
    /// then has a next step, or is over and may be finished, as the answer says. It doesn't wait. `Busy` comes
    /// exactly where this call's one compare and exchange found the box taken: the seat counts one miss more, and
    /// nothing else of it has changed. `GivenUp` comes exactly where a look of this call found who gave the engine
    /// up, `Memory` where memory was refused in this call, which gives the engine up, and `Worn` where the stamp of
    /// the step would be 2^63.
    pub fn try_advance(
        &self,
        alloc: Global,
        seat: &mut WorkerSeat<N>,
        pass: &mut Pass,
    ) -> Result<TryProgress, EngineRefusal>
        requires of { IsSeatOf self.now seat.old }
        requires open { HasStep seat.old.core pass.old.slot }
        ensures done { IfOk result (λ progress. Tried N.names.setting.program N.code N.first
            seat.old seat.new pass.old.slot progress) }
        ensures next { IfOk result (λ progress. MayTryOn progress seat.new.core pass.old.slot) }
        ensures others { OnOk result (KeepsOthers seat.old seat.new pass.old.slot) }
        ensures pass { pass.new ≡ pass.old }
        ensures refused { MatchResult result (λ _. ℕ) (TryRefused seat.old seat.new pass.old.slot) }
        ensures seat { IsSameSeat seat.old seat.new }
    {
        passes_go_on();
        seat.facts();
        if let Some(by) = seat.look(&self.quit) {
            return Err(EngineRefusal::GivenUp(by));
        }
        let slot = pass.slot();
        let number = seat.box_of(slot);
        let turn = &self.boxes[number as usize];
        seat.try_step(
            alloc,
            turn,
            self.running.code,
            self.running.plan,
            &self.quit,
            slot,
            number,
        )
    }

    /// Makes one step of a pass of a seat that isn't over, and waits for the box at which it is, by tries. It looks
    /// at the quit word ahead of each. The refusals are those of `try_advance`.
    pub fn advance<R: Wait>(
        &self,
        rt: &R,
        alloc: Global,
        seat: &mut WorkerSeat<N>,
        pass: &mut Pass,
    ) -> Result<Progress, EngineRefusal>
        requires of { IsSeatOf self.now seat.old }
        requires open { HasStep seat.old.core pass.old.slot }
        ensures done { IfOk result (λ progress. Advanced N.names.setting.program N.code N.first
            seat.old seat.new pass.old.slot progress) }
        ensures next { IfOk result (λ progress. MayGoOn progress seat.new.core pass.old.slot) }
        ensures others { OnOk result (KeepsOthers seat.old seat.new pass.old.slot) }
        ensures pass { pass.new ≡ pass.old }
        ensures refused { MatchResult result (λ _. ℕ) (AdvanceRefused seat.old seat.new pass.old.slot) }
        ensures seat { IsSameSeat seat.old seat.new }
    {
        for _ in rt.forever() {
            match self.try_advance(alloc, seat, pass) {
                Ok(TryProgress::Busy) => thread::yield_now(),
                Ok(TryProgress::Over) => return Ok(Progress::Over),
                Ok(TryProgress::Stepped) => return Ok(Progress::Stepped),
                Err(refusal) => return Err(refusal),
            }
        }
        unreachable!()
    }

    /// Finishes a pass of a seat that is over, and then, under the same lock, starts all passes that can start and
    /// pushes each into the ready queue; the answer is the verdict on the pass. After a refusal the pass is dropped.
    /// `GivenUp` comes exactly where a look of this call found who gave the engine up, `Memory` where memory was
    /// refused in this call, which gives the engine up, and `Worn` where the stamp of the finish or of one of the
    /// starts would be 2^63; the entries before it stand.
    pub fn finish<R: Wait>(
        &self,
        rt: &R,
        seat: &mut WorkerSeat<N>,
        pass: Pass,
    ) -> Result<FinishVerdict, EngineRefusal>
        requires of { IsSeatOf self.now seat.old }
        requires over { IsOver seat.old.core pass.slot }
        ensures done { IfOk result (λ verdict. HasFinished N.names seat.old seat.new pass.slot verdict) }
        ensures others { OnOk result (KeepsOthers seat.old seat.new pass.slot) }
        ensures refused { MatchResult result (λ _. ℕ) (FinishRefused N.names seat.old seat.new pass.slot) }
        ensures seat { IsSameSeat seat.old seat.new }
    {
        if let Some(by) = seat.look(&self.quit) {
            return Err(EngineRefusal::GivenUp(by));
        }
        let mut desk = self.sched.lock(rt);
        finish_at(rt, &mut desk, &self.queue, &self.quit, seat, pass.slot())
    }

    /// Whether the run goes on. The seat has then seen the scheduler's whole list. The call takes no memory, and the
    /// refusal is `GivenUp` alone, exactly where a look of this call found who gave the engine up.
    pub fn standing<R: Wait>(
        &self,
        rt: &R,
        seat: &mut WorkerSeat<N>,
    ) -> Result<Standing, EngineRefusal>
        ensures told { IfOk result (λ answer. Stands N.names seat.old seat.new answer) }
        ensures kept { OnOk result (KeepsPasses seat.old seat.new) }
        ensures refused { MatchResult result (λ _. ℕ) (StandingRefused seat.old seat.new) }
        ensures seat { IsSameSeat seat.old seat.new }
    {
        if let Some(by) = seat.look(&self.quit) {
            return Err(EngineRefusal::GivenUp(by));
        }
        let mut desk = self.sched.lock(rt);
        standing_at(&mut desk, &self.quit, seat)
    }

    /// Gives the engine up for a seat. It takes no memory and doesn't wait, and the first to give up counts.
    pub fn give_up(&self, seat: &mut WorkerSeat<N>)
        ensures torn { Tears seat.old.core seat.new.core }
        ensures same { (seat.new.core.passes ≡ seat.old.core.passes)
            × (seat.new.core.places ≡ seat.old.core.places) × (seat.new.core.note ≡ seat.old.core.note) }
        ensures rest { seat.new ≡ with_core seat.old seat.new.core }
    {
        seat.give_up(&self.quit);
    }
}

fn needs_sync<T: Sync>() {}

/// The engine may be shared.
pub fn engine_crosses<'a, N: EngineNames + Send + Sync>() {
    needs_sync::<Engine<'a, N>>();
}
