//! Finishes and starts at the scheduler's desk.

ghost use Rattle.std.specs.Prelude.{◌≡◌, ℕ, false, true, IfOk, OnOk, MatchResult};
ghost use Rattle.pass_seats.specs.Names.{AreNames};
ghost use Rattle.pass_seats.specs.Finishes.{IsOver, Finished, FinishRefusedBy};
ghost use Rattle.worker_seats.specs.Workers.{IsSameSeat, with_core};
ghost use Rattle.worker_seats.specs.Marks.{own_marks};
ghost use Rattle.worker_seats.specs.Readies.{NoneReadied, Readied, ReadyRefused, StartAllRefused, StartedAll};
ghost use Rattle.worker_seats.specs.Readies.{NonePushed, Pushed, PushRefused};
ghost use Rattle.worker_seats.specs.Endings.{FinishAllRefused, FinishMade, FinishRefused, FinishedAll};
ghost use Rattle.worker_seats.specs.Endings.{StandingRefused, StandingTold};

use crate::{ReadyItem, WorkerSeat};
use compat_scheduler::{FinishVerdict, laws};
use pass_seats::{EngineNames, EngineRefusal, SchedDesk, SeatCore};
use quit_word::QuitWord;
use ready_queue::{ReadyQueue, ReadySeat};
use round_ledger::Standing;
use std::sync::Wait;

/// A start at the scheduler's desk, by the core of a seat, and the push of its pass.
fn push_next<N: EngineNames, R: Wait>(
    rt: &R,
    desk: &mut SchedDesk<N>,
    core: &mut SeatCore<N>,
    ready: &mut ReadySeat<ReadyItem<N>>,
    queue: &ReadyQueue<ReadyItem<N>>,
    quit: &QuitWord,
) -> Result<bool, EngineRefusal>
    requires named { AreNames N.names N.code N.first }
    requires queue { ready.old.queue ≡ queue.now }
    requires number { ready.old.row.number ≡ core.old.number }
    requires pushed { ready.old.row.pushed ≡ own_marks core.old.number core.old.note.seen }
    requires quit { quit.now ≡ N.names.quit }
    requires whole { core.old.torn ≡ false }
    ensures more { IfOk result (λ more. more ≡ true →
        Pushed desk.old.cell desk.new.cell core.old core.new ready.old ready.new) }
    ensures none { IfOk result (λ more. more ≡ false →
        NonePushed desk.old.cell desk.new.cell core.old core.new ready.old ready.new) }
    ensures refused { MatchResult result (λ _. ℕ) (λ r.
        PushRefused desk.old.cell desk.new.cell core.old core.new r × (ready.new ≡ ready.old)) }
{
    laws::passes_are_numbered();
    let issued = desk.issue(quit, core)?;
    let Some(item) = issued else {
        return Ok(false);
    };
    desk.facts();
    match queue.push(rt, ready, ReadyItem { item }) {
        Ok(()) => Ok(true),
        Err(_) => {
            core.give_up(quit);
            Err(EngineRefusal::Memory)
        }
    }
}

impl<N: EngineNames> WorkerSeat<N> {
    /// Starts the next pass and pushes it into the ready queue. False comes where no pass can start. Where the queue
    /// refuses the pass, for want of memory, the seat gives the engine up.
    pub fn ready_one<R: Wait>(
        &mut self,
        rt: &R,
        desk: &mut SchedDesk<N>,
        queue: &ReadyQueue<ReadyItem<N>>,
        quit: &QuitWord,
    ) -> Result<bool, EngineRefusal>
        requires named { AreNames N.names N.code N.first }
        requires queue { self.old.ready.queue ≡ queue.now }
        requires quit { quit.now ≡ N.names.quit }
        requires whole { self.old.core.torn ≡ false }
        ensures more { IfOk result (λ more. more ≡ true → Readied desk.old.cell desk.new.cell self.old self.new) }
        ensures none { IfOk result
            (λ more. more ≡ false → NoneReadied desk.old.cell desk.new.cell self.old self.new) }
        ensures refused { MatchResult result (λ _. ℕ)
            (ReadyRefused desk.old.cell desk.new.cell self.old self.new) }
        ensures seat { IsSameSeat self.old self.new }
    {
        push_next(rt, desk, &mut self.core, &mut self.ready, queue, quit)
    }

    /// Starts all passes that can start, one after the other, and pushes each into the ready queue. `Memory` comes
    /// where memory was refused in this call, which gives the engine up, and `Worn` where the stamp of a start would
    /// be 2^63; the starts before it stand.
    pub fn start_all<R: Wait>(
        &mut self,
        rt: &R,
        desk: &mut SchedDesk<N>,
        queue: &ReadyQueue<ReadyItem<N>>,
        quit: &QuitWord,
    ) -> Result<(), EngineRefusal>
        requires named { AreNames N.names N.code N.first }
        requires queue { self.old.ready.queue ≡ queue.now }
        requires quit { quit.now ≡ N.names.quit }
        requires whole { self.old.core.torn ≡ false }
        requires working { desk.old.cell.broken ≡ false }
        ensures done { OnOk result (StartedAll desk.old.cell desk.new.cell self.old self.new) }
        ensures refused { MatchResult result (λ _. ℕ)
            (StartAllRefused desk.old.cell desk.new.cell self.old self.new) }
        ensures seat { IsSameSeat self.old self.new }
    {
        for _ in rt.forever() {
            if !self.ready_one(rt, desk, queue, quit)? {
                return Ok(());
            }
        }
        unreachable!()
    }

    /// Finishes the pass in a slot, and starts nothing. The seat sees the scheduler's whole list first.
    pub fn finish_one(
        &mut self,
        desk: &mut SchedDesk<N>,
        quit: &QuitWord,
        slot: u64,
    ) -> Result<FinishVerdict, EngineRefusal>
        requires quit { quit.now ≡ N.names.quit }
        requires whole { self.old.core.torn ≡ false }
        requires over { IsOver self.old.core slot }
        ensures done { IfOk result
            (λ verdict. FinishMade desk.old.cell desk.new.cell self.old self.new slot verdict) }
        ensures refused { MatchResult result (λ _. ℕ)
            (FinishRefused desk.old.cell desk.new.cell self.old self.new slot) }
        ensures seat { IsSameSeat self.old self.new }
    {
        self.standing(desk, quit)?;
        self.finish_seen(desk, quit, slot)
    }

    /// Finishes the pass in a slot of a seat, and starts nothing.
    fn finish_seen(
        &mut self,
        desk: &mut SchedDesk<N>,
        quit: &QuitWord,
        slot: u64,
    ) -> Result<FinishVerdict, EngineRefusal>
        requires quit { quit.now ≡ N.names.quit }
        requires whole { self.old.core.torn ≡ false }
        requires over { IsOver self.old.core slot }
        ensures done { IfOk result
            (λ verdict. Finished desk.old.cell desk.new.cell self.old.core self.new.core slot verdict) }
        ensures refused { MatchResult result (λ _. ℕ)
            (FinishRefusedBy desk.old.cell desk.new.cell self.old.core self.new.core slot) }
        ensures rest { self.new ≡ with_core self.old self.new.core }
        ensures seat { IsSameSeat self.old self.new }
    {
        desk.finish(quit, &mut self.core, slot)
    }

    /// Finishes the pass in a slot, and then starts all passes that can start, and pushes each into the ready queue.
    pub fn finish<R: Wait>(
        &mut self,
        rt: &R,
        desk: &mut SchedDesk<N>,
        queue: &ReadyQueue<ReadyItem<N>>,
        quit: &QuitWord,
        slot: u64,
    ) -> Result<FinishVerdict, EngineRefusal>
        requires named { AreNames N.names N.code N.first }
        requires queue { self.old.ready.queue ≡ queue.now }
        requires quit { quit.now ≡ N.names.quit }
        requires whole { self.old.core.torn ≡ false }
        requires over { IsOver self.old.core slot }
        ensures done { IfOk result
            (λ verdict. FinishedAll desk.old.cell desk.new.cell self.old self.new slot verdict) }
        ensures refused { MatchResult result (λ _. ℕ)
            (FinishAllRefused desk.old.cell desk.new.cell self.old self.new slot) }
        ensures seat { IsSameSeat self.old self.new }
    {
        let verdict = self.finish_one(desk, quit, slot)?;
        self.start_all(rt, desk, queue, quit)?;
        Ok(verdict)
    }

    /// Whether the run goes on. The seat has then seen the scheduler's whole list. The refusal is `GivenUp` alone,
    /// where the scheduler's cell is broken.
    pub fn standing(
        &mut self,
        desk: &mut SchedDesk<N>,
        quit: &QuitWord,
    ) -> Result<Standing, EngineRefusal>
        requires { quit.now ≡ N.names.quit }
        ensures told { IfOk result (λ answer. StandingTold desk.old.cell self.old self.new answer) }
        ensures desk { desk.new ≡ desk.old }
        ensures refused { MatchResult result (λ _. ℕ) (StandingRefused desk.old.cell self.old self.new) }
        ensures seat { IsSameSeat self.old self.new }
    {
        desk.standing(quit, &mut self.core)
    }
}
