//! The desks: a cell with a view of the quit word, at which whoever holds the desk looks.

ghost use Rattle.std.specs.Prelude.{◌≡◌, ℕ, false, IfOk, IfSome, MatchResult, MatchOption};
ghost use Rattle.method_code.specs.Plans.{AreMadeFrom};
ghost use Rattle.pass_seats.specs.Names.{AreNames};
ghost use Rattle.pass_seats.specs.Steps.{IsOpen, AdvancedAt, DeskRefused, IsSameBox, IsStillBy};
ghost use Rattle.pass_seats.specs.Starts.{Issued, NoneIssued, IssueRefusedBy};
ghost use Rattle.pass_seats.specs.Finishes.{IsOver, Finished, FinishRefusedBy, Stands, StandingRefusedBy};

use crate::{EngineNames, EngineRefusal, Item, Progress, SeatCore};
use box_lock::BoxCell;
use compat_scheduler::FinishVerdict;
use method_code::{Code, Plan};
use quit_word::{QuitFirst, QuitView, QuitWord};
use round_ledger::{SchedCell, Standing};
use std::alloc::Global;
use std::marker::Model;
use std::sync::ledger::Book;
use step_journal::CellRefusal;

/// The cell of a box with a view of the quit word. Where the cell is broken the view has seen who gave up.
#[derive(Drop)]
pub struct BoxDesk<N: EngineNames> {
    pub(crate) cell: BoxCell<N>,
    pub(crate) quit: QuitView,
}

impl<N: EngineNames> Model for BoxDesk<N> {
    ghost use Rattle.pass_seats.specs.Desks.{BoxDeskState, IsBoxDesk};

    ghost Value = { BoxDeskState };

    ghost view = { λ d. record { cell = d.cell; quit = d.quit } };

    ghost invariant = { λ d. IsBoxDesk N.names (record { cell = d.cell; quit = d.quit }) };
}

/// The scheduler's cell with a view of the quit word, the book that counts the finishes, and the first view, which
/// lies here until the engine is taken apart. Where the cell is broken the view has seen who gave up.
#[derive(Drop)]
pub struct SchedDesk<N: EngineNames> {
    pub(crate) cell: SchedCell,
    pub(crate) quit: QuitView,
    pub(crate) first: QuitFirst,
    pub(crate) book: Book<N>,
}

impl<N: EngineNames> Model for SchedDesk<N> {
    ghost use Rattle.pass_seats.specs.Desks.{SchedDeskState, IsSchedDesk};

    ghost Value = { SchedDeskState };

    ghost view = { λ d. record { cell = d.cell; quit = d.quit; first = d.first; total = d.book.total } };

    ghost invariant = { λ d. IsSchedDesk N.names
        (record { cell = d.cell; quit = d.quit; first = d.first; total = d.book.total }) };
}

impl<N: EngineNames> BoxDesk<N> {
    /// Makes one step of the pass in a slot of a seat, on this box. Where memory is refused the view has then seen
    /// who gave up; where the cell is broken the seat has.
    pub fn advance(
        &mut self,
        alloc: Global,
        code: &Code,
        plan: &Plan,
        quit: &QuitWord,
        seat: &mut SeatCore<N>,
        slot: u64,
    ) -> Result<Progress, EngineRefusal>
        requires named { AreNames N.names N.code N.first }
        requires code { code.now ≡ N.code }
        requires made { AreMadeFrom N.names.setting.program code.now plan.now }
        requires quit { quit.now ≡ N.names.quit }
        requires whole { seat.old.torn ≡ false }
        requires open { IsOpen seat.old slot self.old.cell.number }
        ensures done { IfOk result (λ progress. AdvancedAt N.names.setting.program N.code N.first self.old.cell
            self.new.cell seat.old seat.new slot progress) }
        ensures cell { IsSameBox self.old.cell self.new.cell }
        ensures refused { MatchResult result (λ _. ℕ) (DeskRefused self.old.cell seat.old seat.new slot) }
        ensures still { MatchResult result (λ _. ℕ) (IsStillBy self.old.cell self.new.cell) }
    {
        match seat.advance(alloc, &mut self.cell, code, plan, quit, slot) {
            Ok(progress) => Ok(progress),
            Err(CellRefusal::Memory) => {
                self.quit = seat.tell(quit);
                Err(EngineRefusal::Memory)
            }
            Err(CellRefusal::Worn(stamp)) => Err(EngineRefusal::Worn(stamp)),
            Err(CellRefusal::Broken) => {
                let by = seat.look_beside(quit, &mut self.quit);
                Err(EngineRefusal::GivenUp(by))
            }
        }
    }
}

impl<N: EngineNames> SchedDesk<N> {
    /// Starts the next pass, by a seat's note. No seat has taken the pass yet. None comes where no pass can start.
    pub fn issue(
        &mut self,
        quit: &QuitWord,
        seat: &mut SeatCore<N>,
    ) -> Result<Option<Item<N>>, EngineRefusal>
        requires named { AreNames N.names N.code N.first }
        requires quit { quit.now ≡ N.names.quit }
        requires whole { seat.old.torn ≡ false }
        ensures some { IfOk result (λ r. IfSome r (Issued self.old.cell self.new.cell seat.old seat.new)) }
        ensures none { IfOk result
            (λ r. MatchOption r (NoneIssued self.old.cell self.new.cell seat.old seat.new) (λ _. ℕ)) }
        ensures refused { MatchResult result (λ _. ℕ)
            (IssueRefusedBy self.old.cell self.new.cell seat.old seat.new) }
    {
        match seat.issue(&mut self.cell, quit) {
            Ok(item) => Ok(item),
            Err(CellRefusal::Memory) => {
                self.quit = seat.tell(quit);
                Err(EngineRefusal::Memory)
            }
            Err(CellRefusal::Worn(stamp)) => Err(EngineRefusal::Worn(stamp)),
            Err(CellRefusal::Broken) => {
                let by = seat.look_beside(quit, &mut self.quit);
                Err(EngineRefusal::GivenUp(by))
            }
        }
    }

    /// Finishes the pass in a slot of a seat, and counts it.
    pub fn finish(
        &mut self,
        quit: &QuitWord,
        seat: &mut SeatCore<N>,
        slot: u64,
    ) -> Result<FinishVerdict, EngineRefusal>
        requires quit { quit.now ≡ N.names.quit }
        requires whole { seat.old.torn ≡ false }
        requires over { IsOver seat.old slot }
        ensures done { IfOk result
            (λ verdict. Finished self.old.cell self.new.cell seat.old seat.new slot verdict) }
        ensures refused { MatchResult result (λ _. ℕ)
            (FinishRefusedBy self.old.cell self.new.cell seat.old seat.new slot) }
    {
        match seat.finish(&mut self.cell, &mut self.book, quit, slot) {
            Ok(verdict) => Ok(verdict),
            Err(CellRefusal::Memory) => {
                self.quit = seat.tell(quit);
                Err(EngineRefusal::Memory)
            }
            Err(CellRefusal::Worn(stamp)) => Err(EngineRefusal::Worn(stamp)),
            Err(CellRefusal::Broken) => {
                let by = seat.look_beside(quit, &mut self.quit);
                Err(EngineRefusal::GivenUp(by))
            }
        }
    }

    /// Whether the run goes on. The seat has then seen the scheduler's whole list. The refusal is `GivenUp` alone.
    pub fn standing(
        &mut self,
        quit: &QuitWord,
        seat: &mut SeatCore<N>,
    ) -> Result<Standing, EngineRefusal>
        requires { quit.now ≡ N.names.quit }
        ensures standing { IfOk result (λ answer. Stands self.old.cell seat.old seat.new answer) }
        ensures desk { self.new ≡ self.old }
        ensures refused { MatchResult result (λ _. ℕ) (StandingRefusedBy self.old.cell seat.old seat.new) }
    {
        match seat.standing(&mut self.cell) {
            Ok(standing) => Ok(standing),
            Err(_) => {
                let by = seat.look_beside(quit, &mut self.quit);
                Err(EngineRefusal::GivenUp(by))
            }
        }
    }
}

fn needs_send<T: Send>() {}

fn needs_sync<T: Sync>() {}

/// The desks may lie under locks and in turns, and the quit word may be shared.
pub fn desks_cross<N: EngineNames + Send + Sync>() {
    needs_send::<BoxDesk<N>>();
    needs_send::<SchedDesk<N>>();
    needs_sync::<QuitWord>();
}
