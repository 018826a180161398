//! The seat of a worker and its calls on cells.

ghost use Rattle.std.specs.Prelude.{◌≡◌, ℕ, ◌+◌, ◌<◌, length, true, false, None};
ghost use Rattle.std.specs.Prelude.{IfOk, IfSome, OnOk, OnErr, MatchResult, MatchOption};
ghost use Rattle.method_code.specs.Plans.{AreMadeFrom};
ghost use Rattle.pass_seats.specs.Names.{table_at, AreNames};
ghost use Rattle.pass_seats.specs.Desks.{HasSeen, finishes_in};
ghost use Rattle.pass_seats.specs.Steps.{IsOpen, AdvancedAt, AdvanceRefused, IsSameBox, IsStill, Tears, sees_quit};
ghost use Rattle.pass_seats.specs.Starts.{Issued, NoneIssued, IssueRefused, Taken};
ghost use Rattle.pass_seats.specs.Finishes.{IsOver, Finished, SeatFinishRefused, Stands};

use crate::pass::{Pass, Place, Progress, SeatPass};
use crate::{EngineNames, Item};
use box_lock::BoxCell;
use compat_scheduler::{FinishVerdict, laws};
use loose_records::SchedEntry;
use method_code::{Activation, Code, Plan};
use quit_word::{QuitSeat, QuitView, QuitWord};
use round_ledger::{SchedCell, Standing};
use seuss_base::{List, Memory};
use std::alloc::Global;
use std::marker::{Model, PhantomData};
use std::sync::ledger::{Book, Share as Part};
use step_journal::{CellRefusal, Note, Share};

/// No pass has as many steps.
const MOST_CLAIMS: u64 = 1 << 32;

/// What a worker holds: its number, its place at each box, its note and share of the scheduler's journal, its view
/// of the quit word, its part of the ledger of finishes, the passes that it was given, and whether a call with this
/// seat was refused for want of memory, or gave the engine up.
#[derive(Drop)]
pub struct SeatCore<N: EngineNames> {
    pub(crate) number: u32,
    pub(crate) places: Vec<Place>,
    pub(crate) note: Note<SchedEntry>,
    pub(crate) share: Share,
    pub(crate) quit: QuitSeat,
    pub(crate) part: Part<N>,
    pub(crate) passes: Vec<SeatPass>,
    pub(crate) torn: bool,
}

impl<N: EngineNames> Model for SeatCore<N> {
    ghost use Rattle.pass_seats.specs.Seats.{SeatState, IsSeat};

    ghost Value = { SeatState };

    ghost view = { λ s. record {
      number = s.number;
      places = s.places.items;
      note = s.note;
      share = s.share;
      quit = s.quit;
      parts = s.part.parts;
      amount = s.part.amount;
      passes = s.passes.items;
      torn = s.torn;
    } };

    ghost invariant = { λ s. IsSeat N.names (record {
      number = s.number;
      places = s.places.items;
      note = s.note;
      share = s.share;
      quit = s.quit;
      parts = s.part.parts;
      amount = s.part.amount;
      passes = s.passes.items;
      torn = s.torn;
    }) };
}

impl<N: EngineNames> SeatCore<N> {
    /// The number of the seat.
    pub fn number(&self) -> u32
        ensures { result ≡ self.now.number }
    {
        self.number
    }

    /// Whom the quit word names, by one look. The seat has then seen that.
    pub fn look(&mut self, quit: &QuitWord) -> Option<u32>
        requires { quit.now ≡ N.names.quit }
        ensures { MatchOption result ((self.new ≡ self.old) × (self.old.quit.seen ≡ None)
            × (self.old.torn ≡ false)) (λ by. self.new ≡ sees_quit self.old by) }
    {
        quit.look(&mut self.quit)
    }

    /// Whom the quit word names, by one look beside a view that has seen somebody.
    pub fn look_beside(&mut self, quit: &QuitWord, view: &mut QuitView) -> u32
        requires names { (quit.now ≡ N.names.quit) × (view.old.name ≡ N.names.quit) }
        requires seen { HasSeen view.old.seen }
        ensures seat { self.new ≡ sees_quit self.old result }
        ensures view { view.new ≡ view.old }
    {
        quit.look_beside(&mut self.quit, view)
    }

    /// A view that has seen what the seat has.
    pub fn tell(&mut self, quit: &QuitWord) -> QuitView
        requires { quit.now ≡ N.names.quit }
        ensures seat { self.new ≡ self.old }
        ensures view { result ≡ record { seen = self.old.quit.seen; name = N.names.quit } }
    {
        quit.tell(&mut self.quit)
    }

    /// Gives the engine up. It takes no memory.
    pub fn give_up(&mut self, quit: &QuitWord)
        requires { quit.now ≡ N.names.quit }
        ensures torn { Tears self.old self.new }
        ensures same { (self.new.passes ≡ self.old.passes) × (self.new.places ≡ self.old.places)
            × (self.new.note ≡ self.old.note) }
    {
        quit.quit(&mut self.quit);
        self.torn = true;
    }

    /// The box of the next step of the pass in a slot.
    pub fn box_of(&self, slot: u64) -> u32
        requires { (b : ℕ) × IsOpen self.now slot b }
        ensures open { IsOpen self.now slot result }
        ensures there { self.now.torn ≡ false → result < length N.names.boxes }
    {
        self.passes[slot as usize].control.box_of()
    }

    /// Makes one step of the pass in a slot, on the box of its next step.
    pub fn advance(
        &mut self,
        alloc: Global,
        cell: &mut BoxCell<N>,
        code: &Code,
        plan: &Plan,
        quit: &QuitWord,
        slot: u64,
    ) -> Result<Progress, CellRefusal>
        requires named { AreNames N.names N.code N.first }
        requires code { code.now ≡ N.code }
        requires made { AreMadeFrom N.names.setting.program code.now plan.now }
        requires quit { quit.now ≡ N.names.quit }
        requires whole { self.old.torn ≡ false }
        requires open { IsOpen self.old slot cell.old.number }
        requires journal { cell.old.journal.name ≡ table_at N.names cell.old.number }
        ensures done { IfOk result (λ progress. AdvancedAt N.names.setting.program N.code N.first cell.old cell.new
            self.old self.new slot progress) }
        ensures cell { IsSameBox cell.old cell.new }
        ensures refused { MatchResult result (λ _. ℕ) (AdvanceRefused cell.old self.old self.new slot) }
        ensures still { MatchResult result (λ _. ℕ) (IsStill cell.old cell.new) }
    {
        let b = cell.number() as usize;
        let k = slot as usize;
        if self.passes[k].claims.len() >= MOST_CLAIMS {
            self.give_up(quit);
            return Err(CellRefusal::Memory);
        }
        let place = &mut self.places[b];
        match self.passes[k].step(alloc, cell, code, plan, place) {
            Ok(progress) => Ok(progress),
            Err(CellRefusal::Memory) => {
                quit.quit(&mut self.quit);
                self.torn = true;
                Err(CellRefusal::Memory)
            }
            Err(CellRefusal::Worn(stamp)) => Err(CellRefusal::Worn(stamp)),
            Err(CellRefusal::Broken) => Err(CellRefusal::Broken),
        }
    }

    /// Starts the next pass, by the seat's note. No seat has taken the pass yet. None comes where no pass can
    /// start.
    pub fn issue(
        &mut self,
        cell: &mut SchedCell,
        quit: &QuitWord,
    ) -> Result<Option<Item<N>>, CellRefusal>
        requires named { AreNames N.names N.code N.first }
        requires quit { quit.now ≡ N.names.quit }
        requires whole { self.old.torn ≡ false }
        requires sched { (cell.old.journal.name ≡ N.names.sched) × (cell.old.seats ≡ N.names.seats)
            × (cell.old.setting ≡ N.names.setting.scheduler) }
        ensures some { IfOk result (λ r. IfSome r (Issued cell.old cell.new self.old self.new)) }
        ensures none { IfOk result
            (λ r. MatchOption r (NoneIssued cell.old cell.new self.old self.new) (λ _. ℕ)) }
        ensures finishes { finishes_in cell.new.journal.log ≡ finishes_in cell.old.journal.log }
        ensures still { (cell.new.journal.name ≡ cell.old.journal.name) × (cell.new.seats ≡ cell.old.seats)
            × (cell.new.setting ≡ cell.old.setting) }
        ensures refused { MatchResult result (λ _. ℕ) (IssueRefused cell.old cell.new self.old self.new) }
    {
        laws::tickets_are_lawful();
        let mut clock = 0;
        match cell.start(&mut clock, &mut self.note, &mut self.share) {
            Ok(Some((ticket, receipt, note, share))) => {
                cell.facts();
                Ok(Some(Item {
                    ticket,
                    stamp: receipt.stamp,
                    seat: self.number,
                    note,
                    share,
                    of: PhantomData,
                }))
            }
            Ok(None) => Ok(None),
            Err(CellRefusal::Memory) => {
                quit.quit(&mut self.quit);
                self.torn = true;
                Err(CellRefusal::Memory)
            }
            Err(CellRefusal::Worn(stamp)) => Err(CellRefusal::Worn(stamp)),
            Err(CellRefusal::Broken) => Err(CellRefusal::Broken),
        }
    }

    /// Takes room for one pass more. Where there is none the seat gives the engine up.
    pub fn make_room(&mut self, quit: &QuitWord) -> Result<(), Memory>
        requires { quit.now ≡ N.names.quit }
        ensures room { OnOk result (self.new ≡ self.old) }
        ensures refused { OnErr result (Tears self.old self.new) }
    {
        match self.passes.reserve(1) {
            Ok(()) => Ok(()),
            Err(_) => {
                self.give_up(quit);
                Err(Memory)
            }
        }
    }

    /// Takes a started pass as the seat's own, with this budget.
    pub fn take(
        &mut self,
        alloc: Global,
        code: &Code,
        plan: &Plan,
        quit: &QuitWord,
        budget: u64,
        item: Item<N>,
    ) -> Result<Pass, Memory>
        requires named { AreNames N.names N.code N.first }
        requires made { AreMadeFrom N.names.setting.program code.now plan.now }
        requires quit { quit.now ≡ N.names.quit }
        requires budget { budget ≡ N.names.setting.budget }
        ensures taken { IfOk result (λ pass. Taken N.names self.old self.new item pass) }
        ensures refused { OnErr result (Tears self.old self.new) }
    {
        let Item {
            ticket,
            stamp,
            seat,
            note,
            share,
            of: _,
        } = item;
        let slot = self.passes.len() as u64;
        let Ok(control) = Activation::begin_by(alloc, code, plan, ticket.action) else {
            self.give_up(quit);
            return Err(Memory);
        };
        let pass = SeatPass {
            ticket,
            by: seat,
            started: stamp,
            clock: stamp,
            budget,
            control,
            over: None,
            claims: List::new(alloc),
            commit: None,
            note,
            share,
            done: None,
        };
        let Ok(()) = self.passes.push(pass) else {
            self.give_up(quit);
            return Err(Memory);
        };
        Ok(Pass { slot, ticket })
    }

    /// Finishes the pass in a slot, and counts the finish in the book and in the seat's part.
    pub fn finish(
        &mut self,
        cell: &mut SchedCell,
        book: &mut Book<N>,
        quit: &QuitWord,
        slot: u64,
    ) -> Result<FinishVerdict, CellRefusal>
        requires quit { quit.now ≡ N.names.quit }
        requires whole { self.old.torn ≡ false }
        requires over { IsOver self.old slot }
        requires sched { (cell.old.journal.name ≡ N.names.sched) × (cell.old.seats ≡ N.names.seats)
            × (cell.old.setting ≡ N.names.setting.scheduler) }
        ensures done { IfOk result (λ verdict. Finished cell.old cell.new self.old self.new slot verdict) }
        ensures counted { OnOk result ((book.new.total ≡ book.old.total + 1)
            × (finishes_in cell.new.journal.log ≡ finishes_in cell.old.journal.log + 1)) }
        ensures uncounted { OnErr result ((book.new.total ≡ book.old.total)
            × (cell.new.journal.log ≡ cell.old.journal.log)) }
        ensures still { (cell.new.journal.name ≡ cell.old.journal.name) × (cell.new.seats ≡ cell.old.seats)
            × (cell.new.setting ≡ cell.old.setting) }
        ensures refused { MatchResult result (λ _. ℕ)
            (SeatFinishRefused cell.old cell.new self.old self.new slot) }
    {
        let k = slot as usize;
        match self.passes[k].finish(cell) {
            Ok(verdict) => {
                book.add(&mut self.part, 1);
                Ok(verdict)
            }
            Err(CellRefusal::Memory) => {
                quit.quit(&mut self.quit);
                self.torn = true;
                Err(CellRefusal::Memory)
            }
            Err(CellRefusal::Worn(stamp)) => Err(CellRefusal::Worn(stamp)),
            Err(CellRefusal::Broken) => Err(CellRefusal::Broken),
        }
    }

    /// Whether the run goes on. The seat has then seen the scheduler's whole list. The refusal is `Broken` alone.
    pub fn standing(&mut self, cell: &mut SchedCell) -> Result<Standing, CellRefusal>
        requires { cell.old.journal.name ≡ N.names.sched }
        ensures standing { IfOk result (λ answer. Stands cell.old self.old self.new answer) }
        ensures cell { cell.new ≡ cell.old }
        ensures broken { OnErr result ((cell.old.broken ≡ true) × (self.new ≡ self.old)) }
    {
        let standing = cell.standing(&mut self.note)?;
        Ok(standing)
    }
}

fn needs_send<T: Send>() {}

/// A seat, its places and its passes, and started passes may go to other threads.
pub fn seats_cross<N: EngineNames + Send>() {
    needs_send::<Place>();
    needs_send::<SeatPass>();
    needs_send::<SeatCore<N>>();
    needs_send::<Item<N>>();
    needs_send::<Pass>();
}
