//! Desks, seats and passes, taken apart once their engine has ended.

ghost use Rattle.std.specs.Prelude.{◌≡◌, All};
ghost use Rattle.compat_scheduler.specs.Runs.{IsRun};
ghost use Rattle.round_ledger.specs.Cells.{IsOwned, log_events};
ghost use Rattle.pass_seats.specs.Desks.{IsBoxDesk, IsSchedDesk};
ghost use Rattle.pass_seats.specs.Seats.{IsSeat};

use crate::pass::{Done, Place, SeatPass};
use crate::{BoxDesk, EngineNames, SchedDesk, SeatCore};
use box_lock::BoxCell;
use compat_scheduler::Ticket;
use loose_records::{BoxEntry, Claim, SchedEntry};
use quit_word::{QuitFirst, QuitSeat, QuitView};
use round_ledger::SchedCell;
use seuss_base::{List, PassEnd};
use std::sync::ledger::{Book, Share as Part};
use step_journal::{Note, Share};

/// The parts of a seat.
#[derive(Drop)]
pub struct SeatParts<N: EngineNames> {
    pub places: Vec<Place>,
    pub note: Note<SchedEntry>,
    pub share: Share,
    pub quit: QuitSeat,
    pub part: Part<N>,
    pub passes: Vec<SeatPass>,
}

/// The parts of a pass: its ticket, its claims with the number of its commit step, its end and its finish, and the
/// note and the share that came with the ticket.
#[derive(Drop)]
pub struct PassParts {
    pub ticket: Ticket,
    pub claims: List<Claim>,
    pub commit: Option<u32>,
    pub over: Option<PassEnd>,
    pub done: Option<Done>,
    pub note: Note<SchedEntry>,
    pub share: Share,
}

impl Place {
    /// The note and the share.
    pub fn apart(self) -> (Note<BoxEntry>, Share)
        ensures note { result.0 ≡ self.note }
        ensures share { result.1 ≡ self.share }
    {
        let Place { note, share } = self;
        (note, share)
    }
}

impl SeatPass {
    /// The parts of the pass.
    pub fn apart(self) -> PassParts
        ensures ticket { result.ticket ≡ self.ticket }
        ensures claims { result.claims ≡ self.claims }
        ensures commit { result.commit ≡ self.commit }
        ensures end { (result.over ≡ self.over) × (result.done ≡ self.done) }
        ensures note { result.note ≡ self.note }
        ensures share { result.share ≡ self.share }
    {
        let SeatPass {
            ticket,
            by: _,
            started: _,
            clock: _,
            budget: _,
            control: _,
            over,
            claims,
            commit,
            note,
            share,
            done,
        } = self;
        PassParts {
            ticket,
            claims,
            commit,
            over,
            done,
            note,
            share,
        }
    }
}

impl<N: EngineNames> SeatCore<N> {
    /// What the seat keeps.
    pub fn facts(&self)
        ensures { IsSeat N.names self.now }
    {
        let _number = &self.number;
    }

    /// The parts of the seat.
    pub fn apart(self) -> SeatParts<N>
        ensures places { result.places.items ≡ self.places }
        ensures note { result.note ≡ self.note }
        ensures share { result.share ≡ self.share }
        ensures quit { result.quit ≡ self.quit }
        ensures part { (result.part.parts ≡ self.parts) × (result.part.amount ≡ self.amount) }
        ensures passes { result.passes.items ≡ self.passes }
    {
        let SeatCore {
            number: _,
            places,
            note,
            share,
            quit,
            part,
            passes,
            torn: _,
        } = self;
        SeatParts {
            places,
            note,
            share,
            quit,
            part,
            passes,
        }
    }
}

impl<N: EngineNames> BoxDesk<N> {
    /// The cell, and the view of the quit word, with what the desk has kept of them.
    pub fn apart(self) -> (BoxCell<N>, QuitView)
        ensures cell { result.0 ≡ self.cell }
        ensures quit { result.1 ≡ self.quit }
        ensures kept { IsBoxDesk N.names self }
    {
        let BoxDesk { cell, quit } = self;
        (cell, quit)
    }
}

impl<N: EngineNames> SchedDesk<N> {
    /// What the journal of the scheduler is: a run, of which each start was made by a seat.
    pub fn facts(&self)
        ensures run { IsRun N.names.setting.scheduler (log_events self.now.cell.journal.log)
            self.now.cell.machine }
        ensures owners { All (IsOwned N.names.seats) self.now.cell.journal.log }
        ensures kept { IsSchedDesk N.names self.now }
    {
        self.cell.facts();
    }

    /// The cell, the view of the quit word, the first view and the book, with what the desk has kept of them.
    pub fn apart(self) -> (SchedCell, QuitView, QuitFirst, Book<N>)
        ensures cell { result.0 ≡ self.cell }
        ensures quit { result.1 ≡ self.quit }
        ensures first { result.2 ≡ self.first }
        ensures book { result.3.total ≡ self.total }
        ensures kept { IsSchedDesk N.names self }
    {
        let SchedDesk {
            cell,
            quit,
            first,
            book,
        } = self;
        (cell, quit, first, book)
    }
}
