//! The passes that a seat holds, and their calls on cells.

ghost use Rattle.std.specs.Prelude.{◌≡◌, ℕ, ◌<◌, ◌^◌, length, None, Some, IfOk, MatchResult};
ghost use Rattle.seuss_base.specs.declared.outcome.PassEnd.{PassEnd};
ghost use Rattle.method_code.specs.Kinds.{calls_early as is_early};
ghost use Rattle.method_code.specs.Plans.{AreMadeFrom};
ghost use Rattle.step_journal.specs.Journals.{IsPair};
ghost use Rattle.round_ledger.specs.Cells.{IsTicketNote};
ghost use Rattle.pass_seats.specs.Steps.{commit_after, Stepped, StepRefused, IsStill, IsSameBox, IsStillPlace};
ghost use Rattle.pass_seats.specs.Finishes.{PassFinished, FinishRefused};

use crate::EngineNames;
use box_lock::BoxCell;
use compat_scheduler::{FinishVerdict, Ticket};
use loose_records::{BoxEntry, Claim, SchedEntry};
use method_code::{Activation, Code, End, Plan, Turn};
use round_ledger::SchedCell;
use seuss_base::{List, PassEnd};
use std::alloc::Global;
use step_journal::{CellRefusal, Note, Share};

/// Whether a pass goes on after a step.
#[derive(Clone, Copy, Debug, PartialEq, Eq)]
pub enum Progress {
    Stepped,
    Over,
}

/// What a seat has at one box: a note of the box's journal, and the share that was given with it.
#[derive(Drop)]
pub struct Place {
    pub(crate) note: Note<BoxEntry>,
    pub(crate) share: Share,
}

/// The finish of a pass: the verdict on it, and the stamp of its entry.
#[derive(Clone, Copy, Debug, PartialEq, Eq)]
pub struct Done {
    pub verdict: FinishVerdict,
    pub stamp: u64,
}

/// A pass that a seat was given: its ticket, the seat that started it and the stamp of the start; its clock, which
/// is the last stamp along it, the budget that is left, where it is, and its end where it is over; a claim for each
/// of its steps, and the number of its commit step so far; the note and share that came with its ticket, and its
/// finish.
#[derive(Drop)]
pub struct SeatPass {
    pub(crate) ticket: Ticket,
    pub(crate) by: u32,
    pub(crate) started: u64,
    pub(crate) clock: u64,
    pub(crate) budget: u64,
    pub(crate) control: Activation,
    pub(crate) over: Option<PassEnd>,
    pub(crate) claims: List<Claim>,
    pub(crate) commit: Option<u32>,
    pub(crate) note: Note<SchedEntry>,
    pub(crate) share: Share,
    pub(crate) done: Option<Done>,
}

/// A pass that was given to a seat: its ticket, and its slot there.
#[derive(Debug, Drop)]
pub struct Pass {
    pub(crate) slot: u64,
    pub(crate) ticket: Ticket,
}

impl Pass {
    /// The ticket with which the pass was started.
    pub fn ticket(&self) -> &Ticket
        ensures { result.now ≡ self.now.ticket }
    {
        &self.ticket
    }

    /// The slot of the pass at its seat, counted from 0 in the order in which its passes were given to it.
    pub fn slot(&self) -> u64
        ensures { result ≡ self.now.slot }
    {
        self.slot
    }
}

/// Whether a step ended by the call of a preprocedure.
fn calls_early(end: &End) -> bool
    ensures { result ≡ is_early end.now }
{
    match end {
        End::Call { partial, .. } => *partial,
        End::Returned(_) => false,
        End::RejectedPlain => false,
        End::Rejected => false,
        End::Trapped(_) => false,
        End::Spent => false,
    }
}

/// The commit step after one more step, which ended so.
fn commit_with(commit: Option<u32>, number: u32, end: &End) -> Option<u32>
    ensures { result ≡ commit_after commit number end.now }
{
    match commit {
        Some(number) => Some(number),
        None => { if calls_early(end) { None } else { Some(number) } }
    }
}

impl SeatPass {
    /// Makes one step of the pass on its box, by a place there.
    pub(crate) fn step<N: EngineNames>(
        &mut self,
        alloc: Global,
        cell: &mut BoxCell<N>,
        code: &Code,
        plan: &Plan,
        place: &mut Place,
    ) -> Result<Progress, CellRefusal>
        requires code { code.now ≡ N.code }
        requires made { AreMadeFrom N.names.setting.program code.now plan.now }
        requires going { self.old.over ≡ None }
        requires there { self.old.control.box_number ≡ cell.old.number }
        requires clock { self.old.clock < 2 ^ 63 }
        requires short { length self.old.claims < 2 ^ 32 }
        requires journal { place.old.note.journal ≡ cell.old.journal.name }
        requires pair { IsPair place.old.note place.old.share }
        ensures done { IfOk result (λ progress. Stepped N.names.setting.program N.code N.first cell.old cell.new
            place.old place.new self.old self.new progress) }
        ensures cell { IsSameBox cell.old cell.new }
        ensures place { IsStillPlace place.old place.new }
        ensures refused { MatchResult result (λ _. ℕ)
            (StepRefused cell.old place.old self.old place.new self.new) }
        ensures still { MatchResult result (λ _. ℕ) (IsStill cell.old cell.new) }
    {
        let box_number = self.control.box_of();
        let number = self.claims.len() as u32;
        let (end, receipt) = cell.step(
            alloc,
            code,
            &mut self.clock,
            &mut place.note,
            &mut place.share,
            self.ticket.pass,
            number,
            self.control.frame(),
            &mut self.budget,
        )?;
        let claim = Claim {
            box_number,
            place: receipt.place,
            stamp: receipt.stamp,
        };
        let Ok(()) = self.claims.push(claim) else {
            return Err(CellRefusal::Memory);
        };
        self.commit = commit_with(self.commit, number, &end);
        let Ok(turn) = self.control.resume_by(alloc, code, plan, end) else {
            return Err(CellRefusal::Memory);
        };
        match turn {
            Turn::Next(_) => Ok(Progress::Stepped),
            Turn::Over(end) => {
                self.over = Some(end);
                Ok(Progress::Over)
            }
        }
    }

    /// Finishes the pass, by its own note and share.
    pub(crate) fn finish(&mut self, cell: &mut SchedCell) -> Result<FinishVerdict, CellRefusal>
        requires over { (end : PassEnd) × (self.old.over ≡ Some end) }
        requires clock { self.old.clock < 2 ^ 63 }
        requires journal { self.old.note.journal ≡ cell.old.journal.name }
        requires given { IsTicketNote cell.old.seats self.old.ticket self.old.note }
        requires unused { IsPair self.old.note self.old.share × (self.old.share.count ≡ 0) }
        ensures done { IfOk result (λ verdict. PassFinished cell.old cell.new self.old self.new verdict) }
        ensures pair { IsPair self.new.note self.new.share }
        ensures still { (cell.new.journal.name ≡ cell.old.journal.name) × (cell.new.seats ≡ cell.old.seats)
            × (cell.new.setting ≡ cell.old.setting) }
        ensures refused { MatchResult result (λ _. ℕ) (FinishRefused cell.old cell.new self.old self.new) }
    {
        let Some(end) = self.over else {
            return Err(CellRefusal::Broken);
        };
        let mut clock = self.clock;
        let (verdict, receipt) = cell.finish(
            &mut clock,
            &mut self.note,
            &mut self.share,
            self.ticket,
            end,
        )?;
        self.done = Some(Done {
            verdict,
            stamp: receipt.stamp,
        });
        Ok(verdict)
    }
}
