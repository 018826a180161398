//! A run by turns so far, and what each turn does to it.

ghost use Rattle.std.specs.Prelude.{◌≡◌, ℕ, ◌<◌, ◌++◌, ◌∷◌, [], IfOk, OnOk, IsTrue, ◌↔◌, length};
ghost use Rattle.std.specs.Prelude.{slice_get, slice_index_or, slice_set, Option as OptionOf, Some};
ghost use Rattle.seuss_program.specs.declared.program.Program.{Program as ProgramOf};
ghost use Rattle.method_code.specs.Chains.{turned};
ghost use Rattle.method_code.specs.Plans.{AreMadeFrom};
ghost use Rattle.loose_records.specs.declared.record.PassRecord.{PassRecord as PassOf};
ghost use Rattle.loose_records.specs.Settings.{RunSetting};
ghost use Rattle.loose_records.specs.LooseRecords.{IsOver};
ghost use Rattle.loose_records.specs.Growing.{pass_begun as begun_with, with_claim, status_of};
ghost use Rattle.turn_runs.specs.declared.hand.Hand.{Hand as HandOf};
ghost use Rattle.turn_runs.specs.Hands.{status_now};
ghost use Rattle.turn_runs.specs.RunTurns.{MayBegin, MayStep, MayFinish, MayTurn, AsksForStart, MakesStep};
ghost use Rattle.turn_runs.specs.RunTurns.{EndsPass, TakesTurn};

use crate::clocks::{box_clock, next_stamp, sched_clock};
use crate::hand::{Hand, Progress};
use crate::reading::{claims_of, commit_of, entries_of};
use crate::recording::{StepNumbers, step_box};
use compat_scheduler::{FinishVerdict, SchedCore, Ticket};
use loose_records::{BoxEntry, Claim, PassRecord, Record, SchedEntry};
use method_code::{Activation, Code, End, Plan, Turn};
use seuss_base::{List, Memory, PassEnd};
use std::alloc::Global;

/// The scheduler, and the record so far.
#[derive(Drop)]
pub struct Run {
    pub core: SchedCore,
    pub made: Record,
}

/// A pass as it starts, before its commit step, end and verdict are told.
fn pass_begun(alloc: Global, ticket: Ticket) -> PassRecord
    ensures { result ≡ begun_with ticket }
{
    PassRecord {
        ticket,
        claims: List::new(alloc),
        commit: 0,
        end: PassEnd::Accepted,
        verdict: FinishVerdict::Kept,
    }
}

/// How a pass goes on after a step that ended so, with this budget left.
fn go_on(
    alloc: Global,
    code: &Code,
    plan: &Plan,
    at: Activation,
    left: u64,
    end: End,
) -> Result<Progress, Memory>
    ensures { (p : ProgramOf) → AreMadeFrom p code.now plan.now →
        IfOk result (λ progress. status_now progress ≡ status_of (turned p at end) left) }
{
    let mut at = at;
    match at.resume_by(alloc, code, plan, end)? {
        Turn::Next(_) => Ok(Progress::Going(at, left)),
        Turn::Over(end) => Ok(Progress::Through(end)),
    }
}

/// Puts an entry at the end of the journal of a box.
fn push_entry(
    alloc: Global,
    boxes: &mut List<List<BoxEntry>>,
    number: u32,
    entry: BoxEntry,
) -> Result<(), Memory>
    requires { number < length boxes.old }
    ensures { OnOk result
        (boxes.new ≡ slice_set boxes.old number (slice_index_or boxes.old number [] ++ entry ∷ [])) }
{
    let mut journal = boxes.replace(number as u64, List::new(alloc));
    journal.push(entry)?;
    boxes.set(number as u64, journal);
    Ok(())
}

/// Puts a claim at the end of those of a pass.
fn push_claim(
    alloc: Global,
    passes: &mut List<PassRecord>,
    ticket: Ticket,
    claim: Claim,
) -> Result<(), Memory>
    requires { ticket.pass < length passes.old }
    ensures { (pass : PassOf) → slice_get passes.old ticket.pass ≡ Some pass → OnOk result
        (passes.new ≡ slice_set passes.old ticket.pass (with_claim pass claim)) }
{
    let mut pass = passes.replace(ticket.pass, pass_begun(alloc, ticket));
    pass.claims.push(claim)?;
    passes.set(ticket.pass, pass);
    Ok(())
}

/// Tells the commit step, the end and the verdict of a pass.
fn tell(
    alloc: Global,
    passes: &mut List<PassRecord>,
    ticket: Ticket,
    commit: u32,
    end: PassEnd,
    verdict: FinishVerdict,
)
    requires { ticket.pass < length passes.old }
    ensures { (pass : PassOf) → slice_get passes.old ticket.pass ≡ Some pass → passes.new
        ≡ slice_set passes.old ticket.pass
        (record pass { commit = commit; end = end; verdict = verdict }) }
{
    let pass = passes.replace(ticket.pass, pass_begun(alloc, ticket));
    let told = PassRecord {
        ticket: pass.ticket,
        claims: pass.claims,
        commit,
        end,
        verdict,
    };
    passes.set(ticket.pass, told);
}

impl Run {
    /// A turn of a worker of these hands: what it has in hand goes on.
    pub fn turn_of(
        &mut self,
        alloc: Global,
        code: &Code,
        plan: &Plan,
        budget: u64,
        hands: &mut List<Option<Hand>>,
        worker: u64,
    ) -> Result<(), Memory>
        requires within { worker < length hands.old }
        requires may { (hand : OptionOf HandOf) → slice_get hands.old worker ≡ Some hand →
            MayTurn self.old hand }
        ensures setting { OnOk result (self.new.core.setting ≡ self.old.core.setting) }
        ensures turn { (p : ProgramOf) → AreMadeFrom p code.now plan.now → OnOk result
            ((hand : OptionOf HandOf) × (after : OptionOf HandOf)
            × (slice_get hands.old worker ≡ Some hand)
            × (hands.new ≡ slice_set hands.old worker after)
            × TakesTurn p self.old.core.setting budget self.old hand self.new after) }
    {
        let hand = hands.replace(worker, None);
        let after = self.turn(alloc, code, plan, budget, hand)?;
        hands.set(worker, after);
        Ok(())
    }

    /// A turn of a worker, by what it has in hand: it asks for a start, makes a step or finishes its pass. The
    /// answer is what it then has in hand.
    fn turn(
        &mut self,
        alloc: Global,
        code: &Code,
        plan: &Plan,
        budget: u64,
        hand: Option<Hand>,
    ) -> Result<Option<Hand>, Memory>
        requires { MayTurn self.old hand }
        ensures setting { OnOk result (self.new.core.setting ≡ self.old.core.setting) }
        ensures turn { (p : ProgramOf) → AreMadeFrom p code.now plan.now →
            IfOk result (λ after. TakesTurn p self.old.core.setting budget self.old hand self.new after) }
    {
        let Some(hand) = hand else {
            return self.begin(alloc, code, plan, budget);
        };
        let Hand {
            ticket,
            clock,
            progress,
        } = hand;
        match progress {
            Progress::Going(at, left) => {
                let hand = self.advance(alloc, code, plan, ticket, clock, at, left)?;
                Ok(Some(hand))
            }
            Progress::Through(end) => {
                self.finish(alloc, ticket, clock, end)?;
                Ok(None)
            }
        }
    }

    /// The next start, if there is one.
    fn begin(
        &mut self,
        alloc: Global,
        code: &Code,
        plan: &Plan,
        budget: u64,
    ) -> Result<Option<Hand>, Memory>
        requires { MayBegin self.old }
        ensures setting { OnOk result (self.new.core.setting ≡ self.old.core.setting) }
        ensures asks { (p : ProgramOf) → AreMadeFrom p code.now plan.now → IfOk result
            (λ hand. AsksForStart p self.old.core.setting budget self.old self.new hand) }
    {
        let Some(ticket) = self.core.start() else {
            return Ok(None);
        };
        let clock = 1 + sched_clock(self.made.sched.as_slice());
        let at = Activation::begin_by(alloc, code, plan, ticket.action)?;
        self.made.sched.push(SchedEntry::Start {
            ticket,
            stamp: clock,
        })?;
        self.made.passes.push(pass_begun(alloc, ticket))?;
        Ok(Some(Hand {
            ticket,
            clock,
            progress: Progress::Going(at, budget),
        }))
    }

    /// The next step of a pass, with its entry and its claim.
    fn advance(
        &mut self,
        alloc: Global,
        code: &Code,
        plan: &Plan,
        ticket: Ticket,
        clock: u64,
        at: Activation,
        left: u64,
    ) -> Result<Hand, Memory>
        requires { MayStep self.old ticket clock at }
        ensures setting { OnOk result (self.new.core.setting ≡ self.old.core.setting) }
        ensures step { (p : ProgramOf) → AreMadeFrom p code.now plan.now → IfOk result
            (λ hand. MakesStep p self.old self.new ticket clock at left hand) }
    {
        let mut at = at;
        let mut left = left;
        let box_number = at.box_of();
        let entries = entries_of(&self.made.boxes, box_number);
        let stamp = next_stamp(clock, box_clock(entries));
        let claim = Claim {
            box_number,
            place: entries.len() as u64,
            stamp,
        };
        let number = claims_of(&self.made.passes, ticket.pass).len() as u32;
        let numbers = StepNumbers {
            pass: ticket.pass,
            number,
            stamp,
        };
        let (entry, end) = step_box(
            alloc,
            code,
            &mut self.made.last,
            &mut at,
            &mut left,
            numbers,
        )?;
        push_entry(alloc, &mut self.made.boxes, box_number, entry)?;
        push_claim(alloc, &mut self.made.passes, ticket, claim)?;
        let progress = go_on(alloc, code, plan, at, left, end)?;
        Ok(Hand {
            ticket,
            clock: stamp,
            progress,
        })
    }

    /// The finish of a pass whose steps are over.
    fn finish(
        &mut self,
        alloc: Global,
        ticket: Ticket,
        clock: u64,
        end: PassEnd,
    ) -> Result<(), Memory>
        requires { MayFinish self.old ticket clock }
        ensures setting { OnOk result (self.new.core.setting ≡ self.old.core.setting) }
        ensures ends { OnOk result (EndsPass self.old.core.setting self.old self.new ticket clock end) }
    {
        let commit = commit_of(&self.made, ticket.pass);
        let stamp = next_stamp(clock, sched_clock(self.made.sched.as_slice()));
        let verdict = self.core.finish(ticket, end);
        self.made.sched.push(SchedEntry::Finish {
            ticket,
            end,
            verdict,
            stamp,
        })?;
        tell(alloc, &mut self.made.passes, ticket, commit, end, verdict);
        Ok(())
    }

    /// Whether nothing runs, and all rounds are done or the scheduler has stopped.
    pub fn is_over(&self) -> bool
        ensures { (s : RunSetting) → s.scheduler ≡ self.now.core.setting →
            (IsTrue result ↔ IsOver s self.now.core.machine) }
    {
        let ended = self.core.stopped() || self.core.all_done();
        ended && self.core.running() == 0
    }
}
