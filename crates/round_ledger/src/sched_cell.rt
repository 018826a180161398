//! The scheduler's cell and its calls.

ghost use Rattle.std.specs.Prelude.{◌≡◌, ℕ, [], ◌+◌, ◌<◌, ◌^◌, ◌==◌, length, true, false, All, OnOk, OnErr};
ghost use Rattle.std.specs.Prelude.{IfOk, IfSome, MatchResult, MatchOption, IfErr, count_by, sum_by};
ghost use Rattle.std.specs.List.{AllZip};
ghost use Rattle.compat_scheduler.specs.Machines.{beginning};
ghost use Rattle.compat_scheduler.specs.Starts.{Starts, NoneStarts};
ghost use Rattle.compat_scheduler.specs.Runs.{IsRun};
ghost use Rattle.step_journal.specs.declared.refusal.CellRefusal.TheVariants.{Broken};
ghost use Rattle.step_journal.specs.Histories.{IsNoteOf, makers_of, entries_of, own_entries};
ghost use Rattle.step_journal.specs.Journals.{IsPair, new_note, new_share};
ghost use Rattle.loose_records.specs.declared.record.SchedEntry.TheVariants.{Start};
ghost use Rattle.loose_records.specs.Entries.{AreStamps};
ghost use Rattle.round_ledger.specs.Cells.{IsCell, log_events, log_stamps, IsTicketNote, ticket_note};
ghost use Rattle.round_ledger.specs.Cells.{ticket_share, Sees, Adds, Ended, Refused, WouldStart, StandsAs};

use crate::Standing;
use compat_scheduler::{FinishVerdict, SchedCore, Ticket, laws};
use loose_records::SchedEntry;
use seuss_base::{List, Memory, PassEnd};
use std::alloc::Global;
use std::marker::Model;
use step_journal::{CellRefusal, Closed, Journal, Note, Receipt, Share};

/// No stamp is as great as this.
const WORN: u64 = 1 << 63;

/// The scheduler with the journal of its starts and finishes. Its machine is the replay of the
/// journal.
#[derive(Drop)]
pub struct SchedCell {
    core: SchedCore,
    journal: Journal<SchedEntry>,
    clock: u64,
    seats: u64,
    broken: bool,
}

impl Model for SchedCell {
    ghost use Rattle.round_ledger.specs.Cells.{CellState, IsCell};

    ghost Value = { CellState };

    ghost view = { λ c. record {
      setting = c.core.setting;
      machine = c.core.machine;
      journal = c.journal;
      seats = c.seats;
      broken = c.broken;
    } };

    ghost invariant = { λ c. IsCell c.clock (record {
      setting = c.core.setting;
      machine = c.core.machine;
      journal = c.journal;
      seats = c.seats;
      broken = c.broken;
    }) };
}

impl SchedCell {
    /// A cell with no entries and no workers, over a scheduler at its beginning.
    pub fn new(alloc: Global, core: SchedCore) -> Result<SchedCell, Memory>
        requires { core.machine ≡ beginning core.setting }
        ensures core { IfOk result (λ c. (c.setting ≡ core.setting) × (c.machine ≡ core.machine)) }
        ensures journal { IfOk result (λ c. (c.journal.log ≡ []) × (c.journal.makers ≡ 0)) }
        ensures seats { IfOk result (λ c. (c.seats ≡ 0) × (c.broken ≡ false)) }
    {
        let journal = Journal::open(alloc)?;
        Ok(SchedCell::with(core, journal))
    }

    /// A cell over a journal that was opened before, without entries and makers.
    pub fn with(core: SchedCore, journal: Journal<SchedEntry>) -> SchedCell
        requires core { core.machine ≡ beginning core.setting }
        requires empty { (journal.log ≡ []) × (journal.makers ≡ 0) }
        ensures { result ≡ record {
          setting = core.setting;
          machine = core.machine;
          journal = journal;
          seats = 0;
          broken = false;
        } }
    {
        SchedCell {
            core,
            journal,
            clock: 0,
            seats: 0,
            broken: false,
        }
    }

    /// A note and a share for one more worker. All workers are seated before the first start, so that
    /// the numbers of the makers after theirs are those of the passes. Where memory is refused the
    /// cell is broken.
    pub fn seat(&mut self) -> Result<(Note<SchedEntry>, Share), Memory>
        requires early { self.old.journal.log ≡ [] }
        ensures cell { OnOk result (self.new ≡ record self.old {
          journal = record self.old.journal { makers = self.old.journal.makers + 1 };
          seats = self.old.seats + 1;
        }) }
        ensures note { IfOk result (λ given. given.0 ≡ new_note self.old.journal) }
        ensures share { IfOk result (λ given. given.1 ≡ new_share self.old.journal) }
        ensures pair { IfOk result (λ given. IsPair given.0 given.1) }
        ensures err { OnErr result (self.new ≡ record self.old { broken = true }) }
    {
        let Some(seats) = self.seats.checked_add(1) else {
            self.broken = true;
            return Err(Memory);
        };
        let Ok(given) = self.journal.seat() else {
            self.broken = true;
            return Err(Memory);
        };
        self.seats = seats;
        Ok(given)
    }

    /// Starts the first attempt that may run, and gives a note and a share of its own with the
    /// ticket: this note has seen the start, and this share counts none. None comes where no pass can
    /// start; it adds no entry. The note of the worker has then seen all entries.
    pub fn start(
        &mut self,
        clock: &mut u64,
        note: &mut Note<SchedEntry>,
        share: &mut Share,
    ) -> Result<Option<(Ticket, Receipt, Note<SchedEntry>, Share)>, CellRefusal>
        requires clock { clock.old < 2 ^ 63 }
        requires journal { note.old.journal ≡ self.old.journal.name }
        requires worker { note.old.maker < self.old.seats }
        requires pair { IsPair note.old share.old }
        ensures starts { IfOk result (λ r. IfSome r (λ g.
            Starts self.old.setting self.old.machine g.0 self.new.machine)) }
        ensures adds { IfOk result (λ r. IfSome r (λ g.
            Adds self.old (Start g.0 clock.new) note.old clock.old g.1 self.new note.new clock.new)) }
        ensures share { IfOk result (λ r. IfSome r (λ _.
            share.new ≡ record share.old { count = share.old.count + 1 })) }
        ensures given { IfOk result (λ r. IfSome r (λ g.
            (g.2 ≡ ticket_note self.new g.0) × (g.3 ≡ ticket_share self.new g.0))) }
        ensures theirs { IfOk result (λ r. IfSome r (λ g. IsPair g.2 g.3)) }
        ensures none { IfOk result (λ r. MatchOption r (NoneStarts self.old.setting self.old.machine
            × (self.old.broken ≡ false) × (self.new ≡ self.old) × (share.new ≡ share.old)
            × (clock.new ≡ clock.old) × Sees self.old.journal.log note.old note.new) (λ _. ℕ)) }
        ensures pair { IsPair note.new share.new }
        ensures run { IsRun self.old.setting (log_events self.old.journal.log) self.old.machine }
        ensures still { (self.new.journal.name ≡ self.old.journal.name) × (self.new.seats ≡ self.old.seats)
            × (self.new.setting ≡ self.old.setting) }
        ensures refused { MatchResult result (λ _. ℕ)
            (Refused self.old note.old share.old clock.old self.new note.new share.new clock.new) }
        ensures would { MatchResult result (λ _. ℕ) (WouldStart self.old) }
    {
        if self.broken {
            return Err(CellRefusal::Broken);
        }
        self.journal.meet(note);
        let Some(ticket) = self.core.next() else {
            return Ok(None);
        };
        let stamp = 1 + (*clock).max(self.clock);
        if stamp == WORN {
            return Err(CellRefusal::Worn(stamp));
        }
        let Ok((mut given, part)) = self.journal.seat() else {
            self.broken = true;
            return Err(CellRefusal::Memory);
        };
        match self
            .journal
            .append(note, share, SchedEntry::Start { ticket, stamp })
        {
            Ok(place) => {
                self.journal.meet(&mut given);
                laws::machine_is_determined();
                laws::runs_go_on();
                self.core.start();
                self.clock = stamp;
                *clock = stamp;
                Ok(Some((ticket, Receipt { place, stamp }, given, part)))
            }
            Err(_) => {
                self.broken = true;
                Err(CellRefusal::Memory)
            }
        }
    }

    /// Ends a pass by the note and the share that were given with its ticket, and that have appended
    /// nothing yet. The note has then seen all entries.
    pub fn finish(
        &mut self,
        clock: &mut u64,
        note: &mut Note<SchedEntry>,
        share: &mut Share,
        ticket: Ticket,
        end: PassEnd,
    ) -> Result<(FinishVerdict, Receipt), CellRefusal>
        requires clock { clock.old < 2 ^ 63 }
        requires journal { note.old.journal ≡ self.old.journal.name }
        requires given { IsTicketNote self.old.seats ticket note.old }
        requires unused { IsPair note.old share.old × (share.old.count ≡ 0) }
        ensures done { IfOk result (λ r.
            Ended self.old ticket end note.old clock.old r.0 r.1 self.new note.new clock.new) }
        ensures share { OnOk result (share.new ≡ record share.old { count = 1 }) }
        ensures pair { IsPair note.new share.new }
        ensures run { IsRun self.old.setting (log_events self.old.journal.log) self.old.machine }
        ensures still { (self.new.journal.name ≡ self.old.journal.name) × (self.new.seats ≡ self.old.seats)
            × (self.new.setting ≡ self.old.setting) }
        ensures refused { MatchResult result (λ _. ℕ)
            (Refused self.old note.old share.old clock.old self.new note.new share.new clock.new) }
    {
        if self.broken {
            return Err(CellRefusal::Broken);
        }
        self.journal.meet(note);
        let stamp = 1 + (*clock).max(self.clock);
        if stamp == WORN {
            return Err(CellRefusal::Worn(stamp));
        }
        let verdict = self.core.verdict(&ticket, &end);
        let entry = SchedEntry::Finish {
            ticket,
            end,
            verdict,
            stamp,
        };
        match self.journal.append(note, share, entry) {
            Ok(place) => {
                laws::runs_go_on();
                self.core.finish(ticket, end);
                self.clock = stamp;
                *clock = stamp;
                Ok((verdict, Receipt { place, stamp }))
            }
            Err(_) => {
                self.broken = true;
                Err(CellRefusal::Memory)
            }
        }
    }

    /// Whether the run goes on. The note has then seen all entries. The refusal is `Broken` alone.
    pub fn standing(&mut self, note: &mut Note<SchedEntry>) -> Result<Standing, CellRefusal>
        requires journal { note.old.journal ≡ self.old.journal.name }
        ensures same { self.new ≡ self.old }
        ensures run { IsRun self.old.setting (log_events self.old.journal.log) self.old.machine }
        ensures standing { IfOk result (λ s. (self.old.broken ≡ false)
            × StandsAs self.old.setting self.old.machine s × Sees self.old.journal.log note.old note.new) }
        ensures broken { IfErr result (λ e.
            (e ≡ Broken) × (self.old.broken ≡ true) × (note.new ≡ note.old)) }
    {
        if self.broken {
            return Err(CellRefusal::Broken);
        }
        self.journal.meet(note);
        if self.core.all_done() {
            return Ok(Standing::Ended);
        }
        if self.core.stopped() && self.core.running() == 0 {
            return Ok(Standing::Ended);
        }
        Ok(Standing::Going)
    }

    /// What the cell keeps: its journal is a run whose stamps rise, who made which entry, and that a
    /// started ticket runs or its own maker has made an entry. In a cell that isn't broken each start
    /// gave one maker.
    pub fn facts(&self)
        ensures { (clock : ℕ) × IsCell clock self.now }
    {
        let _clock = &self.clock;
    }

    /// Whether a call would be refused because the cell is broken.
    pub fn broken(&self) -> bool
        ensures { result ≡ self.now.broken }
    {
        self.broken
    }

    /// From now on `start`, `finish` and `standing` answer `Broken`.
    pub fn give_up(&mut self)
        ensures { self.new ≡ record self.old { broken = true } }
    {
        self.broken = true;
    }

    /// Ends the cell with all its notes and shares, each share at the place of its note, and gives
    /// the entries. It takes no memory.
    pub fn close(self, notes: List<Note<SchedEntry>>, shares: List<Share>) -> Closed<SchedEntry>
        requires journal { All (λ n. n.journal ≡ self.journal.name) notes }
        requires all { length notes ≡ self.journal.makers }
        requires pairs { AllZip IsPair notes shares }
        ensures entries { result.entries ≡ entries_of self.journal.log }
        ensures makers { result.makers ≡ makers_of self.journal.log }
        ensures run { IsRun self.setting (log_events self.journal.log) self.machine }
        ensures stamps { AreStamps (log_stamps self.journal.log) }
        ensures notes { All (λ n. IsNoteOf self.journal.log n.maker n.seen) notes }
        ensures each_once { (m : ℕ) → m < self.journal.makers → count_by (λ n. n.maker == m) notes ≡ 1 }
        ensures counts { All (λ s. s.count ≡ length (own_entries s.maker self.journal.log)) shares }
        ensures total { sum_by (λ s. s.count) shares ≡ length self.journal.log }
    {
        let SchedCell {
            core: _,
            journal,
            clock: _,
            seats: _,
            broken: _,
        } = self;
        journal.close(notes, shares)
    }
}

fn needs_send<T: Send>() {}

/// A cell may go to another thread.
pub fn crosses() {
    needs_send::<SchedCell>();
}
