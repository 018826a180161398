//! The cell of a box and its calls.

ghost use Rattle.std.specs.Prelude.{◌≡◌, ℕ, [], ◌+◌, ◌<◌, ◌^◌, ◌==◌, length, false, All, OnOk, OnErr};
ghost use Rattle.std.specs.Prelude.{IfOk};
ghost use Rattle.std.specs.Prelude.{MatchResult, count_by, sum_by};
ghost use Rattle.std.specs.List.{AllZip};
ghost use Rattle.step_journal.specs.Histories.{IsNoteOf, makers_of, entries_of, own_entries};
ghost use Rattle.step_journal.specs.Journals.{IsPair, new_note, new_share};
ghost use Rattle.loose_records.specs.Entries.{AreStamps};
ghost use Rattle.box_lock.specs.Cells.{IsCell, IsHistory, log_stamps, entry_with, Stepped, held, Refused};

use crate::CellNames;
use crate::recording::{StepNumbers, record_step};
use loose_records::BoxEntry;
use method_code::{Code, End, Frame};
use seuss_base::{List, Memory};
use seuss_program::Vars;
use std::alloc::Global;
use std::marker::{Model, PhantomData};
use step_journal::{CellRefusal, Closed, Journal, Note, Receipt, Share};

/// No stamp is as great as this.
const WORN: u64 = 1 << 63;

/// The variables of one box with the journal of the steps on them. Contracts see the box's number
/// too. Unless the cell is broken, its variables are the replay of its journal.
#[derive(Drop)]
pub struct BoxCell<N: CellNames> {
    number: u32,
    vars: Vars,
    clock: u64,
    broken: bool,
    journal: Journal<BoxEntry>,
    of: PhantomData<N>,
}

impl<N: CellNames> Model for BoxCell<N> {
    ghost use Rattle.box_lock.specs.Cells.{CellState, IsCell};

    ghost Value = { CellState };

    ghost view = { λ c. record {
      number = c.number;
      vars = c.vars.values;
      journal = c.journal;
      broken = c.broken;
    } };

    ghost invariant = { λ c. IsCell N.code N.first c.clock (record {
      number = c.number;
      vars = c.vars.values;
      journal = c.journal;
      broken = c.broken;
    }) };
}

impl<N: CellNames> BoxCell<N> {
    /// The cell of a box with this number and its first variables, without entries and makers.
    pub fn new(alloc: Global, number: u32, vars: Vars) -> Result<BoxCell<N>, Memory>
        requires { vars.values ≡ N.first number }
        ensures vars { IfOk result (λ c. (c.number ≡ number) × (c.vars ≡ vars.values)) }
        ensures journal { IfOk result (λ c. (c.journal.log ≡ []) × (c.journal.makers ≡ 0)) }
        ensures working { IfOk result (λ c. c.broken ≡ false) }
    {
        let journal = Journal::open(alloc)?;
        Ok(BoxCell::with(number, vars, journal))
    }

    /// The cell of a box over a journal that was opened before, without entries.
    pub fn with(number: u32, vars: Vars, journal: Journal<BoxEntry>) -> BoxCell<N>
        requires first { vars.values ≡ N.first number }
        requires empty { journal.log ≡ [] }
        ensures { result ≡ record {
          number = number;
          vars = vars.values;
          journal = journal;
          broken = false;
        } }
    {
        BoxCell {
            number,
            vars,
            clock: 0,
            broken: false,
            journal,
            of: PhantomData,
        }
    }

    /// A note and a share for one more maker.
    pub fn seat(&mut self) -> Result<(Note<BoxEntry>, Share), Memory>
        ensures cell { OnOk result (self.new ≡ record self.old {
          journal = record self.old.journal { makers = self.old.journal.makers + 1 };
        }) }
        ensures note { IfOk result (λ given. given.0 ≡ new_note self.old.journal) }
        ensures share { IfOk result (λ given. given.1 ≡ new_share self.old.journal) }
        ensures pair { IfOk result (λ given. IsPair given.0 given.1) }
        ensures err { OnErr result (self.new ≡ self.old) }
    {
        self.journal.seat()
    }

    /// The number of the box.
    pub fn number(&self) -> u32
        ensures { result ≡ self.now.number }
    {
        self.number
    }

    /// Whether a step would be refused because an earlier one was refused for want of memory.
    pub fn broken(&self) -> bool
        ensures { result ≡ self.now.broken }
    {
        self.broken
    }

    /// What the cell keeps: its variables are the replay of its journal, unless it is broken, and the
    /// stamps of the journal rise.
    pub fn facts(&self)
        ensures { (clock : ℕ) × IsCell N.code N.first clock self.now }
    {
        let _clock = &self.clock;
    }

    /// Makes one method step on the box's variables and its entry, with the stamp after the clocks of
    /// the pass and of the cell, which is then the pass's clock. The note has then seen all entries.
    pub fn step(
        &mut self,
        alloc: Global,
        code: &Code,
        clock: &mut u64,
        note: &mut Note<BoxEntry>,
        share: &mut Share,
        pass: u64,
        number: u32,
        frame: &mut Frame,
        budget: &mut u64,
    ) -> Result<(End, Receipt), CellRefusal>
        requires code { code.now ≡ N.code }
        requires clock { clock.old < 2 ^ 63 }
        requires journal { note.old.journal ≡ self.old.journal.name }
        requires pair { IsPair note.old share.old }
        ensures done { IfOk result (λ r. Stepped N.code N.first self.old note.old clock.old
            (entry_with pass number frame.old budget.old frame.new budget.new r.0 clock.new) r.1
            self.new note.new clock.new) }
        ensures share { OnOk result (share.new ≡ record share.old { count = share.old.count + 1 }) }
        ensures pair { IsPair note.new share.new }
        ensures refused { MatchResult result (λ _. ℕ) (Refused self.old note.old share.old clock.old
            (held frame.old budget.old) self.new note.new share.new clock.new
            (held frame.new budget.new)) }
    {
        if self.broken {
            return Err(CellRefusal::Broken);
        }
        self.journal.meet(note);
        let stamp = 1 + (*clock).max(self.clock);
        if stamp == WORN {
            return Err(CellRefusal::Worn(stamp));
        }
        let numbers = StepNumbers {
            pass,
            number,
            stamp,
        };
        let Ok((entry, end)) = record_step(alloc, code, &mut self.vars, frame, budget, numbers)
        else {
            self.broken = true;
            return Err(CellRefusal::Memory);
        };
        match self.journal.append(note, share, entry) {
            Ok(place) => {
                self.clock = stamp;
                *clock = stamp;
                Ok((end, Receipt { place, stamp }))
            }
            Err(_) => {
                self.broken = true;
                Err(CellRefusal::Memory)
            }
        }
    }

    /// Ends a cell that isn't broken with all its notes and shares, each share at the place of its
    /// note, and gives the variables and the entries. It takes no memory.
    pub fn close(self, notes: List<Note<BoxEntry>>, shares: List<Share>) -> (Vars, Closed<BoxEntry>)
        requires journal { All (λ n. n.journal ≡ self.journal.name) notes }
        requires all { length notes ≡ self.journal.makers }
        requires pairs { AllZip IsPair notes shares }
        requires whole { self.broken ≡ false }
        ensures vars { result.0.values ≡ self.vars }
        ensures history { IsHistory N.code self.number (N.first self.number) self.journal.log self.vars }
        ensures entries { result.1.entries ≡ entries_of self.journal.log }
        ensures makers { result.1.makers ≡ makers_of self.journal.log }
        ensures stamps { AreStamps (log_stamps self.journal.log) }
        ensures given { All (λ p. p.0 < self.journal.makers) self.journal.log }
        ensures notes { All (λ n. IsNoteOf self.journal.log n.maker n.seen) notes }
        ensures each_once { (m : ℕ) → m < self.journal.makers → count_by (λ n. n.maker == m) notes ≡ 1 }
        ensures counts { All (λ s. s.count ≡ length (own_entries s.maker self.journal.log)) shares }
        ensures total { sum_by (λ s. s.count) shares ≡ length self.journal.log }
    {
        let BoxCell {
            number: _,
            vars,
            clock: _,
            broken: _,
            journal,
            of: _,
        } = self;
        (vars, journal.close(notes, shares))
    }
}

fn needs_send<T: Send>() {}

/// A cell may go to another thread.
pub fn crosses<N: CellNames + Send>() {
    needs_send::<BoxCell<N>>();
}
