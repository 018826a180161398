//! Journals: histories that only grow, with notes and shares of their makers.

ghost use Rattle.std.specs.Prelude.{◌≡◌, ℕ, [], ◌∷◌, ◌++◌, ◌+◌, ◌<◌, ◌==◌, length};
ghost use Rattle.std.specs.Prelude.{sum_by, count_by, All, OnOk, OnErr, IfOk};
ghost use Rattle.std.specs.List.{AllZip};
ghost use Rattle.step_journal.specs.Histories.{IsNoteOf, makers_of, entries_of, own_entries};
ghost use Rattle.step_journal.specs.Journals.{IsPair, new_note, new_share, longer};

use crate::desk::Desk;
use crate::{Closed, Note, Share};
use atomic_table::Badge;
use seuss_base::{List, Memory};
use std::alloc::Global;
use std::marker::{Brand, Model};
use std::mem;

/// A history of entries that only grows. Contracts see it as the list of its entries, each with its
/// maker, beside the number of makers and the name that tells this journal from every other one.
#[derive(Drop)]
pub struct Journal<E> {
    desk: Desk<E>,
    given: u64,
    makers: Vec<u64>,
    entries: Vec<E>,
}

impl<E> Model for Journal<E> {
    ghost use Rattle.step_journal.specs.Journals.{JournalState, journal_code};
    ghost use Rattle.step_journal.specs.Desks.{IsBooked};

    ghost Value = { JournalState E };

    ghost coded = { journal_code E.code };

    ghost view = { λ j. record { log = j.desk.log; makers = j.given; name = j.desk.name } };

    ghost invariant = { λ j. IsBooked j.desk j.given j.makers.items j.entries.items };
}

impl<E: Drop> Journal<E> {
    /// A journal with no entries and no makers.
    pub fn open(alloc: Global) -> Result<Journal<E>, Memory>
        ensures { IfOk result (λ j. (j.log ≡ []) × (j.makers ≡ 0)) }
    {
        Ok(Journal {
            desk: Desk::open(alloc)?,
            given: 0,
            makers: Vec::new(alloc),
            entries: Vec::new(alloc),
        })
    }

    /// Gives a new maker's note, which has seen all entries so far, and its share, which counts none.
    pub fn seat(&mut self) -> Result<(Note<E>, Share), Memory>
        ensures journal { OnOk result (self.new ≡ record self.old { makers = self.old.makers + 1 }) }
        ensures note { IfOk result (λ given. given.0 ≡ new_note self.old) }
        ensures share { IfOk result (λ given. given.1 ≡ new_share self.old) }
        ensures pair { IfOk result (λ given. IsPair given.0 given.1) }
        ensures err { OnErr result (self.new ≡ self.old) }
    {
        if self.given == u64::MAX {
            return Err(Memory);
        }
        let maker = self.given;
        self.desk.look();
        let badge = self.desk.new_note();
        self.given += 1;
        Ok((Note { maker, badge }, Share { maker, count: 0 }))
    }

    /// Appends an entry of the note's maker, and answers its place, counted from 0. The note has then
    /// seen all up to there, and the share counts one more. Where memory is refused, the entry is dropped.
    pub fn append(&mut self, note: &mut Note<E>, share: &mut Share, entry: E) -> Result<u64, Memory>
        requires journal { note.old.journal ≡ self.old.name }
        requires pair { IsPair note.old share.old }
        ensures place { IfOk result (λ place. place ≡ length self.old.log) }
        ensures journal { OnOk result (self.new ≡ longer self.old note.old.maker entry) }
        ensures seen { OnOk result (note.new ≡ record note.old { seen = self.new.log }) }
        ensures before { OnOk result (IsNoteOf self.old.log note.old.maker note.old.seen) }
        ensures share { OnOk result (share.new ≡ record share.old { count = share.old.count + 1 }) }
        ensures pair { IsPair note.new share.new }
        ensures err { OnErr result
            ((self.new ≡ self.old) × (note.new ≡ note.old) × (share.new ≡ share.old)) }
    {
        self.makers.reserve(1)?;
        self.entries.reserve(1)?;
        let badge = mem::replace(&mut note.badge, Badge::blank());
        self.desk.admit(note.maker, badge);
        let place = self.desk.append::<Brand>(note.maker, &entry);
        note.badge = self.desk.old_note(note.maker);
        share.count += 1;
        self.makers.push_reserved(note.maker);
        self.entries.push_reserved(entry);
        Ok(place)
    }

    /// Shows the note all entries so far. It takes no memory.
    pub fn meet(&mut self, note: &mut Note<E>)
        requires { note.old.journal ≡ self.old.name }
        ensures journal { self.new ≡ self.old }
        ensures before { IsNoteOf self.old.log note.old.maker note.old.seen }
        ensures seen { note.new ≡ record note.old { seen = self.old.log } }
    {
        let maker = note.maker;
        let badge = mem::replace(&mut note.badge, Badge::blank());
        self.desk.admit(maker, badge);
        note.badge = self.desk.old_note(maker);
    }

    /// Ends the journal with all its notes and shares, each share at the place of its note, and gives
    /// the entries with their makers. It takes no memory.
    pub fn close(self, notes: List<Note<E>>, shares: List<Share>) -> Closed<E>
        requires journal { All (λ n. n.journal ≡ self.name) notes }
        requires all { length notes ≡ self.makers }
        requires pairs { AllZip IsPair notes shares }
        ensures makers { result.makers ≡ makers_of self.log }
        ensures entries { result.entries ≡ entries_of self.log }
        ensures given { All (λ p. p.0 < self.makers) self.log }
        ensures notes { All (λ n. IsNoteOf self.log n.maker n.seen) notes }
        ensures each_once { (m : ℕ) → m < self.makers → count_by (λ n. n.maker == m) notes ≡ 1 }
        ensures counts { All (λ s. s.count ≡ length (own_entries s.maker self.log)) shares }
        ensures total { sum_by (λ s. s.count) shares ≡ length self.log }
    {
        let Journal {
            mut desk,
            given: _,
            makers,
            entries,
        } = self;
        desk.take_all(notes);
        desk.look();
        drop(shares);
        Closed {
            makers: List::from_vec(makers),
            entries: List::from_vec(entries),
        }
    }
}
