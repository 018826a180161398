//! The table under a journal, with one method for each kind of step of its rule.

ghost use Rattle.std.specs.Prelude.{◌≡◌, List as Items, ℕ, [], ◌∷◌, ◌++◌, ◌+◌, ◌<◌, ◌^◌};
ghost use Rattle.std.specs.Prelude.{length, map, All, IfOk};
ghost use Rattle.step_journal.specs.declared.view.View.TheVariants.{Noted};
ghost use Rattle.step_journal.specs.Desks.{seen_in, list_of};
ghost use Rattle.step_journal.specs.Histories.{IsNoteOf};
ghost use Rattle.step_journal.specs.Rules.{IsSound};

use crate::Note;
use crate::rule::{Append, History, Look, NewNote, OldNote, Pick, TakeIn};
use crate::view::View;
use atomic_table::{Badge, Seat, Table};
use seuss_base::{List, Memory};
use std::alloc::Global;
use std::marker::Model;

/// The table of a journal and the writer's seat, with one method for each kind of step.
#[derive(Drop)]
pub struct Desk<E> {
    table: Table<(), View<E>, (), History, Global>,
    writer: Seat<(), View<E>>,
}

impl<E> Model for Desk<E> {
    ghost use Rattle.step_journal.specs.Desks.{DeskState, desk_code, desk_of, IsWriting};

    ghost Value = { DeskState E };

    ghost coded = { desk_code E.code };

    ghost view = { λ d. desk_of d.writer.table_id d.writer.me.0 };

    ghost invariant = { λ d. IsWriting d.table.shared.table_id d.writer.table_id d.writer.me };
}

impl<E> Desk<E> {
    /// Makes the table and the writer's seat, with no entries.
    pub fn open(alloc: Global) -> Result<Desk<E>, Memory>
        ensures { IfOk result (λ d. (d.log ≡ []) × (d.olds ≡ []) × (d.given ≡ 0)) }
    {
        let (table, writer) = Table::of_words(alloc, &[0], &())?;
        Ok(Desk { table, writer })
    }

    /// A note with a new maker's number, which has seen all.
    pub fn new_note(&mut self) -> Badge<View<E>>
        ensures desk { self.new ≡ record self.old { given = self.old.given + 1 } }
        ensures name { result.table_id ≡ self.old.name }
        ensures note { result.views ≡ Noted self.old.given self.old.log ∷ [] }
    {
        let table = &self.table;
        let seat = table.shared.split_seat::<NewNote>(&mut self.writer);
        seat.into_badge()
    }

    /// Takes in a note. Its list is kept.
    pub fn take_in(&mut self, maker: u64, note: Badge<View<E>>)
        requires name { note.table_id ≡ self.old.name }
        requires note { note.views ≡ Noted maker (seen_in note.views) ∷ [] }
        ensures { self.new ≡ record self.old { olds = (maker, seen_in note.views) ∷ self.old.olds } }
    {
        let seat = note.into_seat();
        let table = &self.table;
        table.shared.join_seat::<TakeIn>(&mut self.writer, seat);
    }

    /// Learns that each list that is kept is a beginning of the journal, with all entries of its maker.
    pub fn look(&mut self)
        ensures same { self.new ≡ self.old }
        ensures sound { IsSound self.old.log self.old.olds self.old.given }
    {
        let table = &self.table;
        table.shared.load::<Look>(&mut self.writer, 0);
    }

    /// Takes in a note where no list is kept, and learns what it had seen.
    pub fn admit(&mut self, maker: u64, note: Badge<View<E>>)
        requires name { note.table_id ≡ self.old.name }
        requires note { note.views ≡ Noted maker (seen_in note.views) ∷ [] }
        requires empty { self.old.olds ≡ [] }
        ensures desk { self.new ≡ record self.old { olds = (maker, seen_in note.views) ∷ [] } }
        ensures before { IsNoteOf self.old.log maker (seen_in note.views) }
    {
        self.take_in(maker, note);
        self.look();
    }

    /// Appends an entry of the maker whose list was taken in, and answers its place.
    pub fn append<P: Pick<E>>(&mut self, maker: u64, entry: &E) -> u64
        requires picked { P.picked ≡ entry.now ∷ [] }
        requires taken { (seen : Items (ℕ × E)) × (self.old.olds ≡ (maker, seen) ∷ []) }
        requires room { length self.old.log + 1 < 2 ^ 64 }
        ensures place { result ≡ length self.old.log }
        ensures log { self.new.log ≡ self.old.log ++ (maker, entry.now) ∷ [] }
        ensures list { self.new.olds ≡ (maker, self.new.log) ∷ [] }
        ensures same { (self.new.given ≡ self.old.given) × (self.new.name ≡ self.old.name) }
    {
        let table = &self.table;
        table.shared.fetch_add::<Append<P>>(&mut self.writer, 0, 1)
    }

    /// A note with the number of the list that was taken in, which has seen all.
    pub fn old_note(&mut self, maker: u64) -> Badge<View<E>>
        requires { (seen : Items (ℕ × E)) × (self.old.olds ≡ (maker, seen) ∷ []) }
        ensures desk { self.new ≡ record self.old { olds = [] } }
        ensures name { result.table_id ≡ self.old.name }
        ensures note { result.views ≡ Noted maker self.old.log ∷ [] }
    {
        let table = &self.table;
        let seat = table.shared.split_seat::<OldNote>(&mut self.writer);
        seat.into_badge()
    }
}

impl<E: Drop> Desk<E> {
    /// Takes in all these notes, the last one first.
    pub fn take_all(&mut self, notes: List<Note<E>>)
        requires { All (λ n. n.journal ≡ self.old.name) notes }
        ensures { self.new ≡ record self.old { olds = map list_of notes ++ self.old.olds } }
    {
        let mut left = notes;
        while let Some(note) = left.pop() {
            let Note { maker, badge } = note;
            self.take_in(maker, badge);
        }
    }
}
