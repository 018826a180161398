//! The rule of a journal's table: how its one word, the number of entries, may change.

use crate::view::View;
use atomic_table::{Join, Play, Split, TableRule};
use std::marker::{Brand, PhantomData};

/// The rule of a journal's table, whose one word is the number of entries.
pub struct History;

impl<E> TableRule<(), View<E>, ()> for History {
    ghost use Rattle.std.specs.Prelude.{[]};
    ghost use Rattle.step_journal.specs.declared.view.View.TheVariants.{Writer};
    ghost use Rattle.step_journal.specs.Rules.{IsKept};

    ghost holds = { λ _ table. IsKept table.words table.views };

    ghost first = { λ _. Writer [] [] 0 };
}

/// Which entry is appended: one in a list. Each call picks it.
pub trait Pick<E> {
    ghost use Rattle.std.specs.Prelude.{List};

    ghost picked: { List E };
}

impl<E> Pick<E> for Brand {
    ghost use Rattle.std.specs.Prelude.{[]};

    ghost picked = { [] };
}

/// A look at the word.
pub struct Look;

impl<E> Play<(), View<E>> for Look {
    ghost use Rattle.step_journal.specs.Rules.{Looks};

    ghost then = { Looks };
}

/// The word is raised, for the entry that is picked.
pub struct Append<P> {
    picked: PhantomData<P>,
}

impl<E, P: Pick<E>> Play<(), View<E>> for Append<P> {
    ghost use Rattle.step_journal.specs.Rules.{Appends};

    ghost then = { Appends P.picked };
}

/// A note with a new maker's number is split from the writer.
pub struct NewNote;

impl<E> Split<View<E>> for NewNote {
    ghost use Rattle.step_journal.specs.Rules.{with_next, next_note};

    ghost left = { with_next };

    ghost right = { next_note };
}

/// A note with the number of the list that was taken in last is split from the writer.
pub struct OldNote;

impl<E> Split<View<E>> for OldNote {
    ghost use Rattle.step_journal.specs.Rules.{without_last, last_note};

    ghost left = { without_last };

    ghost right = { last_note };
}

/// A note is joined into the writer, which keeps its list.
pub struct TakeIn;

impl<E> Join<View<E>> for TakeIn {
    ghost use Rattle.step_journal.specs.declared.view.View.TheVariants.{Spent};
    ghost use Rattle.step_journal.specs.Rules.{with_list};

    ghost both = { with_list };

    ghost spent = { Spent };
}
