//! Notes: beginnings of a journal.

use crate::view::View;
use atomic_table::Badge;
use std::marker::Model;

/// What its holder has seen of a journal: a beginning of the entries, among them all those of its maker.
#[derive(Drop)]
pub struct Note<E> {
    pub(crate) maker: u64,
    pub(crate) badge: Badge<View<E>>,
}

impl<E> Model for Note<E> {
    ghost use Rattle.std.specs.Prelude.{◌≡◌, [], ◌∷◌};
    ghost use Rattle.step_journal.specs.declared.view.View.TheVariants.{Noted};
    ghost use Rattle.step_journal.specs.Journals.{NoteState, note_code};
    ghost use Rattle.step_journal.specs.Desks.{seen_in, note_state};

    ghost Value = { NoteState E };

    ghost coded = { note_code E.code };

    ghost view = { λ n. note_state n.maker n.badge.table_id n.badge.views };

    ghost invariant = { λ n. n.badge.views ≡ Noted n.maker (seen_in n.badge.views) ∷ [] };
}
