//! The rule of the word, and its kinds of step.

use crate::view::View;
use atomic_table::{Join, Play, Split, TableRule};

/// The rule of the word.
pub struct Quits;

impl TableRule<(), View, ()> for Quits {
    ghost use Rattle.quit_word.specs.Rules.{IsKept, opened};

    ghost holds = { λ _ table. IsKept table.words table.views };

    ghost first = { λ _. opened };
}

/// A worker's view with the next number is split from the first one.
pub struct NewWorker;

impl Split<View> for NewWorker {
    ghost use Rattle.quit_word.specs.Rules.{with_next, next_worker};

    ghost left = { with_next };

    ghost right = { next_worker };
}

/// A view without a number is split off, which has seen as much.
pub struct NewCell;

impl Split<View> for NewCell {
    ghost use Rattle.quit_word.specs.Rules.{unnumbered};

    ghost left = { λ v. v };

    ghost right = { unnumbered };
}

/// A view is joined into another one.
pub struct Joined;

impl Join<View> for Joined {
    ghost use Rattle.quit_word.specs.Rules.{both, spent};

    ghost both = { both };

    ghost spent = { spent };
}

/// A look at the word.
pub struct Look;

impl Play<(), View> for Look {
    ghost use Rattle.quit_word.specs.Rules.{Looks};

    ghost then = { Looks };
}

/// The view's number is put where none stands.
pub struct Quit;

impl Play<(), View> for Quit {
    ghost use Rattle.quit_word.specs.Rules.{Quits};

    ghost then = { Quits };
}
