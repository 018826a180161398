//! The rule of a turn's table, and its kinds of step.

use crate::kept::Kept;
use crate::view::View;
use atomic_table::{Join, Play, Split, TableRule};
use std::snapshot::Snapshot;

/// What the table of a turn is told when it is made: what never changes of the value, and how many seats
/// there are.
#[derive(Drop)]
pub struct Terms<N> {
    pub names: Snapshot<N>,
    pub seats: u32,
}

/// The rule of a turn's table.
pub struct InTurn;

impl<C: Kept> TableRule<Option<C>, View<C::Names>, Terms<C::Names>> for InTurn {
    ghost use Rattle.std.specs.Prelude.{false};
    ghost use Rattle.box_turn.specs.declared.view.View.TheVariants.{Live};
    ghost use Rattle.box_turn.specs.Rules.{IsKept};

    ghost holds = { λ terms table. IsKept C.keeps terms.names.value terms.seats table };

    ghost first = { λ terms. Live terms.names.value terms.seats 0 false };
}

/// One part is cut off, in a view that doesn't hold the turn.
pub struct CutOff;

impl<N> Split<View<N>> for CutOff {
    ghost use Rattle.box_turn.specs.Rules.{with_one_less, one_part};

    ghost left = { with_one_less };

    ghost right = { one_part };
}

/// The parts of another view are added.
pub struct Add;

impl<N> Join<View<N>> for Add {
    ghost use Rattle.box_turn.specs.declared.view.View.TheVariants.{Spent};
    ghost use Rattle.box_turn.specs.Rules.{with_parts_of};

    ghost both = { with_parts_of };

    ghost spent = { Spent };
}

/// The word is raised from 0 to 1, and the slot taken; or the word was 1, and a miss is counted.
pub struct Take;

impl<C: Kept> Play<Option<C>, View<C::Names>> for Take {
    ghost use Rattle.box_turn.specs.Rules.{Takes};

    ghost then = { Takes C.keeps };
}

/// The slot is given back, and the word put to 0.
pub struct Give;

impl<S, N> Play<S, View<N>> for Give {
    ghost use Rattle.box_turn.specs.Rules.{Gives};

    ghost then = { Gives };
}
