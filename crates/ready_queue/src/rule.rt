//! The rule of the queue, and its kinds of step.

ghost use Rattle.std.specs.Prelude.{map};
ghost use Rattle.ready_queue.specs.declared.view.Mark.{Mark};

use crate::view::View;
use crossbeam_queue::protocol::{Join, Lesson, Outcome, Protocol, Split};
use std::marker::PhantomData;

/// An item of the queue, of which the rule sees the ticket and a seat's number.
pub trait Queued {
    ghost use Rattle.ready_queue.specs.declared.view.Mark.{Mark};

    /// Its ticket, and the number of the seat that pushes it.
    ghost mark: { Self → Mark };
}

/// The rule of the queue.
pub struct Fair<T> {
    items: PhantomData<T>,
}

impl<T: Queued> Protocol<T, View> for Fair<T> {
    ghost use Rattle.std.specs.Prelude.{map, []};
    ghost use Rattle.ready_queue.specs.declared.view.View.TheVariants.{First};
    ghost use Rattle.ready_queue.specs.Rules.{IsKept};

    ghost holds = { λ items views. IsKept (map T.mark items) views };

    ghost first = { First [] 0 };
}

/// A seat with the next number is split from the first view.
pub struct NewSeat;

impl Split<View> for NewSeat {
    ghost use Rattle.ready_queue.specs.Rules.{with_next, next_seat};

    ghost left = { with_next };

    ghost right = { next_seat };
}

/// A seat is joined into the first view, which gets its row.
pub struct TakeIn;

impl Join<View> for TakeIn {
    ghost use Rattle.ready_queue.specs.declared.view.View.TheVariants.{Spent};
    ghost use Rattle.ready_queue.specs.Rules.{with_row};

    ghost both = { with_row };

    ghost spent = { Spent };
}

/// An item is pushed.
pub struct Push<T> {
    items: PhantomData<T>,
}

impl<T: Queued> Outcome<T, View> for Push<T> {
    ghost use Rattle.std.specs.Prelude.{◌≡◌};
    ghost use Rattle.ready_queue.specs.Rules.{with_pushed};

    ghost then = { λ v x w. w ≡ with_pushed v (T.mark x) };
}

/// An item is taken. Where there is none, the queue was empty at one moment.
pub struct Pop<T> {
    items: PhantomData<T>,
}

impl<T: Queued> Outcome<T, View> for Pop<T> {
    ghost use Rattle.std.specs.Prelude.{◌≡◌, List};
    ghost use Rattle.ready_queue.specs.declared.view.Mark.{Mark};
    ghost use Rattle.ready_queue.specs.Rules.{with_taken, Held};

    ghost then = { λ v x w. (w ≡ with_taken v (T.mark x)) × (items : List Mark) × Held items w };
}

impl<T: Queued> Lesson<T, View> for Pop<T> {
    ghost use Rattle.std.specs.Prelude.{map};
    ghost use Rattle.ready_queue.specs.Rules.{Held};

    ghost fact = { λ v items. Held (map T.mark items) v };
}

/// A look, which tells the first view what the queue holds.
pub struct Look<T> {
    items: PhantomData<T>,
}

impl<T: Queued> Lesson<T, View> for Look<T> {
    ghost use Rattle.std.specs.Prelude.{map};
    ghost use Rattle.ready_queue.specs.Rules.{Tells};

    ghost fact = { λ v items. Tells (map T.mark items) v };
}
