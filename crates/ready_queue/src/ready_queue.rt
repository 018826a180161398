//! The queue, and its calls.

ghost use Rattle.std.specs.Prelude.{◌≡◌, ◌+◌, ◌∷◌, ◌++◌, [], length, map, true, List};
ghost use Rattle.std.specs.Prelude.{IfOk, OnOk, IfErr, IfSome, IfNone};
ghost use Rattle.std.specs.List.Sorted.{IsStrictlyIncreasing};
ghost use Rattle.ready_queue.specs.declared.view.Mark.{Mark};
ghost use Rattle.ready_queue.specs.declared.view.View.TheVariants.{Seated};
ghost use Rattle.ready_queue.specs.Rules.{new_row, passes, pushing, taking, Held, IsSettled};

use crate::rule::{Fair, Look, NewSeat, Pop, Push, Queued, TakeIn};
use crate::view::View;
use crate::{FirstSeat, ReadySeat};
use crossbeam_queue::RuledSegQueue;
use seuss_base::Memory;
use std::alloc::Global;
use std::marker::Model;
use std::sync::Wait;

/// A queue without a bound, in the order of the pushes. Contracts see which queue it is; what it holds no
/// clause can say, since another thread may change it at any moment.
pub struct ReadyQueue<T: Queued> {
    line: RuledSegQueue<T, View, Fair<T>>,
}

impl<T: Queued> Model for ReadyQueue<T> {
    ghost use Rattle.std.specs.Coded.{coded×, coded_ℕ};
    ghost use Rattle.atomic_blocks.specs.Laid.{WebId};

    ghost Value = { WebId };

    ghost coded = { coded× coded_ℕ coded_ℕ };

    ghost view = { λ q. q.line.web };
}

impl<T: Queued + Drop> ReadyQueue<T> {
    /// An empty queue, and its first view.
    pub fn open(alloc: Global) -> Result<(ReadyQueue<T>, FirstSeat<T>), Memory>
        ensures { IfOk result (λ made. made.1 ≡ record { queue = made.0; rows = []; given = 0 }) }
    {
        let (line, pass) = RuledSegQueue::with_rule(alloc)?;
        Ok((ReadyQueue { line }, FirstSeat { pass }))
    }

    /// A seat with the next number, counted from 0, which has pushed and taken nothing. It takes no memory.
    pub fn seat(&self, first: &mut FirstSeat<T>, number: u32) -> ReadySeat<T>
        requires queue { first.old.queue ≡ self.now }
        requires next { number ≡ first.old.given }
        ensures first { first.new ≡ record first.old { given = first.old.given + 1 } }
        ensures seat { result ≡ record { queue = self.now; row = new_row number } }
    {
        let pass = self.line.another::<NewSeat>(&mut first.pass);
        ReadySeat { number, pass }
    }

    /// Puts an item at the back, under the seat's number. The item comes back where memory is refused: the
    /// queue takes a block for each 31 pushes. It does as well after nearly 2^62 pushes, which no run makes.
    pub fn push<R: Wait>(&self, rt: &R, seat: &mut ReadySeat<T>, item: T) -> Result<(), T>
        requires queue { seat.old.queue ≡ self.now }
        requires own { (T.mark item).seat ≡ seat.old.row.number }
        requires rises { IsStrictlyIncreasing (passes (seat.old.row.pushed ++ T.mark item ∷ [])) }
        ensures pushed { OnOk result
            (seat.new ≡ record { queue = self.now; row = pushing seat.old.row (T.mark item) }) }
        ensures refused { IfErr result (λ back. (back ≡ item) × (seat.new ≡ seat.old)) }
    {
        self.line.push_as::<Push<T>, R>(rt, &mut seat.pass, item)
    }

    /// Takes the item at the front, which is then one more of those taken under the seat's number; by the
    /// rule it is taken this once. None comes only where the queue was empty at one moment of the call, and
    /// says nothing of what is pushed after that.
    pub fn pop<R: Wait>(&self, rt: &R, seat: &mut ReadySeat<T>) -> Option<T>
        requires queue { seat.old.queue ≡ self.now }
        ensures taken { IfSome result
            (λ item. seat.new ≡ record { queue = self.now; row = taking seat.old.row (T.mark item) }) }
        ensures rule { IfSome result (λ _. (items : List Mark) × Held items (Seated seat.new.row)) }
        ensures same { IfNone result (seat.new ≡ seat.old) }
        ensures empty { IfNone result (Held [] (Seated seat.old.row)) }
    {
        self.line.pop_as::<Pop<T>, R>(rt, &mut seat.pass)
    }

    /// Takes the row of a seat into the first view.
    pub fn join(&self, first: &mut FirstSeat<T>, seat: ReadySeat<T>)
        requires queues { (first.old.queue ≡ self.now) × (seat.queue ≡ self.now) }
        ensures { first.new ≡ record first.old { rows = seat.row ∷ first.old.rows } }
    {
        let ReadySeat { number: _, pass } = seat;
        self.line.absorb::<TakeIn>(&mut first.pass, pass);
    }

    /// Whether the queue is empty, without waiting. Where it is, and all seats were joined, what was taken
    /// is just what was pushed, each item once. The answer false is only tested: no clause says what it
    /// means.
    pub fn is_empty(&self, first: &mut FirstSeat<T>) -> bool
        requires queue { first.old.queue ≡ self.now }
        ensures first { first.new ≡ first.old }
        ensures settled { result ≡ true → length first.old.rows ≡ first.old.given →
            IsSettled [] first.old.rows first.old.given }
    {
        self.line.is_empty_as::<Look<T>>(&mut first.pass)
    }

    /// How many items the queue held at one moment of the call. Where all seats were joined, these items and
    /// those that were taken are just those that were pushed, each item once.
    pub fn len<R: Wait>(&self, rt: &R, first: &mut FirstSeat<T>) -> usize
        requires queue { first.old.queue ≡ self.now }
        ensures first { first.new ≡ first.old }
        ensures settled { length first.old.rows ≡ first.old.given →
            (items : List Mark) × (length items ≡ result)
            × IsSettled items first.old.rows first.old.given }
    {
        self.line.len_as::<Look<T>, R>(rt, &mut first.pass)
    }
}

impl<T: Queued + Drop> Drop for ReadyQueue<T> {
    fn drop(self) {
        let Self { line } = self;
        line.destroy();
    }
}

fn needs_send<T: Send>() {}

fn needs_sync<T: Sync>() {}

/// The queue is shared and its seats go from thread to thread, wherever an item may.
pub fn crosses<T: Queued + Send + Drop>() {
    needs_sync::<ReadyQueue<T>>();
    needs_send::<ReadyQueue<T>>();
    needs_send::<ReadySeat<T>>();
    needs_send::<FirstSeat<T>>();
}
