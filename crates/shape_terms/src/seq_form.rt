//! Sequence forms, with the functions of the notation on them.

ghost use Rattle.std.specs.Prelude.{◌≡◌, ◌≢◌, ℕ, ℤ, ◌+◌, pos, nat_lt, Some, length, IfOk, Ok, IsTrue};
ghost use Rattle.std.specs.Int.{w64, int_wrap};
ghost use Rattle.seuss_program.specs.Values.{apply, measure, Evaluated};
ghost use Rattle.seuss_program.specs.declared.tree.Op.TheVariants.{Add};
ghost use Rattle.seuss_program.specs.declared.tree.Fun.TheVariants.{First, Last, Rest, Front, Len};
ghost use Rattle.seuss_program.specs.declared.state.Value.TheVariants.{Int, Seq};
ghost use Rattle.shape_terms.specs.declared.shape.Shape.TheVariants.{Exact, Long};
ghost use Rattle.shape_terms.specs.Points.{Point, HasNumbers, TellsApart};
ghost use Rattle.shape_terms.specs.Numbers.{number};
ghost use Rattle.shape_terms.specs.Sequences.{at_literal, items, least, first, last, rest, front, at, add};
ghost use Rattle.shape_terms.specs.Sequences.{len};
ghost use Rattle.shape_terms.specs.Sequences.{Answers, TakesNumber, TakesItems, TakesAt};

use crate::apart::Apart;
use crate::num_form::NumForm;
use crate::refusal::FormRefusal;
use crate::shape::Shape;
use crate::{taking, telling};
use seuss_base::{List, Memory};
use std::alloc::Global;
use std::marker::Model;

/// A sequence of a case. Contracts see it as its shape.
#[derive(Debug, Drop)]
pub struct SeqForm {
    shape: Shape,
}

impl Model for SeqForm {
    ghost use Rattle.shape_terms.specs.declared.shape.Shape.{Shape as TheShape};
    ghost use Rattle.shape_terms.specs.contracts.shape.Shape as shape_row;

    ghost Value = { TheShape };

    ghost coded = { shape_row.the_row.coded };

    ghost view = { λ form. form.shape };
}

impl SeqForm {
    /// The sequence of these elements.
    pub fn exact(items: List<NumForm>) -> SeqForm
        ensures { result ≡ Exact items }
    {
        SeqForm {
            shape: Shape::Exact(items),
        }
    }

    /// The sequence that begins with the first elements and ends with the last ones, with an unknown rest
    /// between them.
    pub fn long(front: List<NumForm>, rest: u32, back: List<NumForm>) -> SeqForm
        ensures { result ≡ Long front rest back }
    {
        SeqForm {
            shape: Shape::Long { front, rest, back },
        }
    }

    /// What the sequence is known to be.
    pub fn shape(&self) -> &Shape
        ensures { result.now ≡ self.now }
    {
        &self.shape
    }

    /// The form of `first`. It is refused as `MayBeEmpty` where the sequence may be empty, and as `NotShown`
    /// where its first element is that of an unknown rest, or one behind it.
    pub fn first(&self, alloc: Global) -> Result<NumForm, FormRefusal>
        ensures form { Answers result (first self.now) }
        ensures value { TakesNumber (λ p. measure First (items self.now p)) result }
    {
        taking::first(alloc, self)
    }

    /// The form of `last`, refused as `first` is.
    pub fn last(&self, alloc: Global) -> Result<NumForm, FormRefusal>
        ensures form { Answers result (last self.now) }
        ensures value { TakesNumber (λ p. measure Last (items self.now p)) result }
    {
        taking::last(alloc, self)
    }

    /// The form of `rest`, refused as `first` is.
    pub fn rest(&self, alloc: Global) -> Result<SeqForm, FormRefusal>
        ensures form { Answers result (rest self.now) }
        ensures value { TakesItems (λ p. measure Rest (items self.now p)) result }
    {
        taking::rest(alloc, self)
    }

    /// The form of `front`, refused as `last` is.
    pub fn front(&self, alloc: Global) -> Result<SeqForm, FormRefusal>
        ensures form { Answers result (front self.now) }
        ensures value { TakesItems (λ p. measure Front (items self.now p)) result }
    {
        taking::front(alloc, self)
    }

    /// The form of `at`. It is refused as `MayBeEmpty` where the index isn't a number below each length that
    /// the sequence may have, and as `NotShown` where the element is behind the beginning of an unknown
    /// rest.
    pub fn at(&self, alloc: Global, index: &NumForm) -> Result<NumForm, FormRefusal>
        ensures form { Answers result (at self.now index.now) }
        ensures value { TakesAt self.now index.now result }
    {
        let place = index.as_literal();
        taking::at(alloc, self, place)
    }

    /// The form of `add`.
    pub fn add(&self, alloc: Global, item: &NumForm) -> Result<SeqForm, Memory>
        ensures form { IfOk result (λ more. more ≡ add self.now item.now) }
        ensures value { IfOk result (λ more. (p : Point) →
            apply Add (Seq (items self.now p)) (Int (number item.now p)) ≡ Ok (Seq (items more p))) }
    {
        taking::add(alloc, self, item)
    }

    /// The form of `len`.
    pub fn len(&self, alloc: Global) -> Result<NumForm, Memory>
        ensures form { IfOk result (λ form. form ≡ len self.now) }
        ensures value { IfOk result (λ form. (p : Point) →
            measure Len (items self.now p) ≡ Ok (Int (number form p))) }
    {
        taking::len(alloc, self)
    }

    /// An equal form of its own.
    pub fn copy(&self, alloc: Global) -> Result<SeqForm, Memory>
        ensures { IfOk result (λ form. form ≡ self.now) }
    {
        taking::copy(alloc, self)
    }

    /// Where the forms differ, if they do anywhere.
    pub fn tell_apart(&self, other: &SeqForm) -> Option<Apart>
        ensures { TellsApart (items self.now) (items other.now) result }
    {
        telling::tell_apart(self, other)
    }

    /// Whether the forms are equal at every point.
    pub fn same(&self, other: &SeqForm) -> bool
        ensures equal { IsTrue result → (p : Point) → items self.now p ≡ items other.now p }
        ensures only { ((p : Point) → HasNumbers p → items self.now p ≡ items other.now p) → IsTrue result }
    {
        self.tell_apart(other).is_none()
    }
}
