//! What is taken from a sequence form: an element, or all but one.

ghost use Rattle.std.specs.Prelude.{◌≡◌, ◌++◌, ◌∷◌, [], nat_lt, Some, IfOk};
ghost use Rattle.shape_terms.specs.Sequences.{at_literal as literal_place, least as least_of};
ghost use Rattle.shape_terms.specs.Sequences.{first as first_of};
ghost use Rattle.shape_terms.specs.Sequences.{last as last_of, rest as rest_of, front as front_of};
ghost use Rattle.shape_terms.specs.Sequences.{add as add_to};
ghost use Rattle.shape_terms.specs.Sequences.{len as len_of, Answers};

use crate::lists;
use crate::num_form::NumForm;
use crate::refusal::FormRefusal;
use crate::seq_form::SeqForm;
use crate::shape::Shape;
use seuss_base::Memory;
use std::alloc::Global;

/// The first element.
pub(crate) fn first(alloc: Global, form: &SeqForm) -> Result<NumForm, FormRefusal>
    ensures { Answers result (first_of form.now) }
{
    match form.shape() {
        Shape::Exact(forms) => lists::shown(alloc, forms.get(0), 0),
        Shape::Long { front, back, .. } => lists::shown(alloc, front.get(0), back.len()),
    }
}

/// The last element.
pub(crate) fn last(alloc: Global, form: &SeqForm) -> Result<NumForm, FormRefusal>
    ensures { Answers result (last_of form.now) }
{
    match form.shape() {
        Shape::Exact(forms) => lists::shown(alloc, forms.as_slice().last(), 0),
        Shape::Long { front, back, .. } => {
            lists::shown(alloc, back.as_slice().last(), front.len())
        }
    }
}

/// All but the first element.
pub(crate) fn rest(alloc: Global, form: &SeqForm) -> Result<SeqForm, FormRefusal>
    ensures { Answers result (rest_of form.now) }
{
    match form.shape() {
        Shape::Exact(forms) => Ok(SeqForm::exact(lists::tail_of(alloc, forms.as_slice(), 0)?)),
        Shape::Long { front, rest, back } => {
            let front = lists::tail_of(alloc, front.as_slice(), back.len())?;
            let back = lists::copies(alloc, back.as_slice())?;
            Ok(SeqForm::long(front, *rest, back))
        }
    }
}

/// All but the last element.
pub(crate) fn front(alloc: Global, form: &SeqForm) -> Result<SeqForm, FormRefusal>
    ensures { Answers result (front_of form.now) }
{
    match form.shape() {
        Shape::Exact(forms) => Ok(SeqForm::exact(lists::start_of(alloc, forms.as_slice(), 0)?)),
        Shape::Long { front, rest, back } => {
            let back = lists::start_of(alloc, back.as_slice(), front.len())?;
            let front = lists::copies(alloc, front.as_slice())?;
            Ok(SeqForm::long(front, *rest, back))
        }
    }
}

/// The element at an index, where that is a number.
pub(crate) fn at(alloc: Global, form: &SeqForm, index: Option<i64>) -> Result<NumForm, FormRefusal>
    ensures { Answers result (literal_place form.now index) }
{
    match index {
        Some(place) => at_place(alloc, form, place),
        None => Err(FormRefusal::MayBeEmpty),
    }
}

fn at_place(alloc: Global, form: &SeqForm, place: i64) -> Result<NumForm, FormRefusal>
    ensures { Answers result (literal_place form.now (Some place)) }
{
    if place < 0 {
        return Err(FormRefusal::MayBeEmpty);
    }
    let place = place as u64;
    if !is_within(form, place) {
        return Err(FormRefusal::MayBeEmpty);
    }
    match form.shape() {
        Shape::Exact(forms) => lists::found(alloc, forms.get(place)),
        Shape::Long { front, .. } => lists::found(alloc, front.get(place)),
    }
}

/// Whether a place is below each length that the form allows.
fn is_within(form: &SeqForm, place: u64) -> bool
    ensures { result ≡ nat_lt place (least_of form.now) }
{
    match form.shape() {
        Shape::Exact(forms) => place < forms.len(),
        Shape::Long { front, back, .. } => {
            place < front.len() || place - front.len() < back.len()
        }
    }
}

/// One more element at the end.
pub(crate) fn add(alloc: Global, form: &SeqForm, item: &NumForm) -> Result<SeqForm, Memory>
    ensures { IfOk result (λ more. more ≡ add_to form.now item.now) }
{
    match form.shape() {
        Shape::Exact(forms) => {
            Ok(SeqForm::exact(lists::with_last(alloc, forms.as_slice(), item)?))
        }
        Shape::Long { front, rest, back } => {
            let front = lists::copies(alloc, front.as_slice())?;
            let back = lists::with_last(alloc, back.as_slice(), item)?;
            Ok(SeqForm::long(front, *rest, back))
        }
    }
}

/// The length.
pub(crate) fn len(alloc: Global, form: &SeqForm) -> Result<NumForm, Memory>
    ensures { IfOk result (λ len. len ≡ len_of form.now) }
{
    match form.shape() {
        Shape::Exact(forms) => NumForm::literal(alloc, lists::count(forms.len())),
        Shape::Long { front, rest, back } => {
            let shown = lists::count_both(front.len(), back.len());
            NumForm::longer(alloc, *rest, shown)
        }
    }
}

/// An equal form of its own.
pub(crate) fn copy(alloc: Global, form: &SeqForm) -> Result<SeqForm, Memory>
    ensures { IfOk result (λ copied. copied ≡ form.now) }
{
    match form.shape() {
        Shape::Exact(forms) => Ok(SeqForm::exact(lists::copies(alloc, forms.as_slice())?)),
        Shape::Long { front, rest, back } => {
            let front = lists::copies(alloc, front.as_slice())?;
            let back = lists::copies(alloc, back.as_slice())?;
            Ok(SeqForm::long(front, *rest, back))
        }
    }
}
