//! Where two sequence forms differ.

ghost use Rattle.std.specs.Prelude.{◌≡◌, ◌≢◌, ◌<◌, ◌+◌, ℕ, ℤ, List as Items, length};
ghost use Rattle.shape_terms.specs.declared.num_form.NumForm.{NumForm as NumFormOf};
ghost use Rattle.shape_terms.specs.declared.shape.Shape.TheVariants.{Exact, Long};
ghost use Rattle.shape_terms.specs.declared.apart.Apart.TheVariants.{Rest};
ghost use Rattle.shape_terms.specs.Points.{Point, TellsApart, point_of};
ghost use Rattle.shape_terms.specs.Numbers.{number};
ghost use Rattle.shape_terms.specs.Sequences.{numbers, items, least as least_of};

use crate::apart::Apart;
use crate::num_form::NumForm;
use crate::seq_form::SeqForm;
use crate::shape::Shape;
use seuss_base::List;

/// Where two lists of forms differ, if they do anywhere.
fn lists_apart(xs: &[NumForm], ys: &[NumForm]) -> Option<Apart>
    requires { length xs.now ≡ length ys.now }
    ensures { TellsApart (numbers xs.now) (numbers ys.now) result }
{
    for at in 0..xs.len() {
        let apart = xs[at].tell_apart(&ys[at]);
        if apart.is_some() {
            return apart;
        }
    }
    None
}

/// Where two sequences differ whose shown parts have the same lengths.
fn parts_apart(
    front: &[NumForm],
    back: &[NumForm],
    other_front: &[NumForm],
    other_back: &[NumForm],
) -> Option<Apart>
    requires fronts { length front.now ≡ length other_front.now }
    requires backs { length back.now ≡ length other_back.now }
    ensures { (r : ℕ) → TellsApart (items (Long front.now r back.now))
        (items (Long other_front.now r other_back.now)) result }
{
    let apart = lists_apart(front, other_front);
    if apart.is_some() {
        return apart;
    }
    lists_apart(back, other_back)
}

/// Where two sequences with the same rest differ, of which the first one's rest begins where the other one
/// has an element before its rest.
fn crossed_apart(front: &List<NumForm>, rest: u32, other_front: &List<NumForm>) -> Option<Apart>
    requires { length front.now < length other_front.now }
    ensures { (back others : Items NumFormOf) →
        TellsApart (items (Long front.now rest back)) (items (Long other_front.now rest others)) result }
{
    match other_front.get(front.len()) {
        Some(form) => Some(Apart::Rest(rest as u64, form.other_than(rest))),
        None => None,
    }
}

/// The least length that a form allows.
fn least(form: &SeqForm) -> u128
    ensures { result ≡ least_of form.now }
{
    match form.shape() {
        Shape::Exact(forms) => forms.len() as u128,
        Shape::Long { front, back, .. } => front.len() as u128 + back.len() as u128,
    }
}

/// Where two sequences with the same rest differ.
fn rests_apart(
    front: &List<NumForm>,
    rest: u32,
    back: &List<NumForm>,
    other_front: &List<NumForm>,
    other_back: &List<NumForm>,
) -> Option<Apart>
    requires { length front.now + length back.now ≡ length other_front.now + length other_back.now }
    ensures { TellsApart (items (Long front.now rest back.now))
        (items (Long other_front.now rest other_back.now)) result }
{
    if front.len() < other_front.len() {
        return crossed_apart(front, rest, other_front);
    }
    if other_front.len() < front.len() {
        return crossed_apart(other_front, rest, front);
    }
    parts_apart(
        front.as_slice(),
        back.as_slice(),
        other_front.as_slice(),
        other_back.as_slice(),
    )
}

/// Where a sequence with a rest differs from one with the same least length.
fn long_apart(
    front: &List<NumForm>,
    rest: u32,
    back: &List<NumForm>,
    other: &SeqForm,
) -> Option<Apart>
    requires { length front.now + length back.now ≡ least_of other.now }
    ensures { TellsApart (items (Long front.now rest back.now)) (items other.now) result }
{
    match other.shape() {
        Shape::Exact(_) => Some(Apart::Rest(rest as u64, 0)),
        Shape::Long {
            front: other_front,
            rest: other_rest,
            back: other_back,
        } => {
            if *other_rest != rest {
                return Some(Apart::Rest(rest as u64, 0));
            }
            rests_apart(front, rest, back, other_front, other_back)
        }
    }
}

/// Where a sequence without a rest differs from one with the same least length.
fn exact_apart(forms: &List<NumForm>, other: &SeqForm) -> Option<Apart>
    requires { length forms.now ≡ least_of other.now }
    ensures { TellsApart (items (Exact forms.now)) (items other.now) result }
{
    match other.shape() {
        Shape::Exact(others) => lists_apart(forms.as_slice(), others.as_slice()),
        Shape::Long { rest, .. } => Some(Apart::Rest(*rest as u64, 0)),
    }
}

/// Where two sequences with the same least length differ.
fn alike_apart(form: &SeqForm, other: &SeqForm) -> Option<Apart>
    requires { least_of form.now ≡ least_of other.now }
    ensures { TellsApart (items form.now) (items other.now) result }
{
    match form.shape() {
        Shape::Exact(forms) => exact_apart(forms, other),
        Shape::Long { front, rest, back } => long_apart(front, *rest, back, other),
    }
}

/// Where two sequences differ, if they do anywhere.
pub(crate) fn tell_apart(form: &SeqForm, other: &SeqForm) -> Option<Apart>
    ensures { TellsApart (items form.now) (items other.now) result }
{
    if least(form) != least(other) {
        return Some(Apart::Zero);
    }
    alike_apart(form, other)
}
