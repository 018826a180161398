//! What a sequence form stands for where forms are told apart.

ghost use Rattle.std.specs.Prelude.{◌≡◌, ◌++◌, ◌==◌, IfOk, OnOk};
ghost use Rattle.shape_terms.specs.Points.{point_of};
ghost use Rattle.shape_terms.specs.Sequences.{numbers as numbers_of, items};

use crate::apart::Apart;
use crate::num_form::NumForm;
use crate::seq_form::SeqForm;
use crate::shape::Shape;
use seuss_base::{Ints, Memory};
use std::alloc::Global;

/// Puts what forms stand for at the end of a sequence.
fn push_numbers(numbers: &mut Ints, forms: &[NumForm], at: &Apart) -> Result<(), Memory>
    ensures { OnOk result (numbers.new ≡ numbers.old ++ numbers_of forms.now (point_of at.now)) }
{
    for form in forms {
        numbers.push(form.value_at(at))?;
    }
    Ok(())
}

/// Puts what an unknown rest stands for at the end of a sequence.
fn push_rest(numbers: &mut Ints, rest: u32, at: &Apart) -> Result<(), Memory>
    ensures { OnOk result (numbers.new ≡ numbers.old ++ (point_of at.now).rests rest) }
{
    match at {
        Apart::Rest(place, number) => {
            if rest as u64 == *place {
                numbers.push(*number)?;
            }
            Ok(())
        }
        Apart::Zero => Ok(()),
        Apart::Atom(_) => Ok(()),
        Apart::Truth(_) => Ok(()),
    }
}

/// What a sequence form stands for where forms are told apart.
pub(crate) fn value_at(alloc: Global, form: &SeqForm, at: &Apart) -> Result<Ints, Memory>
    ensures { IfOk result (λ numbers. numbers ≡ items form.now (point_of at.now)) }
{
    let mut numbers = Ints::new(alloc);
    match form.shape() {
        Shape::Exact(forms) => push_numbers(&mut numbers, forms.as_slice(), at)?,
        Shape::Long { front, rest, back } => {
            push_numbers(&mut numbers, front.as_slice(), at)?;
            push_rest(&mut numbers, *rest, at)?;
            push_numbers(&mut numbers, back.as_slice(), at)?;
        }
    }
    Ok(numbers)
}
