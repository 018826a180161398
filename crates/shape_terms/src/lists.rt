//! Lists of number forms, and what stands at their ends.

ghost use Rattle.std.specs.Prelude.{◌≡◌, ℕ, pos, ◌+◌, ◌++◌, ◌∷◌, [], length, take, IfOk};
ghost use Rattle.std.specs.Int.{w64, int_wrap};
ghost use Rattle.std.specs.Option.{option_copied};
ghost use Rattle.shape_terms.specs.Sequences.{hidden as hidden_by, shown as shown_of, tail_of as tail_by};
ghost use Rattle.shape_terms.specs.Sequences.{start_of as start_by, found as found_of, Answers};

use crate::num_form::NumForm;
use crate::refusal::FormRefusal;
use crate::rows;
use seuss_base::{List, Memory};
use std::alloc::Global;

/// Forms that are equal, one by one.
pub(crate) fn copies(alloc: Global, forms: &[NumForm]) -> Result<List<NumForm>, Memory>
    ensures { IfOk result (λ copied. copied ≡ forms.now) }
{
    let mut copied = List::new(alloc);
    for form in forms {
        copied.push(form.copy(alloc)?)?;
    }
    Ok(copied)
}

/// Why an end with nothing before an unknown rest gives nothing.
pub(crate) fn hidden(others: u64) -> FormRefusal
    ensures { result ≡ hidden_by others }
{
    match others {
        0 => FormRefusal::MayBeEmpty,
        _ => FormRefusal::NotShown,
    }
}

/// The element at an end.
pub(crate) fn shown(
    alloc: Global,
    form: Option<&NumForm>,
    others: u64,
) -> Result<NumForm, FormRefusal>
    ensures { Answers result (shown_of (option_copied form.entry) others) }
{
    match form {
        Some(form) => Ok(form.copy(alloc)?),
        None => Err(hidden(others)),
    }
}

/// A list without its first form.
pub(crate) fn tail_of(
    alloc: Global,
    forms: &[NumForm],
    others: u64,
) -> Result<List<NumForm>, FormRefusal>
    ensures { Answers result (tail_by forms.now others) }
{
    match forms.split_first() {
        Some((_, tail)) => Ok(copies(alloc, tail)?),
        None => Err(hidden(others)),
    }
}

/// A list without its last form.
pub(crate) fn start_of(
    alloc: Global,
    forms: &[NumForm],
    others: u64,
) -> Result<List<NumForm>, FormRefusal>
    ensures { Answers result (start_by forms.now others) }
{
    match forms.split_last() {
        Some((_, start)) => Ok(copies(alloc, start)?),
        None => Err(hidden(others)),
    }
}

/// The element at a place that the form has.
pub(crate) fn found(alloc: Global, form: Option<&NumForm>) -> Result<NumForm, FormRefusal>
    ensures { Answers result (found_of (option_copied form.entry)) }
{
    match form {
        Some(form) => Ok(form.copy(alloc)?),
        None => Err(FormRefusal::NotShown),
    }
}

/// Forms that are equal, and one more at the end.
pub(crate) fn with_last(
    alloc: Global,
    forms: &[NumForm],
    form: &NumForm,
) -> Result<List<NumForm>, Memory>
    ensures { IfOk result (λ more. more ≡ forms.now ++ form.now ∷ []) }
{
    let mut more = copies(alloc, forms)?;
    more.push(form.copy(alloc)?)?;
    Ok(more)
}

/// A count as a number of the notation.
pub(crate) fn count(many: u64) -> i64
    ensures { result ≡ int_wrap w64 (pos many) }
{
    many.cast_signed()
}

/// The sum of two counts as a number of the notation.
pub(crate) fn count_both(many: u64, others: u64) -> i64
    ensures { result ≡ int_wrap w64 (pos (many + others)) }
{
    rows::sum(count(many), count(others))
}
