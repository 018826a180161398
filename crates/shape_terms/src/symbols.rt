//! Where two symbols differ.

ghost use Rattle.std.specs.Prelude.{◌≡◌, Some};
ghost use Rattle.shape_terms.specs.declared.symbol.Symbol.TheVariants.{Number, Truth, Untold, Sequence};
ghost use Rattle.shape_terms.specs.Points.{TellsApart};
ghost use Rattle.shape_terms.specs.Symbols.{value_at};

use crate::apart::Apart;
use crate::num_form::NumForm;
use crate::seq_form::SeqForm;
use crate::symbol::Symbol;

/// Where a number differs from a symbol.
pub(crate) fn number_apart(form: &NumForm, other: &Symbol) -> Option<Apart>
    ensures { TellsApart (value_at (Number form.now)) (value_at other.now) result }
{
    match other {
        Symbol::Number(other) => form.tell_apart(other),
        Symbol::Truth(_) => Some(Apart::Zero),
        Symbol::Untold(_) => Some(Apart::Zero),
        Symbol::Sequence(_) => Some(Apart::Zero),
    }
}

/// Where a sequence differs from a symbol.
pub(crate) fn sequence_apart(form: &SeqForm, other: &Symbol) -> Option<Apart>
    ensures { TellsApart (value_at (Sequence form.now)) (value_at other.now) result }
{
    match other {
        Symbol::Number(_) => Some(Apart::Zero),
        Symbol::Truth(_) => Some(Apart::Zero),
        Symbol::Untold(_) => Some(Apart::Zero),
        Symbol::Sequence(other) => form.tell_apart(other),
    }
}

/// Where a bool that is told differs from one that isn't: that one is false, or true.
fn told_apart(truth: bool, untold: u32) -> Apart
    ensures { TellsApart (value_at (Truth truth)) (value_at (Untold untold)) (Some result) }
{
    if truth {
        Apart::Zero
    } else {
        Apart::Truth(untold)
    }
}

/// Where two bools that are told differ.
fn truths_apart(truth: bool, other: bool) -> Option<Apart>
    ensures { TellsApart (value_at (Truth truth)) (value_at (Truth other)) result }
{
    if truth == other {
        None
    } else {
        Some(Apart::Zero)
    }
}

/// Where two bools that aren't told differ.
fn untolds_apart(untold: u32, other: u32) -> Option<Apart>
    ensures { TellsApart (value_at (Untold untold)) (value_at (Untold other)) result }
{
    if untold == other {
        None
    } else {
        Some(Apart::Truth(untold))
    }
}

/// Where a bool that is told differs from a symbol.
pub(crate) fn truth_apart(truth: bool, other: &Symbol) -> Option<Apart>
    ensures { TellsApart (value_at (Truth truth)) (value_at other.now) result }
{
    match other {
        Symbol::Number(_) => Some(Apart::Zero),
        Symbol::Truth(other) => truths_apart(truth, *other),
        Symbol::Untold(untold) => Some(told_apart(truth, *untold)),
        Symbol::Sequence(_) => Some(Apart::Zero),
    }
}

/// Where a bool that isn't told differs from a symbol.
pub(crate) fn untold_apart(untold: u32, other: &Symbol) -> Option<Apart>
    ensures { TellsApart (value_at (Untold untold)) (value_at other.now) result }
{
    match other {
        Symbol::Number(_) => Some(Apart::Zero),
        Symbol::Truth(truth) => Some(told_apart(*truth, untold)),
        Symbol::Untold(other) => untolds_apart(untold, *other),
        Symbol::Sequence(_) => Some(Apart::Zero),
    }
}
