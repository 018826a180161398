//! The cases of one variable or parameter.

ghost use Rattle.std.specs.Prelude.{◌≡◌, ◌<◌, ◌≤◌, ◌+◌, ◌*◌, ◌^◌, ◌||◌, ◌&&◌, true, length, All, IfOk};
ghost use Rattle.seuss_program.specs.declared.tree.Ref.{Ref};
ghost use Rattle.seuss_program.specs.declared.tree.Hint.{Hint};
ghost use Rattle.shape_terms.specs.Texts.{in_form, is_variable};
ghost use Rattle.seuss_program.specs.declared.tree.Kind.TheVariants.{Int, Bool};
ghost use Rattle.shape_terms.specs.Cases.{atoms_from as atoms_of, sequence_choices as sequence_by};
ghost use Rattle.shape_terms.specs.Cases.{depth_of as depth_by, same_side as same_side_as};
ghost use Rattle.shape_terms.specs.Cases.{var_choices as var_by};
ghost use Rattle.shape_terms.specs.Cases.{vars_choices as vars_by, param_choices as params_by};

use crate::num_form::NumForm;
use crate::seq_form::SeqForm;
use crate::symbol::Symbol;
use crate::texts;
use seuss_base::{List, Memory};
use seuss_program::{Hint, Kind, Param, Proc, Ref, Var};
use std::alloc::Global;

/// Atoms one after the other.
fn atoms_from(alloc: Global, first: u32, many: u32) -> Result<List<NumForm>, Memory>
    requires { first + many < 2 ^ 32 }
    ensures { IfOk result (λ forms. forms ≡ atoms_of first many) }
{
    let mut forms = List::new(alloc);
    for at in first..first + many {
        forms.push(NumForm::atom(alloc, at)?)?;
    }
    Ok(forms)
}

/// The cases of a sequence that is looked at to these depths.
fn sequence_choices(
    alloc: Global,
    place: u32,
    front: u32,
    back: u32,
) -> Result<List<Symbol>, Memory>
    requires place { place < 128 }
    requires front { front ≤ 4 }
    requires back { back ≤ 4 }
    ensures { IfOk result (λ choices. choices ≡ sequence_by place front back) }
{
    let mut choices = List::new(alloc);
    for length in 0..front + back {
        let forms = atoms_from(alloc, 8 * place, length)?;
        choices.push(Symbol::Sequence(SeqForm::exact(forms)))?;
    }
    let first = atoms_from(alloc, 8 * place, front)?;
    let last = atoms_from(alloc, 8 * place + front, back)?;
    choices.push(Symbol::Sequence(SeqForm::long(first, place, last)))?;
    Ok(choices)
}

/// The cases of a bool.
fn truth_choices(alloc: Global, place: u32, in_text: bool) -> Result<List<Symbol>, Memory>
    ensures { IfOk result (λ choices. choices ≡ var_by Bool place in_text 0 0) }
{
    let mut choices = List::new(alloc);
    if !in_text {
        choices.push(Symbol::Untold(place))?;
        return Ok(choices);
    }
    choices.push(Symbol::Truth(true))?;
    choices.push(Symbol::Truth(false))?;
    Ok(choices)
}

/// The one case of a number.
fn number_choices(alloc: Global, place: u32) -> Result<List<Symbol>, Memory>
    requires { place < 128 }
    ensures { IfOk result (λ choices. choices ≡ var_by Int place true 0 0) }
{
    let mut choices = List::new(alloc);
    choices.push(Symbol::Number(NumForm::atom(alloc, 8 * place)?))?;
    Ok(choices)
}

/// The cases of a place.
fn var_choices(
    alloc: Global,
    kind: Kind,
    place: u32,
    in_text: bool,
    front: u32,
    back: u32,
) -> Result<List<Symbol>, Memory>
    requires place { place < 128 }
    requires front { front ≤ 4 }
    requires back { back ≤ 4 }
    ensures { IfOk result (λ choices. choices ≡ var_by kind place in_text front back) }
{
    match kind {
        Kind::Int => number_choices(alloc, place),
        Kind::Bool => truth_choices(alloc, place, in_text),
        Kind::Seq => {
            if in_text {
                sequence_choices(alloc, place, front, back)
            } else {
                sequence_choices(alloc, place, 0, 0)
            }
        }
    }
}

/// Whether a hint names this side of a variable.
fn is_hint(side: bool, variable: u32, hint: &Hint<Ref>) -> bool
    ensures { result ≡ (is_variable variable hint.now.name && same_side_as side hint.now.front) }
{
    texts::is_variable(variable, hint.name) && side == hint.front
}

/// The depth that hints name at one side of a variable.
fn depth_of(side: bool, variable: u32, hints: &[Hint<Ref>]) -> u32
    requires { All (λ (h : Hint Ref). h.depth ≤ 4) hints.now }
    ensures value { result ≡ depth_by side variable hints.now }
    ensures few { result ≤ 4 }
{
    for hint in hints {
        if is_hint(side, variable, hint) {
            return hint.depth as u32;
        }
    }
    0
}

/// Whether a variable stands in the text of one of the methods.
fn in_texts(variable: u32, first: &Proc<Ref>, second: &Proc<Ref>) -> bool
    ensures { result ≡ (in_form variable first.now.form || in_form variable second.now.form) }
{
    texts::in_form(variable, &first.form) || texts::in_form(variable, &second.form)
}

/// The cases of each variable.
pub(crate) fn vars_choices(
    alloc: Global,
    vars: &[Var],
    first: &Proc<Ref>,
    second: &Proc<Ref>,
    hints: &[Hint<Ref>],
) -> Result<List<List<Symbol>>, Memory>
    requires few { length vars.now ≤ 32 }
    requires depths { All (λ (h : Hint Ref). h.depth ≤ 4) hints.now }
    ensures { IfOk result (λ choices. choices ≡ vars_by 0 first.now second.now hints.now vars.now) }
{
    let mut choices = List::new(alloc);
    for (place, var) in vars.iter().enumerate() {
        let place = place as u32;
        let in_text = in_texts(place, first, second);
        let front = depth_of(true, place, hints);
        let back = depth_of(false, place, hints);
        choices.push(var_choices(alloc, var.kind, place, in_text, front, back)?)?;
    }
    Ok(choices)
}

/// The cases of each parameter, of which the first has this place.
pub(crate) fn param_choices(
    alloc: Global,
    first: u32,
    params: &[Param],
) -> Result<List<List<Symbol>>, Memory>
    requires { first + length params.now ≤ 128 }
    ensures { IfOk result (λ choices. choices ≡ params_by first params.now) }
{
    let mut choices = List::new(alloc);
    for (at, param) in params.iter().enumerate() {
        let place = first + at as u32;
        choices.push(var_choices(alloc, param.kind, place, true, 0, 0)?)?;
    }
    Ok(choices)
}
