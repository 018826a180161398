//! What a name means at a place, and what stands under it.
ghost use Rattle.std.specs.Prelude.{◌≡◌, ◌<◌, length, IfSome, Option};
ghost use Rattle.std.specs.Option.{option_copied};
ghost use Rattle.box_types.specs.Scopes.{named, number_of as place_of_name, cat_named as cat_of_name};
ghost use Rattle.box_types.specs.Scopes.{local_meaning, var_meaning, given_meaning, proc_meaning};
ghost use Rattle.box_types.specs.Scopes.{meaning_in};
ghost use Rattle.box_types.specs.Scopes.{meaning_of, given_at, target_cat, method_called, kind_in};
ghost use Rattle.box_types.specs.Twice.{has_name as has_the_name};

use crate::names::Named;
use crate::scopes::{Local, Meaning};
use seuss_program::{Call, Cat, Given, Kind, Name, Proc, Var};

/// Whether one of these has the name.
pub(crate) fn is_among<T: Named>(items: &[T], name: &Name) -> bool
    ensures { result ≡ has_the_name T.name_of items.now name.now }
{
    items.iter().any(|item| item.name().is_same(name))
}

/// The first one that has the name.
pub(crate) fn first_named<'a, T: Named>(items: &'a [T], name: &Name) -> Option<&'a T>
    ensures { option_copied result ≡ named T.name_of items.now name.now }
{
    items.iter().find(|item| item.name().is_same(name))
}

/// The place of the first one that has the name, counted from 0.
pub(crate) fn number_of<T: Named>(items: &[T], name: &Name) -> Option<usize>
    ensures value { result ≡ place_of_name T.name_of items.now name.now }
    ensures within { IfSome result (λ at. at < length items.now) }
{
    items.iter().position(|item| item.name().is_same(name))
}

/// The cat of a name.
pub(crate) fn cat_named<'a>(cats: &'a [Cat<Name>], name: &Name) -> Option<&'a Cat<Name>>
    ensures { option_copied result ≡ cat_of_name cats.now name.now }
{
    first_named(cats, name)
}

/// What a name stands for among the names that are visible.
fn among_locals(visible: &[Local], name: &Name) -> Option<Meaning>
    ensures { result ≡ local_meaning visible.now name.now }
{
    let local = first_named(visible, name)?;
    Some(Meaning::Slot {
        slot: local.slot,
        kind: local.kind,
        is_param: local.is_param,
    })
}

/// The type of the first variable that has the name, or int where there is none.
fn kind_of_var(vars: &[Var], name: &Name) -> Kind
    ensures { result ≡ kind_in (named (λ v. v.name) vars.now name.now) }
{
    match first_named(vars, name) {
        Some(var) => var.kind,
        None => Kind::Int,
    }
}

/// What a name stands for among variables.
fn among_vars(vars: &[Var], name: &Name) -> Option<Meaning>
    ensures { result ≡ var_meaning vars.now name.now }
{
    let number = number_of(vars, name)?;
    let kind = kind_of_var(vars, name);
    Some(Meaning::Variable { number, kind })
}

fn among_given(own: &Cat<Name>, name: &Name) -> Option<Meaning>
    ensures { result ≡ given_meaning own.now name.now }
{
    let number = number_of(own.given.as_slice(), name)?;
    Some(Meaning::GivenBox(number))
}

fn among_procs(own: &Cat<Name>, name: &Name) -> Option<Meaning>
    ensures { result ≡ proc_meaning own.now name.now }
{
    let number = number_of(own.procs.as_slice(), name)?;
    Some(Meaning::Procedure(number))
}

/// What a name of a cat stands for outside its procedures.
pub(crate) fn member(own: &Cat<Name>, name: &Name) -> Meaning
    ensures { result ≡ meaning_in own.now name.now }
{
    if let Some(meaning) = among_vars(own.vars.as_slice(), name) {
        return meaning;
    }
    if let Some(meaning) = among_given(own, name) {
        return meaning;
    }
    match among_procs(own, name) {
        Some(meaning) => meaning,
        None => Meaning::Nothing,
    }
}

/// What a name stands for at a place of a procedure, where these names are visible.
pub(crate) fn meaning(own: &Cat<Name>, visible: &[Local], name: &Name) -> Meaning
    ensures { result ≡ meaning_of own.now visible.now name.now }
{
    match among_locals(visible, name) {
        Some(meaning) => meaning,
        None => member(own, name),
    }
}

/// The given box that a meaning is.
fn given_box(own: &Cat<Name>, meaning: Meaning) -> Option<&Given<Name>>
    ensures { option_copied result ≡ given_at own.now meaning }
{
    match meaning {
        Meaning::GivenBox(number) => own.given.as_slice().get(number),
        Meaning::Slot { .. } => None,
        Meaning::Variable { .. } => None,
        Meaning::Procedure(_) => None,
        Meaning::Nothing => None,
    }
}

/// The cat of the box that a call names.
pub(crate) fn cat_called<'a>(
    cats: &'a [Cat<Name>],
    own: &Cat<Name>,
    visible: &[Local],
    target: &Name,
) -> Option<&'a Cat<Name>>
    ensures { option_copied result ≡ target_cat cats.now own.now visible.now target.now }
{
    let given = given_box(own, meaning(own, visible, target))?;
    cat_named(cats, &given.cat)
}

/// The method that a call names.
pub(crate) fn called<'a>(
    cats: &'a [Cat<Name>],
    own: &Cat<Name>,
    visible: &[Local],
    call: &Call<Name>,
) -> Option<&'a Proc<Name>>
    ensures { option_copied result ≡ method_called cats.now own.now visible.now call.now }
{
    let cat = cat_called(cats, own, visible, &call.target)?;
    first_named(cat.procs.as_slice(), &call.method)
}
