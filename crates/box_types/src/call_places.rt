//! The checks at the places of a call: its box, its method, and the name that takes its result.
ghost use Rattle.std.specs.Prelude.{◌≡◌, ◌≤◌, ◌||◌, ◌==◌, not, length, slice_get, Option, option_map};
ghost use Rattle.std.specs.Option.{option_copied};
ghost use Rattle.box_types.specs.Answers.{Stops};
ghost use Rattle.box_types.specs.Faults.{test_of};
ghost use Rattle.box_types.specs.Scopes.{method_called, target_cat, meaning_in};
ghost use Rattle.box_types.specs.Unknown.{is_undeclared as is_not_declared};
ghost use Rattle.box_types.specs.WrongKind.{is_no_box, is_action, is_not_total, is_no_method, is_not_called};
ghost use Rattle.box_types.specs.WrongKind.{form_is};
ghost use Rattle.box_types.specs.WrongType.{is_no_int, has_no_result};
ghost use Rattle.box_types.specs.ArgumentCounts.{is_another};
ghost use Rattle.box_types.specs.Walks.{Takes, Target, Method};

use crate::checking::{Check, Stop};
use crate::expressions::{find_unknown, is_undeclared};
use crate::faults::refuse;
use crate::lookups::{called, cat_called, meaning, member};
use crate::scopes::{Local, Meaning};
use seuss_program::{Call, Cat, Form, Kind, Name, Proc};

/// Where a statement stands: the cats of the text, the cat of its procedure, and the procedure's number.
#[derive(Clone, Copy)]
pub(crate) struct Home<'a> {
    pub(crate) cats: &'a [Cat<Name>],
    pub(crate) own: &'a Cat<Name>,
    pub(crate) number: usize,
}

/// Whether a known type isn't int.
fn is_not_int(kind: Option<Kind>) -> bool
    ensures { result ≡ is_no_int kind }
{
    match kind {
        Some(Kind::Bool) | Some(Kind::Seq) => true,
        Some(Kind::Int) | None => false,
    }
}

/// Whether a known method has no result.
fn gives_nothing(proc: Option<&Proc<Name>>) -> bool
    ensures { result ≡ has_no_result (option_copied proc.entry) }
{
    match proc {
        Some(proc) => !proc.gives,
        None => false,
    }
}

/// A name of this type, where it is known, that takes the result of a call.
pub(crate) fn at_result(
    check: Check,
    home: &Home,
    visible: &[Local],
    kind: Option<Kind>,
    name: &Name,
    call: &Call<Name>,
) -> Result<(), Stop>
    ensures { Stops result (test_of check (Takes home.now.cats.now home.now.own.now visible.now kind
        name.now call.now)) }
{
    match check {
        Check::WrongType => {
            let proc = called(home.cats, home.own, visible, call);
            refuse(is_not_int(kind) || gives_nothing(proc), name.line)
        }
        Check::Twice | Check::Unknown | Check::WrongKind | Check::Arguments | Check::Count => {
            Ok(())
        }
    }
}

/// Whether a name is declared, but not as a given box.
fn is_not_box(meaning: Meaning) -> bool
    ensures { result ≡ is_no_box meaning }
{
    match meaning {
        Meaning::GivenBox(_) => false,
        Meaning::Procedure(_) => true,
        Meaning::Slot { .. } => true,
        Meaning::Variable { .. } => true,
        Meaning::Nothing => false,
    }
}

/// The box that a call names.
pub(crate) fn at_target(
    check: Check,
    own: &Cat<Name>,
    visible: &[Local],
    name: &Name,
) -> Result<(), Stop>
    ensures { Stops result (test_of check (Target own.now visible.now name.now)) }
{
    match check {
        Check::Unknown => find_unknown(own, visible, name),
        Check::WrongKind => refuse(is_not_box(meaning(own, visible, name)), name.line),
        Check::Twice | Check::WrongType | Check::Arguments | Check::Count => Ok(()),
    }
}

pub(crate) fn is_action_form(form: &Form<Name>) -> bool
    ensures { result ≡ is_action form.now }
{
    match form {
        Form::Total(_) => false,
        Form::Partial(_) => false,
        Form::Action(_) => true,
    }
}

/// Whether what a cat declares is no method.
pub(crate) fn is_not_method(own: &Cat<Name>, meaning: Meaning) -> bool
    ensures { result ≡ is_no_method is_action own.now meaning }
{
    match meaning {
        Meaning::Procedure(number) => match own.procs.as_slice().get(number) {
            Some(proc) => is_action_form(&proc.form),
            None => false,
        },
        Meaning::GivenBox(_) => true,
        Meaning::Slot { .. } => true,
        Meaning::Variable { .. } => true,
        Meaning::Nothing => false,
    }
}

fn is_other_than_total(form: &Form<Name>) -> bool
    ensures { result ≡ is_not_total form.now }
{
    match form {
        Form::Total(_) => false,
        Form::Partial(_) => true,
        Form::Action(_) => true,
    }
}

/// Whether what a cat declares is no total method.
pub(crate) fn is_not_total_method(own: &Cat<Name>, meaning: Meaning) -> bool
    ensures { result ≡ is_no_method is_not_total own.now meaning }
{
    match meaning {
        Meaning::Procedure(number) => match own.procs.as_slice().get(number) {
            Some(proc) => is_other_than_total(&proc.form),
            None => false,
        },
        Meaning::GivenBox(_) => true,
        Meaning::Slot { .. } => true,
        Meaning::Variable { .. } => true,
        Meaning::Nothing => false,
    }
}

/// Whether a cat, where it is known, doesn't declare a name.
fn is_missing(cat: Option<&Cat<Name>>, name: &Name) -> bool
    ensures { result ≡ is_not_declared (option_copied cat.entry) name.now }
{
    match cat {
        Some(cat) => is_undeclared(member(cat, name)),
        None => false,
    }
}

/// Whether a cat, where it is known, declares a name as no method.
fn is_not_callable(cat: Option<&Cat<Name>>, name: &Name) -> bool
    ensures { result ≡ is_not_called (option_copied cat.entry) name.now }
{
    match cat {
        Some(cat) => is_not_method(cat, member(cat, name)),
        None => false,
    }
}

/// Whether a known method has another number of parameters.
fn takes_another_number(proc: Option<&Proc<Name>>, count: u64) -> bool
    ensures { result ≡ is_another (option_map (λ q. length q.params) (option_copied proc.entry)) count }
{
    match proc {
        Some(proc) => proc.params.len() != count,
        None => false,
    }
}

/// The method that a call names.
pub(crate) fn at_method(
    check: Check,
    home: &Home,
    visible: &[Local],
    call: &Call<Name>,
) -> Result<(), Stop>
    ensures { Stops result (test_of check (Method home.now.cats.now home.now.own.now visible.now
        call.now)) }
{
    let name = &call.method;
    match check {
        Check::Unknown => {
            let cat = cat_called(home.cats, home.own, visible, &call.target);
            refuse(is_missing(cat, name), name.line)
        }
        Check::WrongKind => {
            let cat = cat_called(home.cats, home.own, visible, &call.target);
            refuse(is_not_callable(cat, name), name.line)
        }
        Check::Arguments => {
            let proc = called(home.cats, home.own, visible, call);
            refuse(takes_another_number(proc, call.args.len()), name.line)
        }
        Check::Twice | Check::WrongType | Check::Count => Ok(()),
    }
}
