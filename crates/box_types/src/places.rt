//! The checks at declared names, at values and at assigned names.
ghost use Rattle.std.specs.Prelude.{◌≡◌, ◌≤◌, ◌<◌, ◌+◌, ◌||◌, length};
ghost use Rattle.box_types.specs.Answers.{Stops};
ghost use Rattle.box_types.specs.Faults.{test_of};
ghost use Rattle.box_types.specs.Twice.{is_member, has_given, has_var, has_proc, has_local, has_name};
ghost use Rattle.box_types.specs.Unknown.{unknown_cat};
ghost use Rattle.box_types.specs.WrongKind.{is_fixed};
ghost use Rattle.box_types.specs.Limits.{result_passes};
ghost use Rattle.box_types.specs.Walks.{CatName, GivenName, VarName, ProcName, LocalName, GivenCat, When};
ghost use Rattle.box_types.specs.Walks.{Value};
ghost use Rattle.box_types.specs.Walks.{Assigned};

use crate::checking::{Check, Stop};
use crate::expressions::{find_no_value_in, find_unknown, find_unknown_in, find_wrong};
use crate::faults::refuse;
use crate::lookups::{cat_named, is_among, meaning};
use crate::scopes::{Local, Meaning, Scope};
use seuss_program::{Call, Cat, Expr, Given, Kind, Name, Proc, Var};

/// The name of the cat of this number.
pub(crate) fn at_cat_name(
    check: Check,
    cats: &[Cat<Name>],
    number: usize,
    name: &Name,
) -> Result<(), Stop>
    requires { number ≤ length cats.now }
    ensures { Stops result (test_of check (CatName cats.now number name.now)) }
{
    match check {
        Check::Twice => refuse(is_among(&cats[..number], name), name.line),
        Check::Count => refuse(number == 66, name.line),
        Check::Unknown | Check::WrongKind | Check::WrongType | Check::Arguments => Ok(()),
    }
}

/// The name of the given box of this number.
pub(crate) fn at_given_name(
    check: Check,
    own: &Cat<Name>,
    number: usize,
    name: &Name,
) -> Result<(), Stop>
    requires { number ≤ length own.now.given }
    ensures { Stops result (test_of check (GivenName own.now number name.now)) }
{
    let given = own.given.as_slice();
    match check {
        Check::Twice => refuse(is_among(&given[..number], name), name.line),
        Check::Count => refuse(number == 16, name.line),
        Check::Unknown | Check::WrongKind | Check::WrongType | Check::Arguments => Ok(()),
    }
}

/// Whether a name is that of a given box or of one of these variables.
fn is_given_or_var(given: &[Given<Name>], vars: &[Var], name: &Name) -> bool
    ensures { result ≡ (has_given given.now name.now || has_var vars.now name.now) }
{
    is_among(given, name) || is_among(vars, name)
}

/// The name of the variable of this number.
pub(crate) fn at_var_name(
    check: Check,
    own: &Cat<Name>,
    number: usize,
    name: &Name,
) -> Result<(), Stop>
    requires { number ≤ length own.now.vars }
    ensures { Stops result (test_of check (VarName own.now number name.now)) }
{
    let vars = own.vars.as_slice();
    match check {
        Check::Twice => {
            let taken = is_given_or_var(own.given.as_slice(), &vars[..number], name);
            refuse(taken, name.line)
        }
        Check::Count => refuse(number == 32, name.line),
        Check::Unknown | Check::WrongKind | Check::WrongType | Check::Arguments => Ok(()),
    }
}

/// Whether a name is that of one of these variables or procedures.
fn is_var_or_proc(vars: &[Var], procs: &[Proc<Name>], name: &Name) -> bool
    ensures { result ≡ (has_var vars.now name.now || has_proc procs.now name.now) }
{
    is_among(vars, name) || is_among(procs, name)
}

/// Whether a name is that of a given box, a variable or one of these procedures of a cat.
fn is_member_among(own: &Cat<Name>, procs: &[Proc<Name>], name: &Name) -> bool
    ensures { result ≡ (has_given own.now.given name.now ||
        (has_var own.now.vars name.now || has_proc procs.now name.now)) }
{
    let others = is_var_or_proc(own.vars.as_slice(), procs, name);
    is_among(own.given.as_slice(), name) || others
}

/// Whether a procedure may not have its name: that of a given box, of a variable, of a procedure before
/// it or of one of these locals.
fn is_proc_taken(own: &Cat<Name>, number: usize, earlier: &[Name], name: &Name) -> bool
    requires { number ≤ length own.now.procs }
    ensures { result ≡ (is_member own.now number name.now || has_name (λ m. m) earlier.now name.now) }
{
    let procs = own.procs.as_slice();
    let member = is_member_among(own, &procs[..number], name);
    member || is_among(earlier, name)
}

/// Whether the result of a procedure passes the limit of slots.
fn has_result_past_limit(proc: &Proc<Name>) -> bool
    ensures { result ≡ result_passes proc.now }
{
    proc.gives && proc.params.len() == 32
}

/// The name of the procedure of this number, behind locals of those before it.
pub(crate) fn at_proc_name(
    check: Check,
    own: &Cat<Name>,
    number: usize,
    proc: &Proc<Name>,
    earlier: &[Name],
) -> Result<(), Stop>
    requires { number ≤ length own.now.procs }
    ensures { Stops result (test_of check (ProcName own.now number proc.now earlier.now)) }
{
    let name = &proc.name;
    match check {
        Check::Twice => refuse(is_proc_taken(own, number, earlier, name), name.line),
        Check::Count => refuse(number == 64 || has_result_past_limit(proc), name.line),
        Check::Unknown | Check::WrongKind | Check::WrongType | Check::Arguments => Ok(()),
    }
}

/// Whether a local may not have a name in the procedure of this number: that of a given box, of a
/// variable, of this procedure or one before it, or of a visible name.
fn is_taken(own: &Cat<Name>, number: usize, visible: &[Local], name: &Name) -> bool
    requires { number < length own.now.procs }
    ensures { result ≡ (is_member own.now (number + 1) name.now || has_local visible.now name.now) }
{
    let procs = own.procs.as_slice();
    let member = is_member_among(own, &procs[..number + 1], name);
    member || is_among(visible, name)
}

/// The name of a parameter or local that is declared in the procedure of this number.
pub(crate) fn at_local_name(
    check: Check,
    own: &Cat<Name>,
    number: usize,
    scope: &Scope,
    name: &Name,
) -> Result<(), Stop>
    requires { number < length own.now.procs }
    ensures { Stops result (test_of check (LocalName own.now number scope.now name.now)) }
{
    let visible = scope.visible.as_slice();
    match check {
        Check::Twice => refuse(is_taken(own, number, visible, name), name.line),
        Check::Count => refuse(scope.next == 32, name.line),
        Check::Unknown | Check::WrongKind | Check::WrongType | Check::Arguments => Ok(()),
    }
}

/// Stops at the name of a cat that isn't declared.
pub(crate) fn find_unknown_cat(cats: &[Cat<Name>], name: &Name) -> Result<(), Stop>
    ensures { Stops result (unknown_cat cats.now name.now) }
{
    refuse(cat_named(cats, name).is_none(), name.line)
}

/// The cat of a given box.
pub(crate) fn at_given_cat(check: Check, cats: &[Cat<Name>], name: &Name) -> Result<(), Stop>
    ensures { Stops result (test_of check (GivenCat cats.now name.now)) }
{
    match check {
        Check::Unknown => find_unknown_cat(cats, name),
        Check::Twice | Check::WrongKind | Check::WrongType | Check::Arguments | Check::Count => {
            Ok(())
        }
    }
}

/// The head of the alternative of this number.
pub(crate) fn at_when(check: Check, number: usize, line: u32) -> Result<(), Stop>
    ensures { Stops result (test_of check (When number line)) }
{
    match check {
        Check::Count => refuse(number == 16, line),
        Check::Twice | Check::Unknown | Check::WrongKind | Check::WrongType | Check::Arguments => {
            Ok(())
        }
    }
}

/// An expression, and the type that is wanted where there is one.
pub(crate) fn at_value(
    check: Check,
    own: &Cat<Name>,
    visible: &[Local],
    wanted: Option<Kind>,
    e: &Expr<Name>,
) -> Result<(), Stop>
    ensures { Stops result (test_of check (Value own.now visible.now wanted e.now)) }
{
    match check {
        Check::Unknown => find_unknown_in(own, visible, e),
        Check::WrongKind => find_no_value_in(own, visible, e),
        Check::WrongType => find_wrong(own, visible, wanted, e),
        Check::Twice | Check::Arguments | Check::Count => Ok(()),
    }
}

/// Whether a name can't be assigned: a parameter, a given box or a procedure.
fn is_constant(meaning: Meaning) -> bool
    ensures { result ≡ is_fixed meaning }
{
    match meaning {
        Meaning::GivenBox(_) => true,
        Meaning::Procedure(_) => true,
        Meaning::Slot { is_param, .. } => is_param,
        Meaning::Variable { .. } => false,
        Meaning::Nothing => false,
    }
}

/// A name that is assigned.
pub(crate) fn at_assigned(
    check: Check,
    own: &Cat<Name>,
    visible: &[Local],
    name: &Name,
) -> Result<(), Stop>
    ensures { Stops result (test_of check (Assigned own.now visible.now name.now)) }
{
    match check {
        Check::Unknown => find_unknown(own, visible, name),
        Check::WrongKind => refuse(is_constant(meaning(own, visible, name)), name.line),
        Check::Twice | Check::WrongType | Check::Arguments | Check::Count => Ok(()),
    }
}
