//! The walk of a check through the statements of a procedure.
ghost use Rattle.std.specs.Prelude.{◌≡◌, ◌<◌, ◌++◌, length, take, Some, Option, OnOk};
ghost use Rattle.std.specs.Option.{option_copied};
ghost use Rattle.seuss_program.specs.declared.tree.Kind.TheVariants as K;
ghost use Rattle.box_types.specs.Answers.{Stops, Walks};
ghost use Rattle.box_types.specs.Faults.{test_of};
ghost use Rattle.box_types.specs.Scopes.{declared};
ghost use Rattle.box_types.specs.Walks.{Walked, numbered, argument, kind_at, kind_of, params_of};
ghost use Rattle.box_types.specs.Walks.{call as call_of};
ghost use Rattle.box_types.specs.Walks.{taken, statement as statement_of, body as body_of, LocalName, Value};
ghost use Rattle.box_types.specs.Walks.{Assigned};
ghost use Rattle.box_types.specs.Scopes.{meaning_of};

use crate::call_places::{Home, at_method, at_result, at_target};
use crate::checking::{Check, Stop};
use crate::expressions::type_of_name;
use crate::lookups::{called, meaning};
use crate::places::{at_assigned, at_local_name, at_value};
use crate::scopes::{Local, Scope};
use seuss_program::{Call, Expr, Kind, Name, Param, Proc, Statement};
use std::alloc::Global;

/// The type of the parameter of this number.
fn type_of_param(params: &[Param], number: usize) -> Option<Kind>
    ensures { result ≡ kind_at params.now number }
{
    let param = params.get(number)?;
    Some(param.kind)
}

/// The parameters of a method, where it is known.
fn parameters(proc: Option<&Proc<Name>>) -> &[Param]
    ensures { result.now ≡ params_of (option_copied proc.entry) }
{
    match proc {
        Some(proc) => proc.params.as_slice(),
        None => &[],
    }
}

#[tactic(auto, using(crate::proofs::Lines::numbered_goes_on, crate::proofs::Lines::numbered_stops))]
fn walk_arguments(
    check: Check,
    home: &Home,
    visible: &[Local],
    params: &[Param],
    args: &[Expr<Name>],
) -> Result<(), Stop>
    ensures { Stops result (numbered (argument (test_of check) home.now.cats.now home.now.own.now
        visible.now params.now) 0 args.now) }
{
    for (number, arg) in args.iter().enumerate() {
        let wanted = type_of_param(params, number);
        at_value(check, home.own, visible, wanted, arg)?;
    }
    Ok(())
}

pub(crate) fn walk_call(
    check: Check,
    home: &Home,
    visible: &[Local],
    call: &Call<Name>,
) -> Result<(), Stop>
    ensures { Stops result (call_of (test_of check) home.now.cats.now home.now.own.now visible.now
        call.now) }
{
    at_target(check, home.own, visible, &call.target)?;
    at_method(check, home, visible, call)?;
    let params = parameters(called(home.cats, home.own, visible, call));
    walk_arguments(check, home, visible, params, call.args.as_slice())
}

/// An assigned name that takes the result of a call.
fn walk_taken(
    check: Check,
    home: &Home,
    visible: &[Local],
    bind: &Option<Name>,
    call: &Call<Name>,
) -> Result<(), Stop>
    ensures { Stops result (taken (test_of check) home.now.cats.now home.now.own.now visible.now
        bind.now call.now) }
{
    let Some(name) = bind else {
        return Ok(());
    };
    at_assigned(check, home.own, visible, name)?;
    let kind = type_of_name(meaning(home.own, visible, name));
    at_result(check, home, visible, kind, name, call)
}

/// A call as a statement.
fn walk_called(
    check: Check,
    home: &Home,
    scope: &Scope,
    bind: &Option<Name>,
    call: &Call<Name>,
) -> Result<(), Stop>
    ensures { Stops result (taken (test_of check) home.now.cats.now home.now.own.now scope.now.visible
        bind.now call.now
        ++ call_of (test_of check) home.now.cats.now home.now.own.now scope.now.visible call.now) }
{
    let visible = scope.visible.as_slice();
    walk_taken(check, home, visible, bind, call)?;
    walk_call(check, home, visible, call)
}

/// An assignment.
fn walk_assigned(
    check: Check,
    home: &Home,
    scope: &Scope,
    name: &Name,
    value: &Expr<Name>,
) -> Result<(), Stop>
    ensures { Stops result (test_of check (Assigned home.now.own.now scope.now.visible name.now)
        ++ test_of check (Value home.now.own.now scope.now.visible (kind_of
        (meaning_of home.now.own.now scope.now.visible name.now)) value.now)) }
{
    let visible = scope.visible.as_slice();
    at_assigned(check, home.own, visible, name)?;
    let kind = type_of_name(meaning(home.own, visible, name));
    at_value(check, home.own, visible, kind, value)
}

/// The condition of a statement or an alternative.
pub(crate) fn walk_condition(
    check: Check,
    home: &Home,
    scope: &Scope,
    cond: &Expr<Name>,
) -> Result<(), Stop>
    ensures { Stops result (test_of check (Value home.now.own.now scope.now.visible
        (Some K.Bool) cond.now)) }
{
    at_value(
        check,
        home.own,
        scope.visible.as_slice(),
        Some(Kind::Bool),
        cond,
    )
}

/// The name and the value of a local that is declared.
fn walk_let(
    check: Check,
    home: &Home,
    scope: &Scope,
    name: &Name,
    kind: Kind,
    value: &Expr<Name>,
) -> Result<(), Stop>
    requires { home.now.number < length home.now.own.now.procs }
    ensures { Stops result (test_of check (LocalName home.now.own.now home.now.number scope.now name.now)
        ++ test_of check (Value home.now.own.now scope.now.visible (Some kind) value.now)) }
{
    at_local_name(check, home.own, home.number, scope, name)?;
    at_value(check, home.own, scope.visible.as_slice(), Some(kind), value)
}

/// Statements one after the other.
#[cycle(walk)]
pub(crate) fn walk_body(
    alloc: Global,
    check: Check,
    home: &Home,
    statements: &[Statement<Name>],
    scope: &mut Scope,
) -> Result<(), Stop>
    requires { home.now.number < length home.now.own.now.procs }
    ensures after { Walks result (body_of (test_of check) home.now.cats.now home.now.own.now
        home.now.number statements.now scope.old) scope.new }
    ensures kept { OnOk result (take (length scope.old.visible) scope.new.visible ≡ scope.old.visible) }
{
    for statement in statements {
        walk_statement(alloc, check, home, statement, scope)?;
    }
    Ok(())
}

#[cycle(walk)]
fn walk_statement(
    alloc: Global,
    check: Check,
    home: &Home,
    statement: &Statement<Name>,
    scope: &mut Scope,
) -> Result<(), Stop>
    requires { home.now.number < length home.now.own.now.procs }
    ensures after { Walks result (statement_of (test_of check) home.now.cats.now home.now.own.now
        home.now.number statement.now scope.old) scope.new }
    ensures kept { OnOk result (take (length scope.old.visible) scope.new.visible ≡ scope.old.visible) }
{
    let count = scope.visible.len();
    match statement {
        Statement::Let { name, kind, value } => {
            walk_let(check, home, scope, name, *kind, value)?;
            scope.declare(alloc, name, *kind, false)?;
        }
        Statement::Assign { name, value } => walk_assigned(check, home, scope, name, value)?,
        Statement::Call { bind, call } => walk_called(check, home, scope, bind, call)?,
        Statement::If { cond, yes, no } => {
            walk_condition(check, home, scope, cond)?;
            walk_body(alloc, check, home, yes.as_slice(), scope)?;
            scope.leave(count);
            walk_body(alloc, check, home, no.as_slice(), scope)?;
            scope.leave(count);
        }
        Statement::While { cond, turn } => {
            walk_condition(check, home, scope, cond)?;
            walk_body(alloc, check, home, turn.as_slice(), scope)?;
            scope.leave(count);
        }
    }
    Ok(())
}
