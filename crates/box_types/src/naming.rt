//! Expressions, calls and statements with their names as numbers.
ghost use Rattle.std.specs.Prelude.{◌≡◌, map, take, length, Option, Some, option_map, unwrap_or, IfOk, OnOk};
ghost use Rattle.std.specs.Option.{option_copied};
ghost use Rattle.box_types.specs.Scopes.{number_of as place_of_name};
ghost use Rattle.box_types.specs.Namings.{ref_of, name_ref, expression as expression_of, method_in};
ghost use Rattle.box_types.specs.Namings.{call as call_of, statement as statement_of, body as body_of};
ghost use Rattle.seuss_program.specs.declared.tree.Statement.TheVariants.{Let, Assign, Call as CallOf};
ghost use Rattle.seuss_program.specs.declared.tree.Ref.TheVariants.{Slot};

use crate::call_places::Home;
use crate::lookups::{cat_called, meaning, number_of};
use crate::scopes::{Local, Meaning, Scope};
use seuss_base::{Box, List, Memory};
use seuss_program::{Call, Cat, Expr, Kind, Name, Node, Proc, Ref, Statement};
use std::alloc::Global;

/// A number as one of 32 bits. A greater one is want of memory: no text that passes the checks has one.
pub(crate) fn small(number: u64) -> Result<u32, Memory>
    ensures { IfOk result (λ n. n ≡ number) }
{
    match u32::try_from(number) {
        Ok(number) => Ok(number),
        Err(_) => Err(Memory),
    }
}

/// The number of what a name stands for.
pub(crate) fn make_ref(meaning: Meaning) -> Result<Ref, Memory>
    ensures { IfOk result (λ r. r ≡ ref_of meaning) }
{
    match meaning {
        Meaning::Slot { slot, .. } => Ok(Ref::Slot(small(slot)?)),
        Meaning::Variable { number, .. } => Ok(Ref::Var(small(number as u64)?)),
        Meaning::GivenBox(number) => Ok(Ref::Given(small(number as u64)?)),
        Meaning::Procedure(number) => Ok(Ref::Method(small(number as u64)?)),
        Meaning::Nothing => Ok(Ref::Var(0)),
    }
}

fn make_name(own: &Cat<Name>, visible: &[Local], name: &Name) -> Result<Ref, Memory>
    ensures { IfOk result (λ r. r ≡ name_ref own.now visible.now name.now) }
{
    make_ref(meaning(own, visible, name))
}

/// An expression with each name as its number.
#[tactic(auto, unfolding(crate::specs::Namings::expression))]
pub(crate) fn make_expression(
    alloc: Global,
    own: &Cat<Name>,
    visible: &[Local],
    e: &Expr<Name>,
) -> Result<Expr<Ref>, Memory>
    ensures { IfOk result (λ made. made ≡ expression_of own.now visible.now e.now) }
{
    let line = e.line;
    match &e.node {
        Node::Int(z) => Ok(Expr {
            line,
            node: Node::Int(*z),
        }),
        Node::Bool(b) => Ok(Expr {
            line,
            node: Node::Bool(*b),
        }),
        Node::Empty => Ok(Expr {
            line,
            node: Node::Empty,
        }),
        Node::Name(name) => Ok(Expr {
            line,
            node: Node::Name(make_name(own, visible, name)?),
        }),
        Node::Neg(part) => {
            let part = Box::new(alloc, make_expression(alloc, own, visible, part)?)?;
            Ok(Expr {
                line,
                node: Node::Neg(part),
            })
        }
        Node::Not(part) => {
            let part = Box::new(alloc, make_expression(alloc, own, visible, part)?)?;
            Ok(Expr {
                line,
                node: Node::Not(part),
            })
        }
        Node::Two(op, left, right) => {
            let left = Box::new(alloc, make_expression(alloc, own, visible, left)?)?;
            let right = Box::new(alloc, make_expression(alloc, own, visible, right)?)?;
            Ok(Expr {
                line,
                node: Node::Two(*op, left, right),
            })
        }
        Node::One(fun, part) => {
            let part = Box::new(alloc, make_expression(alloc, own, visible, part)?)?;
            Ok(Expr {
                line,
                node: Node::One(*fun, part),
            })
        }
    }
}

fn make_arguments(
    alloc: Global,
    own: &Cat<Name>,
    visible: &[Local],
    args: &[Expr<Name>],
) -> Result<List<Expr<Ref>>, Memory>
    ensures { IfOk result (λ made. made ≡ map (expression_of own.now visible.now) args.now) }
{
    let mut made = List::new(alloc);
    for arg in args {
        made.push(make_expression(alloc, own, visible, arg)?)?;
    }
    Ok(made)
}

/// The number of the first of these that has the name, or 0 where there is none.
fn number_in(procs: &[Proc<Name>], name: &Name) -> usize
    ensures { result ≡ unwrap_or (place_of_name (λ q. q.name) procs.now name.now) 0 }
{
    number_of(procs, name).unwrap_or(0)
}

/// The number of a method of a cat.
fn make_known_method(cat: &Cat<Name>, name: &Name) -> Result<Ref, Memory>
    ensures { IfOk result (λ r. r ≡ method_in (Some cat.now) name.now) }
{
    let number = number_in(cat.procs.as_slice(), name);
    Ok(Ref::Method(small(number as u64)?))
}

/// The number of a method in the cat that is called, or 0 where there is none.
fn make_method(cat: Option<&Cat<Name>>, name: &Name) -> Result<Ref, Memory>
    ensures { IfOk result (λ r. r ≡ method_in (option_copied cat.entry) name.now) }
{
    match cat {
        Some(cat) => make_known_method(cat, name),
        None => Ok(Ref::Method(0)),
    }
}

pub(crate) fn make_call(
    alloc: Global,
    home: &Home,
    visible: &[Local],
    call: &Call<Name>,
) -> Result<Call<Ref>, Memory>
    ensures { IfOk result (λ made. made ≡ call_of home.now.cats.now home.now.own.now visible.now
        call.now) }
{
    let cat = cat_called(home.cats, home.own, visible, &call.target);
    Ok(Call {
        target: make_name(home.own, visible, &call.target)?,
        method: make_method(cat, &call.method)?,
        args: make_arguments(alloc, home.own, visible, call.args.as_slice())?,
    })
}

fn make_bind(own: &Cat<Name>, visible: &[Local], bind: &Option<Name>) -> Result<Option<Ref>, Memory>
    ensures { IfOk result (λ made. made ≡ option_map (name_ref own.now visible.now) bind.now) }
{
    match bind {
        Some(name) => Ok(Some(make_name(own, visible, name)?)),
        None => Ok(None),
    }
}

/// A `let` whose name has the next slot.
fn make_let(
    alloc: Global,
    own: &Cat<Name>,
    scope: &Scope,
    kind: Kind,
    value: &Expr<Name>,
) -> Result<Statement<Ref>, Memory>
    ensures { IfOk result (λ made. made ≡ Let (Slot scope.now.next) kind
        (expression_of own.now scope.now.visible value.now)) }
{
    Ok(Statement::Let {
        name: Ref::Slot(small(scope.next)?),
        kind,
        value: make_expression(alloc, own, scope.visible.as_slice(), value)?,
    })
}

fn make_assigned(
    alloc: Global,
    own: &Cat<Name>,
    scope: &Scope,
    name: &Name,
    value: &Expr<Name>,
) -> Result<Statement<Ref>, Memory>
    ensures { IfOk result (λ made. made ≡ Assign (name_ref own.now scope.now.visible name.now)
        (expression_of own.now scope.now.visible value.now)) }
{
    let visible = scope.visible.as_slice();
    Ok(Statement::Assign {
        name: make_name(own, visible, name)?,
        value: make_expression(alloc, own, visible, value)?,
    })
}

fn make_called(
    alloc: Global,
    home: &Home,
    scope: &Scope,
    bind: &Option<Name>,
    call: &Call<Name>,
) -> Result<Statement<Ref>, Memory>
    ensures { IfOk result (λ made. made ≡ CallOf (option_map
        (name_ref home.now.own.now scope.now.visible) bind.now)
        (call_of home.now.cats.now home.now.own.now scope.now.visible call.now)) }
{
    let visible = scope.visible.as_slice();
    Ok(Statement::Call {
        bind: make_bind(home.own, visible, bind)?,
        call: make_call(alloc, home, visible, call)?,
    })
}

pub(crate) fn make_condition(
    alloc: Global,
    own: &Cat<Name>,
    scope: &Scope,
    cond: &Expr<Name>,
) -> Result<Expr<Ref>, Memory>
    ensures { IfOk result (λ made. made ≡ expression_of own.now scope.now.visible cond.now) }
{
    make_expression(alloc, own, scope.visible.as_slice(), cond)
}

/// Statements with each name as its number, and the scope behind them.
#[cycle(numbering)]
pub(crate) fn make_body(
    alloc: Global,
    home: &Home,
    statements: &[Statement<Name>],
    scope: &mut Scope,
) -> Result<List<Statement<Ref>>, Memory>
    ensures after { IfOk result (λ made. body_of home.now.cats.now home.now.own.now statements.now
        scope.old ≡ record { part = made; scope = scope.new }) }
    ensures kept { OnOk result (take (length scope.old.visible) scope.new.visible ≡ scope.old.visible) }
{
    let mut made = List::new(alloc);
    for statement in statements {
        made.push(make_statement(alloc, home, statement, scope)?)?;
    }
    Ok(made)
}

#[cycle(numbering)]
fn make_statement(
    alloc: Global,
    home: &Home,
    statement: &Statement<Name>,
    scope: &mut Scope,
) -> Result<Statement<Ref>, Memory>
    ensures after { IfOk result (λ made. statement_of home.now.cats.now home.now.own.now statement.now
        scope.old ≡ record { part = made; scope = scope.new }) }
    ensures kept { OnOk result (take (length scope.old.visible) scope.new.visible ≡ scope.old.visible) }
{
    let count = scope.visible.len();
    match statement {
        Statement::Let { name, kind, value } => {
            let made = make_let(alloc, home.own, scope, *kind, value)?;
            scope.declare(alloc, name, *kind, false)?;
            Ok(made)
        }
        Statement::Assign { name, value } => make_assigned(alloc, home.own, scope, name, value),
        Statement::Call { bind, call } => make_called(alloc, home, scope, bind, call),
        Statement::If { cond, yes, no } => {
            let cond = make_condition(alloc, home.own, scope, cond)?;
            let yes = make_body(alloc, home, yes.as_slice(), scope)?;
            scope.leave(count);
            let no = make_body(alloc, home, no.as_slice(), scope)?;
            scope.leave(count);
            Ok(Statement::If { cond, yes, no })
        }
        Statement::While { cond, turn } => {
            let cond = make_condition(alloc, home.own, scope, cond)?;
            let turn = make_body(alloc, home, turn.as_slice(), scope)?;
            scope.leave(count);
            Ok(Statement::While { cond, turn })
        }
    }
}
