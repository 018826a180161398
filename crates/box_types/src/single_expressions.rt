//! Expressions that stand for themselves, outside of a text: they see the variables of a cat, and no more.
ghost use Rattle.std.specs.Prelude.{◌≡◌, true, Some, IfOk, slice_get};
ghost use Rattle.seuss_program.specs.declared.tree.Cat.{Cat as TheCat};
ghost use Rattle.seuss_program.specs.declared.tree.Kind.TheVariants as kinds;
ghost use Rattle.seuss_program.specs.declared.tree.Ref.{Ref as TheRef};
ghost use Rattle.seuss_program.specs.Keeping.{kind_in};
ghost use Rattle.seuss_program.specs.WellFormed.{has_numbers};
ghost use Rattle.box_types.specs.Faults.{test_of};
ghost use Rattle.box_types.specs.Locals.{no_locals};
ghost use Rattle.box_types.specs.Meanings.{ExprStands};
ghost use Rattle.box_types.specs.Refusals.{Refuses};
ghost use Rattle.box_types.specs.SingleExpressions.{ResolvesSingle, alone, seen_beside, vars_in, vars_scope};
ghost use Rattle.box_types.specs.SingleExpressions.{with_vars};

use crate::checking::{Check, Stop};
use crate::naming::make_expression;
use crate::naming_cats::copy_vars;
use crate::places::at_value;
use crate::refusal::CheckRefusal;
use crate::resolving::refusal;
use seuss_base::{List, Memory, Text};
use seuss_program::{Cat, Expr, Kind, Name, Node, Program, Ref, Var};
use std::alloc::Global;

/// The variables of the cat of a number, or none where there is no such cat.
fn vars_beside(alloc: Global, program: &Program, cat: u32) -> Result<List<Var>, Memory>
    ensures { IfOk result (λ vars. vars ≡ vars_in (slice_get program.now.cats cat)) }
{
    match program.cats.get(u64::from(cat)) {
        Some(cat) => copy_vars(alloc, cat.vars.as_slice()),
        None => Ok(List::new(alloc)),
    }
}

/// A cat with these variables, and nothing else.
fn only_vars(alloc: Global, vars: List<Var>) -> Cat<Name>
    ensures { result ≡ with_vars vars }
{
    Cat {
        name: Name {
            text: Text::new(alloc),
            line: 0,
        },
        given: List::new(alloc),
        vars,
        procs: List::new(alloc),
        semis: List::new(alloc),
    }
}

/// Makes one check of a single expression.
fn make_check(check: Check, own: &Cat<Name>, expr: &Expr<Name>) -> Result<(), CheckRefusal>
    ensures { Refuses check result (test_of check (alone own.now expr.now)) }
{
    match at_value(check, own, &[], Some(Kind::Bool), expr) {
        Ok(()) => Ok(()),
        Err(Stop::Line(line)) => Err(refusal(check, line)),
        Err(Stop::Memory) => Err(CheckRefusal::Memory),
    }
}

/// Each number of an expression has 64 bits.
#[tactic(auto, unfolding(seuss_program::specs::WellFormed::has_numbers))]
fn numbers_fit(expr: &Expr<Name>)
    ensures { has_numbers expr.now ≡ true }
{
    match &expr.node {
        Node::Int(z) => {
            let _number = *z;
        }
        Node::Bool(_) | Node::Empty | Node::Name(_) => {}
        Node::Neg(part) | Node::Not(part) | Node::One(_, part) => numbers_fit(part),
        Node::Two(_, left, right) => {
            numbers_fit(left);
            numbers_fit(right);
        }
    }
}

/// Makes both checks of a single expression, and gives it with each name as its number.
fn resolve_beside(
    alloc: Global,
    own: &Cat<Name>,
    expr: &Expr<Name>,
) -> Result<Expr<Ref>, CheckRefusal>
    ensures { ResolvesSingle result own.now expr.now }
{
    make_check(Check::Unknown, own, expr)?;
    make_check(Check::WrongType, own, expr)?;
    Ok(make_expression(alloc, own, &[], expr)?)
}

/// Makes the checks of names and of types for an expression that stands beside the cat of a number, and
/// gives it with each name as its number. The variables of the cat alone are visible, so every other name is
/// unknown, and a bool is wanted. A refusal is the first of the two checks that fails, by the line of its
/// first place. Beside a number that no cat has no name is known.
pub fn resolve_expr(
    alloc: Global,
    program: &Program,
    cat: u32,
    expr: Expr<Name>,
) -> Result<Expr<Ref>, CheckRefusal>
    ensures resolves { ResolvesSingle result (seen_beside program.now cat) expr }
    ensures stands { IfOk result (λ made. ExprStands (seen_beside program.now cat) no_locals expr made) }
    ensures kind { IfOk result (λ made. (c : TheCat TheRef) → slice_get program.now.cats cat ≡ Some c
        → kind_in (vars_scope program.now.cats c) made ≡ Some kinds.Bool) }
{
    let vars = vars_beside(alloc, program, cat)?;
    let own = only_vars(alloc, vars);
    numbers_fit(&expr);
    resolve_beside(alloc, &own, &expr)
}
