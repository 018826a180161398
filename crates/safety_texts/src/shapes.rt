//! The form of a property: only literals with or without a minus, names, `len` of a name, `&+`, `&-`,
//! comparisons, `and`, `or` and `not`.
ghost use Rattle.std.specs.Prelude.{◌≡◌};
ghost use Rattle.std.specs.List.{flat_map};
ghost use Rattle.safety_check.specs.Properties.{look_of, is_allowed as is_allowed_of};
ghost use Rattle.safety_check.specs.Properties.{is_length as is_length_of};
ghost use Rattle.safety_texts.specs.Readings.{Refuses};
ghost use Rattle.safety_texts.specs.Verdicts.{misshapen};

use crate::refusal::PropertyRefusal;
use safety_check::Property;
use seuss_program::{Expr, Fun, Node, Op, Ref};

/// Whether an expression is a number in digits.
#[tactic(auto, unfolding(safety_check::specs::Properties::look_of))]
fn is_digits(expr: &Expr<Ref>) -> bool
    ensures { result ≡ (look_of expr.now).digits }
{
    match &expr.node {
        Node::Int(z) => *z >= 0,
        Node::Bool(_) | Node::Empty | Node::Name(_) => false,
        Node::Neg(_) | Node::Not(_) | Node::Two(..) | Node::One(..) => false,
    }
}

/// Whether an expression is a name.
#[tactic(auto, unfolding(safety_check::specs::Properties::look_of))]
fn is_name(expr: &Expr<Ref>) -> bool
    ensures { result ≡ (look_of expr.now).name }
{
    match &expr.node {
        Node::Name(_) => true,
        Node::Int(_) | Node::Bool(_) | Node::Empty => false,
        Node::Neg(_) | Node::Not(_) | Node::Two(..) | Node::One(..) => false,
    }
}

/// Whether a property may have an operator.
fn is_allowed(op: Op) -> bool
    ensures { result ≡ is_allowed_of op }
{
    match op {
        Op::Or | Op::And | Op::Eq | Op::Ne | Op::Lt | Op::Le | Op::Gt | Op::Ge => true,
        Op::WrapPlus | Op::WrapMinus => true,
        Op::Plus | Op::Minus | Op::Times | Op::Divide | Op::Remainder => false,
        Op::At | Op::Add => false,
    }
}

/// Whether a function is `len`.
fn is_length(fun: Fun) -> bool
    ensures { result ≡ is_length_of fun }
{
    match fun {
        Fun::Len => true,
        Fun::First | Fun::Last | Fun::Rest | Fun::Front => false,
    }
}

/// Whether a property may have an expression.
#[tactic(auto, unfolding(safety_check::specs::Properties::look_of))]
fn is_shaped(expr: &Expr<Ref>) -> bool
    ensures { result ≡ (look_of expr.now).allowed }
{
    match &expr.node {
        Node::Int(_) | Node::Bool(_) | Node::Name(_) => true,
        Node::Empty => false,
        Node::Neg(part) => is_digits(part),
        Node::Not(part) => is_shaped(part),
        Node::Two(op, left, right) => {
            let left = is_shaped(left);
            let right = is_shaped(right);
            is_allowed(*op) && left && right
        }
        Node::One(fun, part) => is_length(*fun) && is_name(part),
    }
}

/// Refuses the first property whose expression is of another form, by the line of its first token.
pub(crate) fn find_misshapen(properties: &[Property]) -> Result<(), PropertyRefusal>
    ensures { Refuses result (flat_map misshapen properties.now) }
{
    for property in properties {
        if !is_shaped(&property.expr) {
            return Err(PropertyRefusal::Bad(property.expr.line));
        }
    }
    Ok(())
}
