//! The variables that expressions mention, as sets of bits.

ghost use Rattle.std.specs.Prelude.{◌≡◌};
ghost use Rattle.effect_sets.specs.Masks.{bit as bit_for, name_mask, bound_mask, mask, add_masks};

use seuss_program::{Expr, Node, Ref};

/// The set of one variable, where it is one of the first 32.
fn bit(number: u32) -> u32
    ensures { result ≡ bit_for number }
{
    if number < 32 { 1 << number } else { 0 }
}

/// The set of the variable that a name stands for, if it stands for one.
pub fn named(name: Ref) -> u32
    ensures { result ≡ name_mask name }
{
    match name {
        Ref::Var(number) => bit(number),
        Ref::Slot(_) | Ref::Given(_) | Ref::Method(_) | Ref::Cat(_) => 0,
    }
}

/// The set of the variable that takes a result, if there is one.
pub fn bound(name: Option<Ref>) -> u32
    ensures { result ≡ bound_mask name }
{
    match name {
        None => 0,
        Some(name) => named(name),
    }
}

/// The variables in an expression.
pub fn mentioned(expr: &Expr<Ref>) -> u32
    ensures { result ≡ mask expr.now }
{
    match &expr.node {
        Node::Int(_) => 0,
        Node::Bool(_) => 0,
        Node::Empty => 0,
        Node::Name(name) => named(*name),
        Node::Neg(part) => mentioned(part),
        Node::Not(part) => mentioned(part),
        Node::Two(_, left, right) => mentioned(left) | mentioned(right),
        Node::One(_, part) => mentioned(part),
    }
}

/// The variables in arguments.
pub fn mentioned_in(args: &[Expr<Ref>]) -> u32
    ensures { result ≡ add_masks 0 args.now }
{
    let mut set = 0;
    for arg in args {
        set |= mentioned(arg);
    }
    set
}
