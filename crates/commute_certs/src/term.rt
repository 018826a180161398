//! What an expression comes to in a case.

ghost use Rattle.std.specs.Prelude.{◌≡◌, Ok, neg_ℤ, ℤ, SomeIff, FitsSigned};
ghost use Rattle.std.specs.Int.{w64};
ghost use Rattle.commute_certs.specs.Terms.{told, part_of, decides as decides_by, combined};
ghost use Rattle.commute_certs.specs.Terms.{measured as measured_by, negated as negated_by};
ghost use Rattle.commute_certs.specs.Terms.{number_part as number_told, symbol_of as symbol_by};
ghost use Rattle.commute_certs.specs.Terms.{shape_in as shape_by, number_in as number_by, item as item_by};
ghost use Rattle.commute_certs.specs.Terms.{opposite, truth, truth_in as truth_by};
ghost use Rattle.commute_certs.specs.Terms.{parts_compared as parts_by};
ghost use Rattle.shape_terms.specs.Numbers.{plus, minus as minus_by, literal_of};
ghost use Rattle.shape_terms.specs.Sequences.{add};
ghost use Rattle.shape_terms.specs.declared.symbol.Symbol.TheVariants.{Number, Sequence};
ghost use Rattle.commute_certs.specs.declared.part.Part.TheVariants.{Digits, Other};
ghost use Rattle.commute_certs.specs.Answers.{Tells};

use crate::comparing::parts_compared;
use crate::part::Part;
use crate::parts::{
    lookup, number_part, part_number, part_shape, part_truth, shape_part, symbol_of,
};
use crate::why::{Reason, Untold};
use seuss_base::List;
use seuss_program::{Expr, Fun, Node, Op, Ref};
use shape_terms::{SeqForm, Symbol};
use std::alloc::Global;

/// Minus a number in digits.
fn negated(part: &Part) -> Result<Part, Untold>
    ensures { Tells result (negated_by part.now) }
{
    match part {
        Part::Digits(z) => minus(z.checked_neg()),
        _ => Err(Untold::Reason(Reason::MayTrap)),
    }
}

/// A number with a minus, where it has 64 bits.
fn minus(found: Option<i64>) -> Result<Part, Untold>
    ensures { (z : ℤ) → SomeIff found (FitsSigned w64 (neg_ℤ z)) (neg_ℤ z) →
        Tells result (negated_by (Digits z)) }
{
    match found {
        Some(z) => Ok(Part::Minus(z)),
        None => Err(Untold::Reason(Reason::MayTrap)),
    }
}

/// `not` before a part.
fn denied(part: &Part) -> Result<Part, Untold>
    ensures { Tells result (truth (opposite (truth_by (symbol_by part.now)))) }
{
    let holds = part_truth(part)?;
    Ok(Part::Other(Symbol::Truth(!holds)))
}

/// The bool that a part is, as a part.
fn as_truth(part: &Part) -> Result<Part, Untold>
    ensures { Tells result (truth (truth_by (symbol_by part.now))) }
{
    let holds = part_truth(part)?;
    Ok(Part::Other(Symbol::Truth(holds)))
}

/// A function of a sequence.
fn measured(alloc: Global, fun: Fun, part: Part) -> Result<Part, Untold>
    ensures { Tells result (measured_by fun (shape_by (symbol_by part))) }
{
    let sequence = part_shape(alloc, part)?;
    match fun {
        Fun::First => number_part(sequence.first(alloc)),
        Fun::Last => number_part(sequence.last(alloc)),
        Fun::Rest => shape_part(sequence.rest(alloc)),
        Fun::Front => shape_part(sequence.front(alloc)),
        Fun::Len => Ok(Part::Length(sequence)),
    }
}

/// The element of a sequence at an index, which is a number where the sequence is sure to have it.
fn item(alloc: Global, sequence: Part, index: Part) -> Result<Part, Untold>
    ensures { Tells result
        (number_told (item_by (shape_by (symbol_by sequence)) (literal_of (number_by (symbol_by index))))) }
{
    let sequence = part_shape(alloc, sequence)?;
    let index = part_number(alloc, index)?;
    match index.as_literal() {
        Some(_) => number_part(sequence.at(alloc, &index)),
        None => Err(Untold::Reason(Reason::MayTrap)),
    }
}

/// The sum of two parts modulo 2^64.
fn sum(alloc: Global, a: Part, b: Part) -> Result<Part, Untold>
    ensures { Tells result (Ok (Other (Number (plus (number_by (symbol_by a)) (number_by (symbol_by b)))))) }
{
    let first = part_number(alloc, a)?;
    let second = part_number(alloc, b)?;
    Ok(Part::Other(Symbol::Number(first.plus(alloc, &second)?)))
}

/// The difference of two parts modulo 2^64.
fn difference(alloc: Global, a: Part, b: Part) -> Result<Part, Untold>
    ensures { Tells result
        (Ok (Other (Number (minus_by (number_by (symbol_by a)) (number_by (symbol_by b)))))) }
{
    let first = part_number(alloc, a)?;
    let second = part_number(alloc, b)?;
    Ok(Part::Other(Symbol::Number(first.minus(alloc, &second)?)))
}

/// A sequence with one more element at its end.
fn longer(alloc: Global, a: Part, b: Part) -> Result<Part, Untold>
    ensures { Tells result (Ok (Other (Sequence (add (shape_by (symbol_by a)) (number_by (symbol_by b)))))) }
{
    let sequence = part_shape(alloc, a)?;
    let element = part_number(alloc, b)?;
    Ok(Part::Other(Symbol::Sequence(sequence.add(alloc, &element)?)))
}

/// A comparison, as a part.
fn comparison(alloc: Global, op: Op, a: Part, b: Part) -> Result<Part, Untold>
    ensures { Tells result (truth (parts_by op a b)) }
{
    let holds = parts_compared(alloc, op, a, b)?;
    Ok(Part::Other(Symbol::Truth(holds)))
}

/// Two parts under an operator, where both are needed.
fn combine(alloc: Global, op: Op, a: Part, b: Part) -> Result<Part, Untold>
    ensures { Tells result (combined op a b) }
{
    match op {
        Op::Or => as_truth(&b),
        Op::And => as_truth(&b),
        Op::Eq => comparison(alloc, Op::Eq, a, b),
        Op::Ne => comparison(alloc, Op::Ne, a, b),
        Op::Lt => comparison(alloc, Op::Lt, a, b),
        Op::Le => comparison(alloc, Op::Le, a, b),
        Op::Gt => comparison(alloc, Op::Gt, a, b),
        Op::Ge => comparison(alloc, Op::Ge, a, b),
        Op::WrapPlus => sum(alloc, a, b),
        Op::WrapMinus => difference(alloc, a, b),
        Op::At => item(alloc, a, b),
        Op::Add => longer(alloc, a, b),
        Op::Plus | Op::Minus | Op::Times | Op::Divide | Op::Remainder => {
            Err(Untold::Reason(Reason::MayTrap))
        }
    }
}

/// Whether the left part of an operator decides alone.
fn decides(op: Op, part: &Part) -> Result<bool, Untold>
    ensures { Tells result (decides_by op part.now) }
{
    match op {
        Op::Or => part_truth(part),
        Op::And => Ok(!part_truth(part)?),
        _ => Ok(false),
    }
}

/// What an expression comes to in a case, as a part.
pub fn part_in(
    alloc: Global,
    expr: &Expr<Ref>,
    vars: &[Symbol],
    slots: &[Symbol],
) -> Result<Part, Untold>
    ensures { Tells result (part_of expr.now vars.now slots.now) }
{
    match &expr.node {
        Node::Int(z) => Ok(Part::Digits(*z)),
        Node::Bool(b) => Ok(Part::Other(Symbol::Truth(*b))),
        Node::Empty => Ok(Part::Other(Symbol::Sequence(SeqForm::exact(List::new(alloc))))),
        Node::Name(name) => Ok(Part::Other(lookup(alloc, *name, vars, slots)?)),
        Node::Neg(part) => negated(&part_in(alloc, part, vars, slots)?),
        Node::Not(part) => denied(&part_in(alloc, part, vars, slots)?),
        Node::Two(op, left, right) => {
            let x = part_in(alloc, left, vars, slots)?;
            if decides(*op, &x)? {
                return as_truth(&x);
            }
            let y = part_in(alloc, right, vars, slots)?;
            combine(alloc, *op, x, y)
        }
        Node::One(fun, part) => measured(alloc, *fun, part_in(alloc, part, vars, slots)?),
    }
}

/// What an expression comes to in a case, by what the variables of the box and the slots of the procedure
/// are there.
pub fn tell(
    alloc: Global,
    expr: &Expr<Ref>,
    vars: &[Symbol],
    slots: &[Symbol],
) -> Result<Symbol, Untold>
    ensures { Tells result (told expr.now vars.now slots.now) }
{
    let part = part_in(alloc, expr, vars, slots)?;
    Ok(symbol_of(alloc, part)?)
}
