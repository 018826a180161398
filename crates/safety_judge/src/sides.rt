//! The regions of expressions.

ghost use Rattle.std.specs.Prelude.{◌≡◌, IfOk, Some, option_map, option_and_then};
ghost use Rattle.seuss_program.specs.Values as values;
ghost use Rattle.safety_check.specs.Regions as frames_meant;
ghost use Rattle.safety_check.specs.RegionValues as meant;
ghost use Rattle.safety_check.specs.Spans as spans;

use crate::frames::region_of;
use crate::regions::{
    at_most_numbers, lengths_of, less_numbers, numbers_of, same_region, truth_of, turned,
};
use crate::spans::{all_numbers, cut, differences, raised, shortened, single, sums, wrapped};
use safety_check::{Frame, Region, Sides, Span};
use seuss_base::Memory;
use seuss_program::{Expr, Fun, Node, Op, Ref};

/// The exact numbers that have 64 bits, where there are some.
fn exact_region(s: Span) -> Option<Region>
    ensures { result ≡ meant.exact_region s }
{
    match cut(s) {
        Some(t) => Some(Region::Numbers(t)),
        None => None,
    }
}

/// A sum that has to have 64 bits.
fn sum_region(x: Region, y: Region) -> Result<Option<Region>, Memory>
    ensures { IfOk result (λ r. r ≡ meant.apply_region Op.Plus x y) }
{
    Ok(exact_region(sums(numbers_of(x), numbers_of(y))?))
}

/// A difference that has to have 64 bits.
fn difference_region(x: Region, y: Region) -> Result<Option<Region>, Memory>
    ensures { IfOk result (λ r. r ≡ meant.apply_region Op.Minus x y) }
{
    Ok(exact_region(differences(numbers_of(x), numbers_of(y))?))
}

/// A sum modulo 2^64.
fn wrapped_sum(x: Region, y: Region) -> Result<Option<Region>, Memory>
    ensures { IfOk result (λ r. r ≡ meant.apply_region Op.WrapPlus x y) }
{
    let span = sums(numbers_of(x), numbers_of(y))?;
    Ok(Some(Region::Numbers(wrapped(span))))
}

/// A difference modulo 2^64.
fn wrapped_difference(x: Region, y: Region) -> Result<Option<Region>, Memory>
    ensures { IfOk result (λ r. r ≡ meant.apply_region Op.WrapMinus x y) }
{
    let span = differences(numbers_of(x), numbers_of(y))?;
    Ok(Some(Region::Numbers(wrapped(span))))
}

/// A sequence with one more element.
fn longer(x: Region) -> Result<Option<Region>, Memory>
    ensures { IfOk result (λ r. r ≡ Some (Region.Lengths (spans.raised (frames_meant.lengths_of x)))) }
{
    Ok(Some(Region::Lengths(raised(lengths_of(x))?)))
}

/// A bool, as a region.
fn truth(told: Option<bool>) -> Option<Region>
    ensures { result ≡ Some (Region.Truth told) }
{
    Some(Region::Truth(told))
}

/// An operator of two values.
fn apply_region(op: Op, x: Region, y: Region) -> Result<Option<Region>, Memory>
    ensures { IfOk result (λ r. r ≡ meant.apply_region op x y) }
{
    match op {
        Op::Or => Ok(truth(None)),
        Op::And => Ok(truth(None)),
        Op::Eq => Ok(truth(same_region(x, y))),
        Op::Ne => Ok(truth(turned(same_region(x, y)))),
        Op::Lt => Ok(truth(less_numbers(numbers_of(x), numbers_of(y)))),
        Op::Le => Ok(truth(at_most_numbers(numbers_of(x), numbers_of(y)))),
        Op::Gt => Ok(truth(less_numbers(numbers_of(y), numbers_of(x)))),
        Op::Ge => Ok(truth(at_most_numbers(numbers_of(y), numbers_of(x)))),
        Op::Plus => sum_region(x, y),
        Op::Minus => difference_region(x, y),
        Op::WrapPlus => wrapped_sum(x, y),
        Op::WrapMinus => wrapped_difference(x, y),
        Op::Times => Ok(Some(Region::Numbers(all_numbers()))),
        Op::Divide => Ok(Some(Region::Numbers(all_numbers()))),
        Op::Remainder => Ok(Some(Region::Numbers(all_numbers()))),
        Op::At => Ok(Some(Region::Numbers(all_numbers()))),
        Op::Add => longer(x),
    }
}

/// A sequence without one of its elements, where it can have one.
fn shorter(r: Region) -> Result<Option<Region>, Memory>
    ensures { IfOk result (λ q. q ≡ meant.measure_region Fun.Rest r) }
{
    match shortened(lengths_of(r))? {
        Some(s) => Ok(Some(Region::Lengths(s))),
        None => Ok(None),
    }
}

/// A function of a sequence.
fn measure_region(fun: Fun, r: Region) -> Result<Option<Region>, Memory>
    ensures { IfOk result (λ q. q ≡ meant.measure_region fun r) }
{
    match fun {
        Fun::First => Ok(Some(Region::Numbers(all_numbers()))),
        Fun::Last => Ok(Some(Region::Numbers(all_numbers()))),
        Fun::Rest => shorter(r),
        Fun::Front => shorter(r),
        Fun::Len => Ok(Some(Region::Numbers(all_numbers()))),
    }
}

/// A function of a sequence beside a literal, in a comparison.
fn length_region(fun: Fun, r: Region) -> Result<Option<Region>, Memory>
    ensures { IfOk result (λ q. q ≡ meant.length_region fun r) }
{
    match fun {
        Fun::Len => Ok(Some(Region::Numbers(lengths_of(r)))),
        Fun::First => measure_region(Fun::First, r),
        Fun::Last => measure_region(Fun::Last, r),
        Fun::Rest => measure_region(Fun::Rest, r),
        Fun::Front => measure_region(Fun::Front, r),
    }
}

/// A side whose region is the same in every place.
fn plain_side(region: Option<Region>) -> Sides
    ensures { result ≡ meant.plain_side region }
{
    Sides {
        digits: false,
        literal: false,
        region,
        beside: region,
    }
}

/// Whether an operator compares.
pub(crate) fn is_comparison(op: Op) -> bool
    ensures { result ≡ values.is_comparison op }
{
    match op {
        Op::Eq | Op::Ne | Op::Lt | Op::Le | Op::Gt | Op::Ge => true,
        Op::Or | Op::And | Op::Plus | Op::Minus | Op::WrapPlus | Op::WrapMinus => false,
        Op::Times | Op::Divide | Op::Remainder | Op::At | Op::Add => false,
    }
}

/// The region of a side that stands next to another one under an operator.
fn next_to(op: Op, side: Sides, other: Sides) -> Option<Region>
    ensures { result ≡ meant.next_to op side other }
{
    if is_comparison(op) && other.literal {
        side.beside
    } else {
        side.region
    }
}

/// What is told of `or` by its right side alone.
fn or_known(told: Option<bool>) -> Option<bool>
    ensures { result ≡ meant.or_known told }
{
    match told {
        Some(true) => Some(true),
        Some(false) => None,
        None => None,
    }
}

/// What is told of `and` by its right side alone.
fn and_known(told: Option<bool>) -> Option<bool>
    ensures { result ≡ meant.and_known told }
{
    match told {
        Some(true) => None,
        Some(false) => Some(false),
        None => None,
    }
}

/// The bool of a side, where it can have a value.
fn truth_side(side: Option<Region>) -> Option<Region>
    ensures { result ≡ option_map (λ r. Region.Truth (frames_meant.truth_of r)) side }
{
    match side {
        Some(r) => truth(truth_of(r)),
        None => None,
    }
}

/// `or` by its left side.
fn or_right(told: Option<bool>, right: Option<Region>) -> Option<Region>
    ensures { result ≡ meant.or_right told right }
{
    match (told, right) {
        (Some(true), _) => truth(Some(true)),
        (Some(false), _) => truth_side(right),
        (None, None) => truth(Some(true)),
        (None, Some(r)) => truth(or_known(truth_of(r))),
    }
}

/// `and` by its left side.
fn and_right(told: Option<bool>, right: Option<Region>) -> Option<Region>
    ensures { result ≡ meant.and_right told right }
{
    match (told, right) {
        (Some(false), _) => truth(Some(false)),
        (Some(true), _) => truth_side(right),
        (None, None) => truth(Some(false)),
        (None, Some(r)) => truth(and_known(truth_of(r))),
    }
}

/// An operator of two sides that both have to have a value.
fn applied(op: Op, l: Option<Region>, r: Option<Region>) -> Result<Option<Region>, Memory>
    ensures { IfOk result (λ q. q
        ≡ option_and_then (λ x. option_and_then (meant.apply_region op x) r) l) }
{
    match (l, r) {
        (Some(x), Some(y)) => apply_region(op, x, y),
        (Some(_), None) => Ok(None),
        (None, _) => Ok(None),
    }
}

/// `or` of two sides.
fn either(l: Option<Region>, r: Option<Region>) -> Option<Region>
    ensures { result ≡ meant.combined Op.Or l r }
{
    match l {
        Some(x) => or_right(truth_of(x), r),
        None => None,
    }
}

/// `and` of two sides.
fn both(l: Option<Region>, r: Option<Region>) -> Option<Region>
    ensures { result ≡ meant.combined Op.And l r }
{
    match l {
        Some(x) => and_right(truth_of(x), r),
        None => None,
    }
}

/// Two sides under an operator, by the region of each.
fn combined(op: Op, l: Option<Region>, r: Option<Region>) -> Result<Option<Region>, Memory>
    ensures { IfOk result (λ q. q ≡ meant.combined op l r) }
{
    match op {
        Op::Or => Ok(either(l, r)),
        Op::And => Ok(both(l, r)),
        Op::Eq => applied(Op::Eq, l, r),
        Op::Ne => applied(Op::Ne, l, r),
        Op::Lt => applied(Op::Lt, l, r),
        Op::Le => applied(Op::Le, l, r),
        Op::Gt => applied(Op::Gt, l, r),
        Op::Ge => applied(Op::Ge, l, r),
        Op::Plus => applied(Op::Plus, l, r),
        Op::Minus => applied(Op::Minus, l, r),
        Op::WrapPlus => applied(Op::WrapPlus, l, r),
        Op::WrapMinus => applied(Op::WrapMinus, l, r),
        Op::Times => applied(Op::Times, l, r),
        Op::Divide => applied(Op::Divide, l, r),
        Op::Remainder => applied(Op::Remainder, l, r),
        Op::At => applied(Op::At, l, r),
        Op::Add => applied(Op::Add, l, r),
    }
}

/// Two sides under an operator.
fn both_sides(op: Op, l: Sides, r: Sides) -> Result<Sides, Memory>
    ensures { IfOk result (λ s. s ≡ meant.both_sides op l r) }
{
    Ok(plain_side(combined(op, next_to(op, l, r), next_to(op, r, l))?))
}

/// 0 less a side, where it can have a value.
fn minus_region(side: Option<Region>) -> Result<Option<Region>, Memory>
    ensures { IfOk result (λ r. r ≡ option_and_then meant.minus_region side) }
{
    match side {
        Some(r) => Ok(exact_region(differences(single(0), numbers_of(r))?)),
        None => Ok(None),
    }
}

/// A minus before a side.
fn negated_side(side: Sides) -> Result<Sides, Memory>
    ensures { IfOk result (λ s. s ≡ meant.negated_side side) }
{
    let region = minus_region(side.region)?;
    Ok(Sides {
        digits: false,
        literal: side.digits,
        region,
        beside: region,
    })
}

/// `not` before a side.
fn inverted_side(side: Sides) -> Sides
    ensures { result ≡ meant.inverted_side side }
{
    match side.region {
        Some(r) => plain_side(truth(turned(truth_of(r)))),
        None => plain_side(None),
    }
}

/// A function of a side, where this can have a value.
fn measured(fun: Fun, side: Option<Region>) -> Result<Option<Region>, Memory>
    ensures { IfOk result (λ r. r ≡ option_and_then (meant.measure_region fun) side) }
{
    match side {
        Some(r) => measure_region(fun, r),
        None => Ok(None),
    }
}

/// A function of a side beside a literal, where this can have a value.
fn measured_beside(fun: Fun, side: Option<Region>) -> Result<Option<Region>, Memory>
    ensures { IfOk result (λ r. r ≡ option_and_then (meant.length_region fun) side) }
{
    match side {
        Some(r) => length_region(fun, r),
        None => Ok(None),
    }
}

/// A function of a sequence.
fn measured_side(fun: Fun, side: Sides) -> Result<Sides, Memory>
    ensures { IfOk result (λ s. s ≡ meant.measured_side fun side) }
{
    let region = measured(fun, side.region)?;
    let beside = measured_beside(fun, side.region)?;
    Ok(Sides {
        digits: false,
        literal: false,
        region,
        beside,
    })
}

/// A number in digits.
fn number_side(z: i64) -> Sides
    ensures { result ≡ meant.number_side z }
{
    let number = Some(Region::Numbers(single(z as i128)));
    Sides {
        digits: true,
        literal: true,
        region: number,
        beside: number,
    }
}

/// The sides of an expression, where each name has its region in the frame.
pub fn sides_in(expr: &Expr<Ref>, frame: &Frame) -> Result<Sides, Memory>
    ensures { IfOk result (λ s. s ≡ meant.sides (frames_meant.regions_of frame.now) expr.now) }
{
    match &expr.node {
        Node::Int(z) => Ok(number_side(*z)),
        Node::Bool(b) => Ok(plain_side(truth(Some(*b)))),
        Node::Empty => Ok(plain_side(Some(Region::Lengths(single(0))))),
        Node::Name(name) => Ok(plain_side(Some(region_of(*name, frame)))),
        Node::Neg(part) => negated_side(sides_in(part, frame)?),
        Node::Not(part) => Ok(inverted_side(sides_in(part, frame)?)),
        Node::Two(op, left, right) => {
            let l = sides_in(left, frame)?;
            let r = sides_in(right, frame)?;
            both_sides(*op, l, r)
        }
        Node::One(fun, part) => measured_side(*fun, sides_in(part, frame)?),
    }
}

/// The region of an expression's values in a frame. There is none where it can't have a value.
pub fn region_in(expr: &Expr<Ref>, frame: &Frame) -> Result<Option<Region>, Memory>
    ensures { IfOk result (λ r. r ≡ meant.region_in expr.now frame.now) }
{
    Ok(sides_in(expr, frame)?.region)
}
