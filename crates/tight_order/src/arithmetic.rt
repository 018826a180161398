//! Operators of numbers, with their traps.

ghost use Rattle.std.specs.Prelude.{◌≡◌, ℤ, neg_ℤ, ◌+ℤ◌, ◌-ℤ◌, SomeIff, FitsSigned, true};
ghost use Rattle.std.specs.Int.{w64, int_wrap};
ghost use Rattle.seuss_program.specs.Values.{Evaluated, apply, quotient, remainder, exact};
ghost use Rattle.seuss_program.specs.declared.state.Value.TheVariants.{Int};
ghost use Rattle.tight_order.specs.Answers.{Evaluates, EvaluatesNumber};
ghost use Rattle.tight_order.specs.Lazy.{computes, takes_numbers};

use crate::stop::Stop;
use seuss_base::Trap;
use seuss_program::{Op, Value};

/// The number of an exact computation, where it has 64 bits.
fn fitting(found: Option<i64>) -> Result<i64, Stop>
    ensures { (z : ℤ) → SomeIff found (FitsSigned w64 z) z → EvaluatesNumber result (exact z) }
{
    match found {
        Some(z) => Ok(z),
        None => Err(Stop::Trapped(Trap::Overflow)),
    }
}

/// The sum modulo 2^64, in the signed range.
fn wrapped_sum(x: i64, y: i64) -> i64
    ensures { result ≡ int_wrap w64 (x +ℤ y) }
{
    x.wrapping_add(y)
}

/// The difference modulo 2^64, in the signed range.
fn wrapped_difference(x: i64, y: i64) -> i64
    ensures { result ≡ int_wrap w64 (x -ℤ y) }
{
    x.wrapping_sub(y)
}

/// The quotient, which is truncated toward zero.
fn divided(x: i64, y: i64) -> Result<i64, Stop>
    ensures { EvaluatesNumber result (quotient x y) }
{
    if y == 0 {
        return Err(Stop::Trapped(Trap::ZeroDivisor));
    }
    fitting(x.checked_div(y))
}

/// The remainder, which has the sign of the dividend.
fn remaining(x: i64, y: i64) -> Result<i64, Stop>
    ensures { EvaluatesNumber result (remainder x y) }
{
    if y == 0 {
        return Err(Stop::Trapped(Trap::ZeroDivisor));
    }
    match x.checked_rem(y) {
        Some(z) => Ok(z),
        None => Err(Stop::Trapped(Trap::Overflow)),
    }
}

/// Whether an operator computes a number from two numbers.
pub fn is_computing(op: Op) -> bool
    ensures { result ≡ computes op }
{
    match op {
        Op::Plus | Op::Minus | Op::WrapPlus | Op::WrapMinus => true,
        Op::Times | Op::Divide | Op::Remainder => true,
        Op::Or | Op::And | Op::Eq | Op::Ne | Op::At | Op::Add => false,
        Op::Lt | Op::Le | Op::Gt | Op::Ge => false,
    }
}

/// Whether an operator looks at its parts as numbers alone.
pub fn is_of_numbers(op: Op) -> bool
    ensures { result ≡ takes_numbers op }
{
    match op {
        Op::Plus | Op::Minus | Op::WrapPlus | Op::WrapMinus => true,
        Op::Times | Op::Divide | Op::Remainder => true,
        Op::Or | Op::And | Op::Eq | Op::Ne | Op::At | Op::Add => false,
        Op::Lt | Op::Le | Op::Gt | Op::Ge => true,
    }
}

/// The number that an operator computes from two numbers.
pub fn computed(op: Op, x: i64, y: i64) -> Result<i64, Stop>
    requires { computes op ≡ true }
    ensures { EvaluatesNumber result (apply op (Int x) (Int y)) }
{
    match op {
        Op::Plus => fitting(x.checked_add(y)),
        Op::Minus => fitting(x.checked_sub(y)),
        Op::WrapPlus => Ok(wrapped_sum(x, y)),
        Op::WrapMinus => Ok(wrapped_difference(x, y)),
        Op::Times => fitting(x.checked_mul(y)),
        Op::Divide => divided(x, y),
        Op::Remainder => remaining(x, y),
        Op::Or | Op::And | Op::Eq | Op::Ne | Op::At | Op::Add => Ok(0),
        Op::Lt | Op::Le | Op::Gt | Op::Ge => Ok(0),
    }
}

/// The value that a number makes, where there is one.
fn made(found: Result<i64, Stop>) -> Result<Value, Stop>
    ensures { (e : Evaluated) → EvaluatesNumber found e → Evaluates result e }
{
    match found {
        Ok(z) => Ok(Value::Int(z)),
        Err(stop) => Err(stop),
    }
}

/// An operator of two numbers.
pub fn combine_numbers(op: Op, x: i64, y: i64) -> Result<Value, Stop>
    requires { takes_numbers op ≡ true }
    ensures { Evaluates result (apply op (Int x) (Int y)) }
{
    match op {
        Op::Lt => Ok(Value::Bool(x < y)),
        Op::Le => Ok(Value::Bool(x <= y)),
        Op::Gt => Ok(Value::Bool(x > y)),
        Op::Ge => Ok(Value::Bool(x >= y)),
        Op::Plus | Op::Minus | Op::WrapPlus | Op::WrapMinus => made(computed(op, x, y)),
        Op::Times | Op::Divide | Op::Remainder => made(computed(op, x, y)),
        Op::Or | Op::And | Op::Eq | Op::Ne | Op::At | Op::Add => Ok(Value::Bool(false)),
    }
}

/// Minus a number.
pub fn negated(z: i64) -> Result<Value, Stop>
    ensures { Evaluates result (exact (neg_ℤ z)) }
{
    made(fitting(z.checked_neg()))
}
