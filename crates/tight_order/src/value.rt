//! Values of expressions, from left to right, with their traps.

ghost use Rattle.std.specs.Prelude.{◌≡◌, pos, ⊤, MatchOption, Ok};
ghost use Rattle.seuss_program.specs.Values.{int_of, bool_of, seq_of, same, apply, named, part_of};
ghost use Rattle.seuss_program.specs.declared.state.Value.TheVariants.{Int};
ghost use Rattle.seuss_program.specs.declared.tree.Op.TheVariants.{At as OpAt};
ghost use Rattle.tight_order.specs.Answers.{Evaluates, HasValue, IsRead, read_as};
ghost use Rattle.tight_order.specs.Lazy.{decides};

use crate::arithmetic::{combine_numbers, computed, is_computing, is_of_numbers, negated};
use crate::sequences::{added, element_at, of_lent, of_sequence, sequence};
use crate::stop::Stop;
use seuss_base::Ints;
use seuss_program::{Expr, Node, Op, Ref, Value};
use std::alloc::Global;

/// The number that a value is. Any other value stands for 0.
pub fn number(v: &Value) -> i64
    ensures { result ≡ int_of v.now }
{
    match v {
        Value::Int(z) => *z,
        Value::Bool(_) | Value::Seq(_) => 0,
    }
}

/// The bool that a value is. Any other value stands for false.
pub fn truth(v: &Value) -> bool
    ensures { result ≡ bool_of v.now }
{
    match v {
        Value::Bool(b) => *b,
        Value::Int(_) | Value::Seq(_) => false,
    }
}

/// Whether two numbers, or two bools, are the same.
fn is_same(x: &Value, y: &Value) -> bool
    ensures { result ≡ same x.now y.now }
{
    match (x, y) {
        (Value::Int(a), Value::Int(b)) => *a == *b,
        (Value::Bool(a), Value::Bool(b)) => *a == *b,
        _ => false,
    }
}

/// The number that a value is, where there is one.
fn read_number(found: Result<Value, Stop>) -> Result<i64, Stop>
    ensures { result ≡ read_as int_of found }
{
    match found {
        Ok(v) => Ok(number(&v)),
        Err(stop) => Err(stop),
    }
}

/// An operator or a function of two values.
fn combine(alloc: Global, op: Op, x: Value, y: Value) -> Result<Value, Stop>
    ensures { Evaluates result (apply op x y) }
{
    match op {
        Op::Or => Ok(Value::Bool(truth(&x) || truth(&y))),
        Op::And => Ok(Value::Bool(truth(&x) && truth(&y))),
        Op::Eq => Ok(Value::Bool(is_same(&x, &y))),
        Op::Ne => Ok(Value::Bool(!is_same(&x, &y))),
        Op::At => element_at(&sequence(alloc, x), number(&y)),
        Op::Add => added(sequence(alloc, x), number(&y)),
        Op::Lt | Op::Le | Op::Gt | Op::Ge => combine_numbers(op, number(&x), number(&y)),
        Op::Plus | Op::Minus | Op::WrapPlus | Op::WrapMinus => {
            combine_numbers(op, number(&x), number(&y))
        }
        Op::Times | Op::Divide | Op::Remainder => { combine_numbers(op, number(&x), number(&y)) }
    }
}

/// What lies in the place of a name: a variable of the box or a slot of the procedure.
fn place_of<'a>(name: Ref, vars: &'a [Value], slots: &'a [Value]) -> Option<&'a Value>
    ensures { MatchOption result (named name vars.now slots.now ≡ Int (pos 0))
        (λ v. named name vars.now slots.now ≡ v.now) }
{
    match name {
        Ref::Var(at) => vars.get(at as usize),
        Ref::Slot(at) => slots.get(at as usize),
        Ref::Given(_) | Ref::Method(_) | Ref::Cat(_) => None,
    }
}

/// What a name stands for.
fn lookup(alloc: Global, name: Ref, vars: &[Value], slots: &[Value]) -> Result<Value, Stop>
    ensures { Evaluates result (Ok (named name vars.now slots.now)) }
{
    match place_of(name, vars, slots) {
        Some(v) => Ok(v.copy(alloc)?),
        None => Ok(Value::Int(0)),
    }
}

/// The number that a name stands for.
fn number_named(name: Ref, vars: &[Value], slots: &[Value]) -> i64
    ensures { result ≡ int_of (named name vars.now slots.now) }
{
    match place_of(name, vars, slots) {
        Some(v) => number(v),
        None => 0,
    }
}

/// The sequence that an expression stands for, if it is a name. It is lent from its place.
fn lent<'a>(expr: &Expr<Ref>, vars: &'a [Value], slots: &'a [Value]) -> Option<&'a Ints>
    ensures { MatchOption result ⊤
        (λ zs. IsRead seq_of (Ok zs.now) (part_of expr.now) vars.now slots.now) }
{
    let Node::Name(name) = &expr.node else {
        return None;
    };
    match place_of(*name, vars, slots) {
        Some(Value::Seq(zs)) => Some(zs),
        Some(Value::Int(_) | Value::Bool(_)) | None => None,
    }
}

/// Whether the left part of an operator decides alone.
fn is_decided(op: Op, left: bool) -> bool
    ensures { result ≡ decides op left }
{
    match op {
        Op::Or => left,
        Op::And => !left,
        _ => false,
    }
}

/// The sequence that an expression stands for under `at`, if it is a name.
fn lent_for<'a>(op: Op, left: &Expr<Ref>, vars: &'a [Value], slots: &'a [Value]) -> Option<&'a Ints>
    ensures { MatchOption result ⊤
        (λ zs. (op ≡ OpAt) × IsRead seq_of (Ok zs.now) (part_of left.now) vars.now slots.now) }
{
    match op {
        Op::At => lent(left, vars, slots),
        _ => None,
    }
}

/// The number that an expression has, with no value made for what numbers alone give.
#[cycle(evaluate)]
pub fn number_in(
    alloc: Global,
    expr: &Expr<Ref>,
    vars: &[Value],
    slots: &[Value],
) -> Result<i64, Stop>
    ensures { IsRead int_of result (part_of expr.now) vars.now slots.now }
{
    match &expr.node {
        Node::Int(z) => Ok(*z),
        Node::Name(name) => Ok(number_named(*name, vars, slots)),
        Node::Two(op, left, right) => {
            if is_computing(*op) {
                let x = number_in(alloc, left, vars, slots)?;
                let y = number_in(alloc, right, vars, slots)?;
                return computed(*op, x, y);
            }
            read_number(evaluate(alloc, expr, vars, slots))
        }
        Node::Bool(_) | Node::Empty | Node::Neg(_) | Node::Not(_) | Node::One(_, _) => {
            read_number(evaluate(alloc, expr, vars, slots))
        }
    }
}

/// The value of an expression, by the variables of the box and the slots of the procedure. A length
/// is exact, so it is the same beside a literal.
#[cycle(evaluate)]
pub fn evaluate(
    alloc: Global,
    expr: &Expr<Ref>,
    vars: &[Value],
    slots: &[Value],
) -> Result<Value, Stop>
    ensures { HasValue result (part_of expr.now) vars.now slots.now }
{
    match &expr.node {
        Node::Int(z) => Ok(Value::Int(*z)),
        Node::Bool(b) => Ok(Value::Bool(*b)),
        Node::Empty => Ok(Value::Seq(Ints::new(alloc))),
        Node::Name(name) => lookup(alloc, *name, vars, slots),
        Node::Neg(part) => negated(number_in(alloc, part, vars, slots)?),
        Node::Not(part) => Ok(Value::Bool(!truth(&evaluate(alloc, part, vars, slots)?))),
        Node::Two(op, left, right) => {
            if is_of_numbers(*op) {
                let a = number_in(alloc, left, vars, slots)?;
                let b = number_in(alloc, right, vars, slots)?;
                return combine_numbers(*op, a, b);
            }
            if let Some(zs) = lent_for(*op, left, vars, slots) {
                let at = number_in(alloc, right, vars, slots)?;
                return element_at(zs, at);
            }
            let x = evaluate(alloc, left, vars, slots)?;
            if is_decided(*op, truth(&x)) {
                return Ok(Value::Bool(truth(&x)));
            }
            let y = evaluate(alloc, right, vars, slots)?;
            combine(alloc, *op, x, y)
        }
        Node::One(fun, part) => {
            if let Some(zs) = lent(part, vars, slots) {
                return of_lent(alloc, *fun, zs);
            }
            let v = evaluate(alloc, part, vars, slots)?;
            of_sequence(*fun, sequence(alloc, v))
        }
    }
}
