//! The values of expressions, and places that take them.

ghost use Rattle.std.specs.Prelude.{◌≡◌, slice_set, IfOk};
ghost use Rattle.seuss_program.specs.Values.{value};
ghost use Rattle.seuss_program.specs.Bodies.{arguments as arguments_of};

use seuss_base::{List, Memory, Trap};
use seuss_program::{Expr, Ref, Value};
use std::alloc::Global;
use tight_order::{Stop, evaluate};

/// The value of an expression, or the trap that stopped it.
pub fn value_of(
    alloc: Global,
    expr: &Expr<Ref>,
    vars: &List<Value>,
    slots: &List<Value>,
) -> Result<Result<Value, Trap>, Memory>
    ensures { IfOk result (λ r. r ≡ value expr.now vars.now slots.now) }
{
    match evaluate(alloc, expr, vars.as_slice(), slots.as_slice()) {
        Ok(v) => Ok(Ok(v)),
        Err(Stop::Trapped(trap)) => Ok(Err(trap)),
        Err(Stop::Spent) => Err(Memory),
        Err(Stop::Memory) => Err(Memory),
    }
}

/// The values of arguments, from left to right, or the first trap.
pub fn arguments(
    alloc: Global,
    args: &List<Expr<Ref>>,
    vars: &List<Value>,
    slots: &List<Value>,
) -> Result<Result<List<Value>, Trap>, Memory>
    ensures { IfOk result (λ r. r ≡ arguments_of args.now vars.now slots.now) }
{
    let mut values = List::new(alloc);
    for arg in args.as_slice() {
        match value_of(alloc, arg, vars, slots)? {
            Ok(value) => values.push(value)?,
            Err(trap) => return Ok(Err(trap)),
        }
    }
    Ok(Ok(values))
}

/// Puts a value in a place of a list, if there is such a place.
pub fn put_at(values: &mut List<Value>, at: u32, value: Value)
    ensures { values.new ≡ slice_set values.old at value }
{
    let at = at as u64;
    if at < values.len() {
        values.set(at, value);
    }
}
