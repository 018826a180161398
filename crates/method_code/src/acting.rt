//! What the instructions of a procedure do, up to the first one that halts.

ghost use Rattle.std.specs.Prelude.{◌≡◌, ◌≤◌, ◌<◌, ◌⊎◌, length, drop, IfOk};
ghost use Rattle.seuss_program.specs.Values.{value};
ghost use Rattle.seuss_program.specs.Bodies.{arguments as arguments_of};
ghost use Rattle.method_code.specs.declared.instruction.Move.TheVariants.{On as GoesOn, Reject as Rejects};
ghost use Rattle.method_code.specs.Steps.{acts, acted, put as put_of, put_value, taken, decided};
ghost use Rattle.method_code.specs.Steps.{called_with};
ghost use Rattle.method_code.specs.Steps.{last_number, all_but_last, walk};
ghost use Rattle.method_code.specs.Answers.{Acts, Halts};

use crate::instruction::{CallCode, Instruction, Move};
use crate::values::{arguments, put_at, value_of};
use seuss_base::{List, Memory};
use seuss_program::{Expr, Ref, Value};
use std::alloc::Global;
use tight_order::{number, truth};

/// A name takes a value: a variable of the box, or a slot.
fn put(name: Ref, value: Value, vars: &mut List<Value>, slots: &mut List<Value>)
    ensures { put_of name value vars.old slots.old ≡ acts vars.new slots.new (GoesOn 0) }
{
    match name {
        Ref::Var(at) => put_at(vars, at, value),
        Ref::Slot(at) => put_at(slots, at, value),
        Ref::Given(_) | Ref::Method(_) | Ref::Cat(_) => {}
    }
}

/// A name takes the value of an expression.
fn set(
    alloc: Global,
    name: Ref,
    expr: &Expr<Ref>,
    vars: &mut List<Value>,
    slots: &mut List<Value>,
) -> Result<Move, Memory>
    ensures { Acts result (put_value name (value expr.now vars.old slots.old) vars.old slots.old) vars.new
        slots.new }
{
    match value_of(alloc, expr, vars, slots)? {
        Ok(found) => {
            put(name, found, vars, slots);
            Ok(Move::On(0))
        }
        Err(trap) => Ok(Move::Trap(trap)),
    }
}

/// One of two ways on, by a condition.
fn decide(
    alloc: Global,
    cond: &Expr<Ref>,
    vars: &List<Value>,
    slots: &List<Value>,
    holds: Move,
    fails: Move,
) -> Result<Move, Memory>
    ensures { IfOk result (λ move. move ≡ decided (value cond.now vars.now slots.now) holds fails) }
{
    match value_of(alloc, cond, vars, slots)? {
        Ok(found) => { if truth(&found) { Ok(holds) } else { Ok(fails) } }
        Err(trap) => Ok(Move::Trap(trap)),
    }
}

/// The call of a total method, with its arguments.
fn call(
    alloc: Global,
    callee: &CallCode,
    vars: &List<Value>,
    slots: &List<Value>,
) -> Result<Move, Memory>
    ensures { IfOk result
        (λ move. move ≡ called_with callee.now (arguments_of callee.now.args vars.now slots.now)) }
{
    match arguments(alloc, &callee.args, vars, slots)? {
        Ok(args) => Ok(Move::Call {
            target: callee.target,
            method: callee.method,
            args,
        }),
        Err(trap) => Ok(Move::Trap(trap)),
    }
}

/// Takes the last slot off, as a number. Without a slot that is 0.
fn take_last(slots: &mut List<Value>) -> i64
    ensures number { result ≡ last_number slots.old }
    ensures left { slots.new ≡ all_but_last slots.old }
{
    match slots.pop() {
        Some(last) => number(&last),
        None => 0,
    }
}

/// Takes the result of a call off the slots, for a name where there is one.
fn take(name: Option<Ref>, vars: &mut List<Value>, slots: &mut List<Value>)
    ensures { taken name vars.old slots.old ≡ acts vars.new slots.new (GoesOn 0) }
{
    let found = take_last(slots);
    if let Some(name) = name {
        put(name, Value::Int(found), vars, slots);
    }
}

/// Does what one instruction says, on the variables of the box and the slots of the procedure.
fn act(
    alloc: Global,
    instruction: &Instruction,
    vars: &mut List<Value>,
    slots: &mut List<Value>,
) -> Result<Move, Memory>
    ensures { Acts result (acted instruction.now vars.old slots.old) vars.new slots.new }
{
    match instruction {
        Instruction::Set(name, expr) => set(alloc, *name, expr, vars, slots),
        Instruction::SkipUnless(cond, many) => {
            decide(alloc, cond, vars, slots, Move::On(0), Move::On(*many))
        }
        Instruction::Skip(many) => Ok(Move::On(*many)),
        Instruction::Again(cond, many) => {
            decide(alloc, cond, vars, slots, Move::Back(*many), Move::On(0))
        }
        Instruction::Call(callee) => call(alloc, callee, vars, slots),
        Instruction::Take(name) => {
            take(*name, vars, slots);
            Ok(Move::On(0))
        }
        Instruction::Return => Ok(Move::Return),
        Instruction::Reject => Ok(Move::Reject),
    }
}

/// Goes through instructions from a place on, up to the first one that doesn't go on to a later one,
/// and answers its place and what comes after it. After the last one it rejects.
pub fn walk_on(
    alloc: Global,
    instructions: &[Instruction],
    start: u64,
    vars: &mut List<Value>,
    slots: &mut List<Value>,
) -> Result<(u64, Move), Memory>
    requires { length instructions.now ≤ 4000000000 }
    ensures halt { Halts result (walk (drop start instructions.now) start 0 vars.old slots.old) vars.new
        slots.new }
    ensures within { IfOk result (λ found. (found.0 < length instructions.now) ⊎ (found.1 ≡ Rejects)) }
{
    let mut at = start;
    while let Some(instruction) = instructions.get(at as usize) {
        match act(alloc, instruction, vars, slots)? {
            Move::On(many) => at = at + 1 + many as u64,
            halted => return Ok((at, halted)),
        }
    }
    Ok((at, Move::Reject))
}
