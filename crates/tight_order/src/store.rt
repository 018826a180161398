//! Values of expressions on a box, and names that take values.

ghost use Rattle.std.specs.Prelude.{◌≡◌, slice_set, option_map, IfOk, OnOk};
ghost use Rattle.std.specs.Option.{option_copied};
ghost use Rattle.seuss_program.specs.Programs.{vars_of, with_var, procedure_of, target_of, method_of};
ghost use Rattle.seuss_program.specs.Programs.{level_of};
ghost use Rattle.seuss_program.specs.Values.{value as value_of};
ghost use Rattle.seuss_program.specs.Bodies.{Done, assigned, evaluated_into, bound};
ghost use Rattle.seuss_program.specs.Bodies.{arguments as arguments_of};
ghost use Rattle.tight_order.specs.Answers.{Evaluates, Gives, Ends};

use crate::frame::Frame;
use crate::stop::Stop;
use crate::value::evaluate;
use seuss_base::List;
use seuss_program::{Expr, Proc, Program, Ref, State, Value, Vars};
use std::alloc::Global;

/// The value of an expression on a box.
pub fn value_on(
    alloc: Global,
    expr: &Expr<Ref>,
    box_number: u32,
    state: &State,
    slots: &List<Value>,
) -> Result<Value, Stop>
    ensures { Evaluates result (value_of expr.now (vars_of state.now box_number) slots.now) }
{
    match state.boxes.get(box_number as u64) {
        Some(vars) => evaluate(alloc, expr, vars.values.as_slice(), slots.as_slice()),
        None => evaluate(alloc, expr, &[], slots.as_slice()),
    }
}

/// The values of arguments, from left to right.
pub fn arguments(
    alloc: Global,
    args: &List<Expr<Ref>>,
    box_number: u32,
    state: &State,
    slots: &List<Value>,
) -> Result<List<Value>, Stop>
    ensures { Gives result (arguments_of args.now (vars_of state.now box_number) slots.now) }
{
    let mut values = List::new(alloc);
    for arg in args.as_slice() {
        values.push(value_on(alloc, arg, box_number, state, slots)?)?;
    }
    Ok(values)
}

/// Puts a value in a place of a list, if there is such a place.
fn put(values: &mut List<Value>, at: u32, value: Value)
    ensures { values.new ≡ slice_set values.old at value }
{
    let at = at as u64;
    if at < values.len() {
        values.set(at, value);
    }
}

/// Gives a variable of a box a value.
fn put_var(alloc: Global, state: &mut State, box_number: u32, at: u32, value: Value)
    ensures { state.new ≡ with_var state.old box_number at value }
{
    let number = box_number as u64;
    if number < state.boxes.len() {
        let none = Vars {
            values: List::new(alloc),
        };
        let mut vars = state.boxes.replace(number, none);
        put(&mut vars.values, at, value);
        state.boxes.set(number, vars);
    }
}

/// A name takes a value: a variable of the box, or a slot.
pub fn assign(
    alloc: Global,
    name: Ref,
    value: Value,
    box_number: u32,
    state: &mut State,
    frame: &mut Frame,
)
    ensures budget { frame.new.budget ≡ frame.old.budget }
    ensures after { assigned box_number name value state.old frame.old.slots frame.old.budget
        ≡ record { state = state.new; slots = frame.new.slots; budget = frame.new.budget; finish = Done } }
{
    match name {
        Ref::Var(at) => put_var(alloc, state, box_number, at, value),
        Ref::Slot(at) => put(&mut frame.slots, at, value),
        Ref::Given(_) | Ref::Method(_) | Ref::Cat(_) => {}
    }
}

/// A name takes the value of an expression.
pub fn assign_value(
    alloc: Global,
    name: Ref,
    expr: &Expr<Ref>,
    box_number: u32,
    state: &mut State,
    frame: &mut Frame,
) -> Result<(), Stop>
    ensures budget { frame.new.budget ≡ frame.old.budget }
    ensures after { Ends result
        (evaluated_into box_number name (value_of expr.now (vars_of state.old box_number) frame.old.slots)
        state.old frame.old.slots frame.old.budget)
        state.new frame.new }
{
    let value = value_on(alloc, expr, box_number, state, &frame.slots)?;
    assign(alloc, name, value, box_number, state, frame);
    Ok(())
}

/// A name, where there is one, takes the result of a call, where it has one.
pub fn bind(
    alloc: Global,
    name: Option<Ref>,
    found: Option<i64>,
    box_number: u32,
    state: &mut State,
    frame: &mut Frame,
)
    ensures budget { frame.new.budget ≡ frame.old.budget }
    ensures after { bound box_number name found state.old frame.old.slots frame.old.budget
        ≡ record { state = state.new; slots = frame.new.slots; budget = frame.new.budget; finish = Done } }
{
    if let (Some(name), Some(z)) = (name, found) {
        assign(alloc, name, Value::Int(z), box_number, state, frame);
    }
}

/// The box that a name of a given box stands for.
pub fn target(program: &Program, box_number: u32, name: Ref) -> u32
    ensures { result ≡ target_of program.now box_number name }
{
    let Ref::Given(number) = name else {
        return 0;
    };
    match program.boxes.get(box_number as u64) {
        Some(info) => info.given.get(number as u64).copied().unwrap_or(0),
        None => 0,
    }
}

/// The number of the method that a name stands for.
pub fn method(name: Ref) -> u32
    ensures { result ≡ method_of name }
{
    match name {
        Ref::Method(number) => number,
        Ref::Var(_) | Ref::Slot(_) | Ref::Given(_) | Ref::Cat(_) => 0,
    }
}

/// A procedure of a box, by its number in the cat of the box.
pub fn procedure(program: &Program, box_number: u32, number: u32) -> Option<&Proc<Ref>>
    ensures { option_copied result ≡ procedure_of program.now box_number number }
{
    let info = program.boxes.get(box_number as u64)?;
    let cat = program.cats.get(info.cat as u64)?;
    cat.procs.get(number as u64)
}

/// The level of a box.
pub fn level(program: &Program, box_number: u32) -> u32
    ensures { result ≡ level_of program.now box_number }
{
    match program.boxes.get(box_number as u64) {
        Some(info) => info.level,
        None => 0,
    }
}
