//! Statements, loops and calls in bodies.

ghost use Rattle.std.specs.Prelude.{◌≡◌, ◌≤◌};
ghost use Rattle.seuss_program.specs.Programs.{vars_of};
ghost use Rattle.seuss_program.specs.Values.{value as value_of};
ghost use Rattle.seuss_program.specs.Bodies.{arguments as arguments_of, body as body_of};
ghost use Rattle.seuss_program.specs.Bodies.{statement as meaning_of};
ghost use Rattle.seuss_program.specs.Bodies.{looped, call_with};
ghost use Rattle.seuss_program.specs.Attempts.{attempt as attempt_of};
ghost use Rattle.tight_order.specs.Answers.{Ends};

use crate::attempt::attempt;
use crate::frame::{Frame, Place, Reply};
use crate::pay::pay;
use crate::stop::Stop;
use crate::store::{arguments, assign_value, bind, method, target, value_on};
use crate::value::truth;
use seuss_program::{Call, Expr, Ref, State, Statement};
use std::alloc::Global;

/// Runs statements one after the other, until one stops.
#[cycle(attempt)]
pub fn run_body(
    alloc: Global,
    place: &Place,
    statements: &[Statement<Ref>],
    state: &mut State,
    frame: &mut Frame,
) -> Result<(), Stop>
    ensures budget { frame.new.budget ≤ frame.old.budget }
    ensures after { Ends result
        (body_of place.now.program.now (attempt_of place.now.program.now place.now.depth)
        place.now.box_number
        statements.now state.old frame.old.slots frame.old.budget)
        state.new frame.new }
{
    for statement in statements {
        run_statement(alloc, place, statement, state, frame)?;
    }
    Ok(())
}

/// Runs one statement.
#[cycle(attempt)]
fn run_statement(
    alloc: Global,
    place: &Place,
    statement: &Statement<Ref>,
    state: &mut State,
    frame: &mut Frame,
) -> Result<(), Stop>
    ensures budget { frame.new.budget ≤ frame.old.budget }
    ensures after { Ends result
        (meaning_of place.now.program.now (attempt_of place.now.program.now place.now.depth)
        place.now.box_number
        statement.now state.old frame.old.slots frame.old.budget)
        state.new frame.new }
{
    match statement {
        Statement::Let { name, value, .. } => {
            assign_value(alloc, *name, value, place.box_number, state, frame)
        }
        Statement::Assign { name, value } => {
            assign_value(alloc, *name, value, place.box_number, state, frame)
        }
        Statement::Call { bind, call } => run_call(alloc, place, *bind, call, state, frame),
        Statement::If { cond, yes, no } => {
            let holds = value_on(alloc, cond, place.box_number, state, &frame.slots)?;
            if truth(&holds) {
                run_body(alloc, place, yes.as_slice(), state, frame)
            } else {
                run_body(alloc, place, no.as_slice(), state, frame)
            }
        }
        Statement::While { cond, turn } => {
            run_loop(alloc, place, cond, turn.as_slice(), state, frame)
        }
    }
}

/// Runs the turns of a loop, as long as its condition holds.
#[cycle(attempt)]
fn run_loop(
    alloc: Global,
    place: &Place,
    cond: &Expr<Ref>,
    turn: &[Statement<Ref>],
    state: &mut State,
    frame: &mut Frame,
) -> Result<(), Stop>
    ensures budget { frame.new.budget ≤ frame.old.budget }
    ensures after { Ends result
        (looped place.now.box_number frame.old.budget cond.now
        (body_of place.now.program.now (attempt_of place.now.program.now place.now.depth)
        place.now.box_number turn.now)
        state.old frame.old.slots frame.old.budget)
        state.new frame.new }
{
    while truth(&value_on(alloc, cond, place.box_number, state, &frame.slots)?) {
        pay(frame)?;
        run_body(alloc, place, turn, state, frame)?;
    }
    Ok(())
}

/// Calls a total method, after its arguments were evaluated and 1 was paid.
#[cycle(attempt)]
fn run_call(
    alloc: Global,
    place: &Place,
    name: Option<Ref>,
    call: &Call<Ref>,
    state: &mut State,
    frame: &mut Frame,
) -> Result<(), Stop>
    ensures budget { frame.new.budget ≤ frame.old.budget }
    ensures after { Ends result
        (call_with place.now.program.now (attempt_of place.now.program.now place.now.depth)
        place.now.box_number name call.now
        (arguments_of call.now.args (vars_of state.old place.now.box_number) frame.old.slots)
        state.old frame.old.slots frame.old.budget)
        state.new frame.new }
{
    let args = arguments(alloc, &call.args, place.box_number, state, &frame.slots)?;
    pay(frame)?;
    let callee = Place {
        program: place.program,
        box_number: target(place.program, place.box_number, call.target),
        depth: place.depth,
    };
    match attempt(
        alloc,
        &callee,
        method(call.method),
        args,
        state,
        &mut frame.budget,
    )? {
        Reply::Accepted(found) => bind(alloc, name, found, place.box_number, state, frame),
        Reply::Rejected => {}
    }
    Ok(())
}
