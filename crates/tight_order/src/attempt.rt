//! Attempts of procedures: alternatives, preprocedures and bodies.

ghost use Rattle.std.specs.Prelude.{◌≡◌, ◌≤◌};
ghost use Rattle.seuss_program.specs.Programs.{vars_of};
ghost use Rattle.seuss_program.specs.Bodies.{arguments as arguments_of};
ghost use Rattle.seuss_program.specs.Attempts.{attempt as attempt_of, performed, choice, body_of};
ghost use Rattle.seuss_program.specs.Attempts.{pre_called};
ghost use Rattle.seuss_program.specs.Attempts.{chosen};
ghost use Rattle.tight_order.specs.Answers.{Replies};

use crate::body::run_body;
use crate::entry::{entry, outcome_of};
use crate::frame::{Frame, Place, Reply};
use crate::stop::Stop;
use crate::store::{arguments, bind, method, procedure, target, value_on};
use crate::value::truth;
use seuss_base::List;
use seuss_program::{Alternative, Form, Pre, Proc, Ref, State, Value};
use std::alloc::Global;

/// An attempt of a procedure of a box, with calls at most `depth` deep, its own counted. Where there
/// is no such procedure, it rejects.
#[cycle(attempt)]
pub fn attempt(
    alloc: Global,
    place: &Place,
    number: u32,
    args: List<Value>,
    state: &mut State,
    budget: &mut u64,
) -> Result<Reply, Stop>
    ensures budget { budget.new ≤ budget.old }
    ensures after { Replies result
        (attempt_of place.now.program.now place.now.depth place.now.box_number number args state.old
        budget.old)
        state.new budget.new }
{
    if place.depth == 0 {
        return Ok(Reply::Rejected);
    }
    let Some(proc) = procedure(place.program, place.box_number, number) else {
        return Ok(Reply::Rejected);
    };
    let below = Place {
        program: place.program,
        box_number: place.box_number,
        depth: place.depth - 1,
    };
    let mut frame = Frame {
        slots: entry(alloc, proc, args)?,
        budget: *budget,
    };
    let reply = perform(alloc, &below, proc, state, &mut frame);
    *budget = frame.budget;
    reply
}

/// Runs a procedure from its entry.
#[cycle(attempt)]
fn perform(
    alloc: Global,
    place: &Place,
    proc: &Proc<Ref>,
    state: &mut State,
    frame: &mut Frame,
) -> Result<Reply, Stop>
    ensures budget { frame.new.budget ≤ frame.old.budget }
    ensures after { Replies result
        (performed place.now.program.now (attempt_of place.now.program.now place.now.depth)
        place.now.box_number
        proc.now proc.now.form state.old frame.old.slots frame.old.budget)
        state.new frame.new.budget }
{
    match &proc.form {
        Form::Total(statements) => {
            run_body(alloc, place, statements.as_slice(), state, frame)?;
            Ok(Reply::Accepted(outcome_of(proc, &frame.slots)))
        }
        Form::Partial(alternatives) => {
            choose(alloc, place, proc, alternatives.as_slice(), state, frame)
        }
        Form::Action(alternatives) => {
            choose(alloc, place, proc, alternatives.as_slice(), state, frame)
        }
    }
}

/// Takes the first alternative whose precondition holds. Where none holds, it rejects.
#[cycle(attempt)]
fn choose(
    alloc: Global,
    place: &Place,
    proc: &Proc<Ref>,
    alternatives: &[Alternative<Ref>],
    state: &mut State,
    frame: &mut Frame,
) -> Result<Reply, Stop>
    ensures budget { frame.new.budget ≤ frame.old.budget }
    ensures after { Replies result
        (choice place.now.program.now (attempt_of place.now.program.now place.now.depth) place.now.box_number
        proc.now alternatives.now state.old frame.old.slots frame.old.budget)
        state.new frame.new.budget }
{
    for alternative in alternatives {
        let holds = value_on(
            alloc,
            &alternative.cond,
            place.box_number,
            state,
            &frame.slots,
        )?;
        if truth(&holds) {
            return take(alloc, place, proc, alternative, state, frame);
        }
    }
    Ok(Reply::Rejected)
}

/// Runs an alternative that was chosen.
#[cycle(attempt)]
fn take(
    alloc: Global,
    place: &Place,
    proc: &Proc<Ref>,
    alternative: &Alternative<Ref>,
    state: &mut State,
    frame: &mut Frame,
) -> Result<Reply, Stop>
    ensures budget { frame.new.budget ≤ frame.old.budget }
    ensures after { Replies result
        (chosen place.now.program.now (attempt_of place.now.program.now place.now.depth) place.now.box_number
        proc.now alternative.now alternative.now.pre state.old frame.old.slots frame.old.budget)
        state.new frame.new.budget }
{
    match &alternative.pre {
        None => finish(alloc, place, proc, alternative, state, frame),
        Some(pre) => prepare(alloc, place, proc, alternative, pre, state, frame),
    }
}

/// Calls the preprocedure of an alternative, at no cost, and goes on where that accepts.
#[cycle(attempt)]
fn prepare(
    alloc: Global,
    place: &Place,
    proc: &Proc<Ref>,
    alternative: &Alternative<Ref>,
    pre: &Pre<Ref>,
    state: &mut State,
    frame: &mut Frame,
) -> Result<Reply, Stop>
    ensures budget { frame.new.budget ≤ frame.old.budget }
    ensures after { Replies result
        (pre_called place.now.program.now (attempt_of place.now.program.now place.now.depth)
        place.now.box_number
        proc.now alternative.now pre.now
        (arguments_of pre.now.call.args (vars_of state.old place.now.box_number) frame.old.slots)
        state.old frame.old.slots frame.old.budget)
        state.new frame.new.budget }
{
    let args = arguments(alloc, &pre.call.args, place.box_number, state, &frame.slots)?;
    let callee = Place {
        program: place.program,
        box_number: target(place.program, place.box_number, pre.call.target),
        depth: place.depth,
    };
    let number = method(pre.call.method);
    match attempt(alloc, &callee, number, args, state, &mut frame.budget)? {
        Reply::Accepted(found) => {
            bind(alloc, pre.bind, found, place.box_number, state, frame);
            finish(alloc, place, proc, alternative, state, frame)
        }
        Reply::Rejected => Ok(Reply::Rejected),
    }
}

/// Runs the body of an alternative. Where it is negative, it rejects with the effects of the body.
#[cycle(attempt)]
fn finish(
    alloc: Global,
    place: &Place,
    proc: &Proc<Ref>,
    alternative: &Alternative<Ref>,
    state: &mut State,
    frame: &mut Frame,
) -> Result<Reply, Stop>
    ensures budget { frame.new.budget ≤ frame.old.budget }
    ensures after { Replies result
        (body_of place.now.program.now (attempt_of place.now.program.now place.now.depth)
        place.now.box_number
        proc.now alternative.now state.old frame.old.slots frame.old.budget)
        state.new frame.new.budget }
{
    run_body(alloc, place, alternative.body.as_slice(), state, frame)?;
    if alternative.positive {
        Ok(Reply::Accepted(outcome_of(proc, &frame.slots)))
    } else {
        Ok(Reply::Rejected)
    }
}
