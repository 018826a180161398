//! Method steps.

ghost use Rattle.std.specs.Prelude.{◌≡◌, ◌≤◌, ◌<◌, ℕ, pos, slice_index_or, All, []};
ghost use Rattle.seuss_program.specs.Values.{int_of};
ghost use Rattle.seuss_program.specs.declared.state.Value.TheVariants.{Int};
ghost use Rattle.seuss_program.specs.Bodies.{arguments as arguments_of};
ghost use Rattle.method_code.specs.Fits.{Fits, HasStarts};
ghost use Rattle.method_code.specs.Steps.{paid, runs, result_in, chosen_head, called_early, begun, chosen};
ghost use Rattle.method_code.specs.Steps.{entered, from_place, step as step_of};
ghost use Rattle.method_code.specs.Answers.{Steps};

use crate::acting::walk_on;
use crate::code::Code;
use crate::frame::{End, Frame};
use crate::instruction::{CallCode, Move};
use crate::method::{Entry, Head, Method};
use crate::values::{arguments, value_of};
use seuss_base::{List, Memory};
use seuss_program::{Value, Vars};
use std::alloc::Global;
use tight_order::{number, truth};

/// Leaves the procedure, and answers how.
fn leave(alloc: Global, frame: &mut Frame, end: End) -> End
    ensures after { frame.new ≡ record { method = frame.old.method; place = 0; slots = [] } }
    ensures end { result ≡ end }
{
    frame.place = 0;
    frame.slots = List::new(alloc);
    end
}

/// The number in a slot, or 0 where there is no such slot.
fn number_at(slots: &List<Value>, at: u64) -> i64
    ensures { result ≡ int_of (slice_index_or slots.now at (Int (pos 0))) }
{
    match slots.get(at) {
        Some(value) => number(value),
        None => 0,
    }
}

/// The result at a return, by the slots.
fn result_of(slot: Option<u64>, slots: &List<Value>) -> Option<i64>
    ensures { result ≡ result_in slot slots.now }
{
    match slot {
        Some(at) => Some(number_at(slots, at)),
        None => None,
    }
}

/// Waits for the call of a total method, which is paid for here.
fn pay_call(alloc: Global, halt: u64, call: End, frame: &mut Frame, budget: &mut u64) -> End
    requires { halt < 4000000000 }
    ensures { (vars : List Value) → Steps (Ok result)
        (paid frame.old.method budget.old halt vars frame.old.slots call) vars frame.new budget.new }
{
    if *budget == 0 {
        return leave(alloc, frame, End::Spent);
    }
    *budget -= 1;
    frame.place = (halt + 3) as u32;
    call
}

/// Runs a procedure from an instruction on, up to the end of the step.
fn run(
    alloc: Global,
    method: &Method,
    start: u64,
    vars: &mut List<Value>,
    frame: &mut Frame,
    budget: &mut u64,
) -> Result<End, Memory>
    requires { Fits method.now }
    ensures { Steps result (runs method.now frame.old.method budget.old start vars.old frame.old.slots)
        vars.new frame.new budget.new }
{
    let mut at = start;
    loop {
        let instructions = method.instructions.as_slice();
        let (halt, found) = walk_on(alloc, instructions, at, vars, &mut frame.slots)?;
        match found {
            Move::Back(many) => {
                if *budget == 0 {
                    return Ok(leave(alloc, frame, End::Spent));
                }
                *budget -= 1;
                at = halt.saturating_sub(many as u64);
            }
            Move::Call {
                target,
                method,
                args,
            } => {
                let call = End::Call {
                    target,
                    method,
                    args,
                    partial: false,
                };
                return Ok(pay_call(alloc, halt, call, frame, budget));
            }
            Move::Return => {
                let found = result_of(method.result, &frame.slots);
                return Ok(leave(alloc, frame, End::Returned(found)));
            }
            Move::Trap(trap) => return Ok(leave(alloc, frame, End::Trapped(trap))),
            Move::On(_) | Move::Reject => return Ok(leave(alloc, frame, End::Rejected)),
        }
    }
}

/// Calls the preprocedure of an alternative, at no cost.
fn call_early(
    alloc: Global,
    call: &CallCode,
    start: u32,
    vars: &List<Value>,
    frame: &mut Frame,
) -> Result<End, Memory>
    requires { start ≤ 4000000000 }
    ensures { (budget : ℕ) → Steps result
        (called_early frame.old.method start budget call.now
        (arguments_of call.now.args vars.now frame.old.slots) vars.now frame.old.slots)
        vars.now frame.new budget }
{
    match arguments(alloc, &call.args, vars, &frame.slots)? {
        Ok(args) => {
            frame.place = start + 2;
            Ok(End::Call {
                target: call.target,
                method: call.method,
                args,
                partial: true,
            })
        }
        Err(trap) => Ok(leave(alloc, frame, End::Trapped(trap))),
    }
}

/// Begins the alternative that was chosen: with its preprocedure, or with its body.
fn begin(
    alloc: Global,
    method: &Method,
    head: &Head,
    vars: &mut List<Value>,
    frame: &mut Frame,
    budget: &mut u64,
) -> Result<End, Memory>
    requires fits { Fits method.now }
    requires starts { head.now.start ≤ 4000000000 }
    ensures { Steps result
        (begun method.now frame.old.method budget.old head.now.start head.now.early vars.old
        frame.old.slots) vars.new frame.new budget.new }
{
    match &head.early {
        None => run(alloc, method, head.start as u64, vars, frame, budget),
        Some(call) => call_early(alloc, call, head.start, vars, frame),
    }
}

/// Takes the first alternative whose precondition holds. Where none holds, it rejects.
fn choose(
    alloc: Global,
    method: &Method,
    heads: &[Head],
    vars: &mut List<Value>,
    frame: &mut Frame,
    budget: &mut u64,
) -> Result<End, Memory>
    requires fits { Fits method.now }
    requires starts { All (λ h. h.start ≤ 4000000000) heads.now }
    ensures { Steps result
        (chosen method.now frame.old.method budget.old (chosen_head heads.now vars.old frame.old.slots)
        vars.old frame.old.slots) vars.new frame.new budget.new }
{
    for head in heads {
        match value_of(alloc, &head.cond, vars, &frame.slots)? {
            Ok(found) => {
                if truth(&found) {
                    return begin(alloc, method, head, vars, frame, budget);
                }
            }
            Err(trap) => return Ok(leave(alloc, frame, End::Trapped(trap))),
        }
    }
    Ok(leave(alloc, frame, End::RejectedPlain))
}

/// Makes one step of a procedure.
fn step_method(
    alloc: Global,
    method: &Method,
    vars: &mut List<Value>,
    frame: &mut Frame,
    budget: &mut u64,
) -> Result<End, Memory>
    requires { Fits method.now }
    ensures { Steps result
        (from_place method.now frame.old.method budget.old frame.old.place vars.old frame.old.slots)
        vars.new frame.new budget.new }
{
    if frame.place > 0 {
        let start = frame.place as u64 - 1;
        return run(alloc, method, start, vars, frame, budget);
    }
    match &method.entry {
        Entry::Total => run(alloc, method, 0, vars, frame, budget),
        Entry::Partial(heads) => choose(alloc, method, heads.as_slice(), vars, frame, budget),
    }
}

/// Makes one method step: runs the procedure of a frame from its place on, up to its next call, its
/// return, its rejection, a trap or the end of the budget, on the variables of its box. The budget
/// counts turns of loops and calls in bodies. After `Memory` the variables are in the midst of a step,
/// to be dropped.
pub fn step(
    alloc: Global,
    code: &Code,
    vars: &mut Vars,
    frame: &mut Frame,
    budget: &mut u64,
) -> Result<End, Memory>
    ensures { Steps result (step_of code.now frame.old budget.old vars.old.values) vars.new.values frame.new
        budget.new }
{
    match code.methods.get(frame.method as u64) {
        Some(method) => step_method(alloc, method, &mut vars.values, frame, budget),
        None => Ok(leave(alloc, frame, End::Rejected)),
    }
}
