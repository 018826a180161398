//! Attempts by method steps with nothing between them.

ghost use Rattle.std.specs.Prelude.{◌≡◌, ◌≤◌, ◌<◌, length, slice_get, slice_set, IfOk, OnOk};
ghost use Rattle.seuss_program.specs.Programs.{vars_of};
ghost use Rattle.seuss_program.specs.Attempts.{action_attempt};
ghost use Rattle.seuss_program.specs.Keeping.{Keeps};
ghost use Rattle.seuss_program.specs.declared.program.Program.{Program};
ghost use Rattle.method_code.specs.Codes.{compiled};
ghost use Rattle.method_code.specs.Plans.{MayAttempt};
ghost use Rattle.method_code.specs.Steps.{step as step_of};
ghost use Rattle.method_code.specs.Chains.{outcome_of};
ghost use Rattle.method_code.specs.Answers.{StepsOn};

use crate::activation::Activation;
use crate::code::Code;
use crate::frame::{End, Turn};
use crate::laws::chain_is_attempt;
use crate::plan::Plan;
use crate::stepping::step;
use seuss_base::{List, Memory, Outcome, PassEnd};
use seuss_program::{Program, State, Vars};
use std::alloc::Global;

/// The most steps that a pass has with a budget of at most 1,000,000.
const MOST_STEPS: u32 = 2_000_300;

/// Takes the variables of a box out of a state. A box that isn't there has none.
fn take_vars(alloc: Global, state: &mut State, box_number: u32) -> Vars
    ensures value { result.values ≡ vars_of state.old box_number }
    ensures back { (vars : Vars) → slice_set state.new.boxes box_number vars
        ≡ slice_set state.old.boxes box_number vars }
    ensures same { length state.new.boxes ≡ length state.old.boxes }
{
    let none = Vars {
        values: List::new(alloc),
    };
    let at = box_number as u64;
    if at < state.boxes.len() {
        state.boxes.replace(at, none)
    } else {
        none
    }
}

/// Puts the variables of a box back.
fn put_vars(state: &mut State, box_number: u32, vars: Vars)
    ensures { state.new.boxes ≡ slice_set state.old.boxes box_number vars }
{
    let at = box_number as u64;
    if at < state.boxes.len() {
        state.boxes.set(at, vars);
    }
}

/// Makes the next step of a pass, on the variables of its box.
fn step_on(
    alloc: Global,
    code: &Code,
    pass: &mut Activation,
    state: &mut State,
    budget: &mut u64,
) -> Result<End, Memory>
    ensures { StepsOn result pass.old state.old
        (step_of code.now pass.old.frame budget.old (vars_of state.old pass.old.box_number))
        pass.new state.new budget.new }
{
    let box_number = pass.box_of();
    let mut vars = take_vars(alloc, state, box_number);
    let end = step(alloc, code, &mut vars, pass.frame(), budget)?;
    put_vars(state, box_number, vars);
    Ok(end)
}

/// The outcome of a pass, as it is printed.
fn outcome(end: PassEnd) -> Outcome
    ensures { result ≡ outcome_of end }
{
    match end {
        PassEnd::Accepted => Outcome::Accepted,
        PassEnd::PlainRejected | PassEnd::Rejected => Outcome::Rejected,
        PassEnd::Trapped(trap) => Outcome::Trapped(trap),
        PassEnd::Spent => Outcome::Spent,
    }
}

/// Attempts an action by method steps, one after the other with nothing between them. The budget
/// counts turns of loops and calls in bodies. After `Memory` the state is one in the midst of an
/// attempt, to be dropped.
pub fn attempt_by_steps(
    alloc: Global,
    code: &Code,
    program: &Program,
    action: u32,
    state: &mut State,
    budget: u64,
) -> Result<Outcome, Memory>
    requires compiled { code.now ≡ compiled program.now }
    requires keeps { Keeps program.now }
    requires within { action < length program.now.actions }
    requires small { budget ≤ 1000000 }
    ensures outcome { IfOk result (λ outcome.
        outcome ≡ (action_attempt program.now (slice_get program.now.actions action) state.old
        budget).outcome) }
    ensures state { OnOk result
        (state.new ≡ (action_attempt program.now (slice_get program.now.actions action) state.old
        budget).state) }
{
    let plan = Plan::of(alloc, program)?;
    attempt_by_plan(alloc, code, &plan, action, state, budget)
}

/// Attempts an action by method steps, by the plan of a program.
pub fn attempt_by_plan(
    alloc: Global,
    code: &Code,
    plan: &Plan,
    action: u32,
    state: &mut State,
    budget: u64,
) -> Result<Outcome, Memory>
    ensures outcome { (p : Program) → MayAttempt p code.now plan.now action budget → IfOk result (λ outcome.
        outcome ≡ (action_attempt p (slice_get p.actions action) state.old budget).outcome) }
    ensures state { (p : Program) → MayAttempt p code.now plan.now action budget → OnOk result
        (state.new ≡ (action_attempt p (slice_get p.actions action) state.old budget).state) }
{
    chain_is_attempt();
    let mut pass = Activation::begin_by(alloc, code, plan, action)?;
    let mut left = budget;
    for made in 0..MOST_STEPS {
        let end = step_on(alloc, code, &mut pass, state, &mut left)?;
        if let Turn::Over(end) = pass.resume_by(alloc, code, plan, end)? {
            return Ok(outcome(end));
        }
    }
    Err(Memory)
}
