//! Attempts of actions.

ghost use Rattle.std.specs.Prelude.{◌≡◌, slice_get, IfOk, OnOk};
ghost use Rattle.seuss_program.specs.Attempts.{action_attempt};

use crate::attempt::attempt;
use crate::frame::{Place, Reply};
use crate::stop::Stop;
use crate::store::level;
use seuss_base::{List, Memory, Outcome};
use seuss_program::{Program, State};
use std::alloc::Global;

/// An attempt of an action with this budget. Where there is no such action, it rejects.
pub fn attempt_action(
    alloc: Global,
    program: &Program,
    action: u32,
    state: &mut State,
    budget: u64,
) -> Result<Outcome, Memory>
    ensures outcome { IfOk result (λ outcome.
        outcome ≡ (action_attempt program.now (slice_get program.now.actions action) state.old
        budget).outcome) }
    ensures state { OnOk result
        (state.new ≡ (action_attempt program.now (slice_get program.now.actions action) state.old
        budget).state) }
{
    let Some(info) = program.actions.get(action as u64) else {
        return Ok(Outcome::Rejected);
    };
    let place = Place {
        program,
        box_number: info.box_number,
        depth: level(program, info.box_number) as u64 + 1,
    };
    let mut left = budget;
    match attempt(
        alloc,
        &place,
        info.procedure,
        List::new(alloc),
        state,
        &mut left,
    ) {
        Ok(Reply::Accepted(_)) => Ok(Outcome::Accepted),
        Ok(Reply::Rejected) => Ok(Outcome::Rejected),
        Err(Stop::Trapped(trap)) => Ok(Outcome::Trapped(trap)),
        Err(Stop::Spent) => Ok(Outcome::Spent),
        Err(Stop::Memory) => Err(Memory),
    }
}
