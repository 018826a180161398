//! The plain interpreter: attempts one after the other, as the notation means them.
#![tactic(auto)]

ghost use Rattle.std.specs.Prelude.{◌≡◌, IfOk, OnOk};
ghost use Rattle.seuss_program.specs.Attempts.{tight as tight_run};

mod action;
mod arithmetic;
mod attempt;
mod body;
mod entry;
mod frame;
mod pay;
mod sequences;
mod stop;
mod store;
mod value;

use crate::action::attempt_action;
pub use entry::first_slots;
use seuss_base::{List, Memory};
use seuss_program::{Outcomes, Program, State};
use std::alloc::Global;
pub use stop::Stop;
pub use value::{evaluate, number, truth};

/// Attempts actions one after the other, each with the whole budget, and answers their outcomes. The
/// budget counts turns of loops and calls in bodies. After `Memory` the state is one in the midst of an
/// attempt, to be dropped.
pub fn tight(
    alloc: Global,
    program: &Program,
    state: &mut State,
    order: &[u32],
    budget: u64,
) -> Result<Outcomes, Memory>
    ensures outcomes { IfOk result
        (λ o. o.list ≡ (tight_run program.now order.now state.old budget).outcomes) }
    ensures state { OnOk result (state.new ≡ (tight_run program.now order.now state.old budget).state) }
{
    let mut list = List::new(alloc);
    for action in order {
        list.push(attempt_action(alloc, program, *action, state, budget)?)?;
    }
    Ok(Outcomes { list })
}
