//! A method step with the entry that records it.

ghost use Rattle.std.specs.Prelude.{◌≡◌, ℕ, ◌<◌, IfOk, OnOk, length, slice_set};
ghost use Rattle.seuss_program.specs.Programs.{vars_of};
ghost use Rattle.method_code.specs.Chains.{with_vars};
ghost use Rattle.loose_records.specs.Entries.{gives};
ghost use Rattle.turn_runs.specs.Hands.{entry_with};

use loose_records::BoxEntry;
use method_code::{Activation, Code, End, Frame, step};
use seuss_base::{List, Memory};
use seuss_program::{State, Vars};
use std::alloc::Global;

/// The number of a pass, of an entry in it, and the stamp of the entry.
#[derive(Clone, Copy)]
pub struct StepNumbers {
    pub pass: u64,
    pub number: u32,
    pub stamp: u64,
}

/// Makes a step, and the entry that records it beside its end.
fn record_step(
    alloc: Global,
    code: &Code,
    vars: &mut Vars,
    frame: &mut Frame,
    budget: &mut u64,
    numbers: StepNumbers,
) -> Result<(BoxEntry, End), Memory>
    ensures entry { IfOk result (λ r.
        r.0 ≡ entry_with numbers.pass numbers.number frame.old budget.old frame.new budget.new r.1
        numbers.stamp) }
    ensures gives { (box : ℕ) → IfOk result
        (λ r. gives code.now box r.0 vars.old.values vars.new.values) }
{
    let before = frame.copy(alloc)?;
    let budget_before = *budget;
    let end = step(alloc, code, vars, frame, budget)?;
    let entry = BoxEntry {
        pass: numbers.pass,
        number: numbers.number,
        before,
        budget_before,
        after: frame.copy(alloc)?,
        budget_after: *budget,
        end: end.copy(alloc)?,
        stamp: numbers.stamp,
    };
    Ok((entry, end))
}

/// Makes the next step of a pass on the variables of its box, and the entry that records it beside its end.
pub fn step_box(
    alloc: Global,
    code: &Code,
    state: &mut State,
    at: &mut Activation,
    left: &mut u64,
    numbers: StepNumbers,
) -> Result<(BoxEntry, End), Memory>
    requires { at.old.box_number < length state.old.boxes }
    ensures entry { IfOk result (λ r.
        r.0 ≡ entry_with numbers.pass numbers.number at.old.frame left.old at.new.frame left.new r.1
        numbers.stamp) }
    ensures at { OnOk result (at.new ≡ record at.old { frame = at.new.frame }) }
    ensures gives { IfOk result (λ r. gives code.now at.old.box_number r.0
        (vars_of state.old at.old.box_number) (vars_of state.new at.old.box_number)) }
    ensures state { OnOk result
        (state.new ≡ with_vars state.old at.old.box_number (vars_of state.new at.old.box_number)) }
{
    let of = at.box_of() as u64;
    let none = Vars {
        values: List::new(alloc),
    };
    let mut vars = state.boxes.replace(of, none);
    let made = record_step(alloc, code, &mut vars, at.frame(), left, numbers)?;
    state.boxes.set(of, vars);
    Ok(made)
}
