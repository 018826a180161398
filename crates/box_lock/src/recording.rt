//! A method step with the entry that records it.

ghost use Rattle.std.specs.Prelude.{◌≡◌, ℕ, IfOk};
ghost use Rattle.loose_records.specs.Entries.{gives};
ghost use Rattle.box_lock.specs.Cells.{entry_with};

use loose_records::BoxEntry;
use method_code::{Code, End, Frame, step};
use seuss_base::Memory;
use seuss_program::Vars;
use std::alloc::Global;

/// The number of a pass, of an entry in it, and the stamp of the entry.
#[derive(Clone, Copy)]
pub struct StepNumbers {
    pub pass: u64,
    pub number: u32,
    pub stamp: u64,
}

/// Makes a step, and the entry that records it beside its end.
pub fn record_step(
    alloc: Global,
    code: &Code,
    vars: &mut Vars,
    frame: &mut Frame,
    budget: &mut u64,
    numbers: StepNumbers,
) -> Result<(BoxEntry, End), Memory>
    ensures entry { IfOk result (λ r.
        r.0 ≡ entry_with numbers.pass numbers.number frame.old budget.old frame.new budget.new r.1
        numbers.stamp) }
    ensures gives { (box : ℕ) → IfOk result
        (λ r. gives code.now box r.0 vars.old.values vars.new.values) }
{
    let before = frame.copy(alloc)?;
    let budget_before = *budget;
    let end = step(alloc, code, vars, frame, budget)?;
    let entry = BoxEntry {
        pass: numbers.pass,
        number: numbers.number,
        before,
        budget_before,
        after: frame.copy(alloc)?,
        budget_after: *budget,
        end: end.copy(alloc)?,
        stamp: numbers.stamp,
    };
    Ok((entry, end))
}
