//! The plain numbers of a program by which its passes begin and go on.

ghost use Rattle.std.specs.Prelude.{◌≡◌, slice_get, slice_index_or, IfOk};
ghost use Rattle.seuss_program.specs.declared.program.Program.{Program};
ghost use Rattle.seuss_program.specs.declared.tree.Ref.TheVariants.{Given as GivenRef};
ghost use Rattle.seuss_program.specs.Programs.{target_of};
ghost use Rattle.method_code.specs.Codes.{number_of as number_for};
ghost use Rattle.method_code.specs.Plans.{box_plan, plan_of, AreMadeFrom};

use crate::code::Code;
use crate::numbering::{add, procedures_in};
use seuss_base::{List, Memory};
use seuss_program::{ActionInfo, BoxInfo, Program};
use std::alloc::Global;

/// What passes need to know of a program beside its code. It is made once, holds plain numbers alone, so
/// that threads can share it, and each step goes on by it at a cost that no size of the program raises.
#[derive(Debug, Drop)]
pub struct Plan {
    boxes: List<BoxPlan>,
    actions: List<ActionInfo>,
}

/// A box: the number over all cats of the first procedure of its cat, how many procedures that cat has,
/// and the boxes that the box is given.
#[derive(Debug, Drop)]
pub struct BoxPlan {
    first: u32,
    many: u32,
    given: List<u32>,
}

/// Equal numbers of their own.
fn copy_numbers(alloc: Global, numbers: &[u32]) -> Result<List<u32>, Memory>
    ensures { IfOk result (λ copied. copied ≡ numbers.now) }
{
    let mut copied = List::new(alloc);
    for number in numbers {
        copied.push(*number)?;
    }
    Ok(copied)
}

/// Equal actions of their own.
fn copy_actions(alloc: Global, actions: &[ActionInfo]) -> Result<List<ActionInfo>, Memory>
    ensures { IfOk result (λ copied. copied ≡ actions.now) }
{
    let mut copied = List::new(alloc);
    for action in actions {
        copied.push(*action)?;
    }
    Ok(copied)
}

/// The plan of a box of a program.
fn plan_box(alloc: Global, program: &Program, info: &BoxInfo) -> Result<BoxPlan, Memory>
    ensures { IfOk result
        (λ found. found ≡ box_plan program.now info.now (slice_get program.now.cats info.now.cat)) }
{
    let given = copy_numbers(alloc, info.given.as_slice())?;
    let Some(cat) = program.cats.get(info.cat as u64) else {
        return Ok(BoxPlan {
            first: 0,
            many: 0,
            given,
        });
    };
    let cats = program.cats.as_slice();
    let first = procedures_in(&cats[..info.cat as usize])?;
    let many = add(0, cat.procs.len())?;
    Ok(BoxPlan { first, many, given })
}

impl Plan {
    /// The plan of a program. `Memory` comes too where a procedure has no number of 32 bits.
    pub fn of(alloc: Global, program: &Program) -> Result<Plan, Memory>
        ensures { IfOk result (λ plan. plan ≡ plan_of program.now) }
    {
        let mut boxes = List::new(alloc);
        for info in program.boxes.as_slice() {
            boxes.push(plan_box(alloc, program, info)?)?;
        }
        let actions = copy_actions(alloc, program.actions.as_slice())?;
        Ok(Plan { boxes, actions })
    }

    /// An action, by its number.
    pub(crate) fn action(&self, number: u32) -> ActionInfo
        ensures { result ≡ slice_index_or self.now.actions number (record { box_number = 0; procedure = 0 }) }
    {
        let none = ActionInfo {
            box_number: 0,
            procedure: 0,
        };
        self.actions.get(number as u64).copied().unwrap_or(none)
    }

    /// The number over all cats of a procedure of a box. What isn't there has a number past the last one.
    pub(crate) fn number_of(&self, code: &Code, box_number: u32, procedure: u32) -> u32
        ensures { (p : Program) → AreMadeFrom p code.now self.now →
            result ≡ number_for p box_number procedure }
    {
        let past = code.methods.len() as u32;
        let Some(found) = self.boxes.get(box_number as u64) else {
            return past;
        };
        if procedure >= found.many {
            return past;
        }
        found.first.saturating_add(procedure)
    }

    /// The box that the number of a given box stands for, as a box sees it.
    pub(crate) fn target(&self, box_number: u32, given: u32) -> u32
        ensures { (p : Program) → self.now ≡ plan_of p → result ≡ target_of p box_number (GivenRef given) }
    {
        let Some(found) = self.boxes.get(box_number as u64) else {
            return 0;
        };
        found.given.get(given as u64).copied().unwrap_or(0)
    }
}
