//! The names of actions, as they are printed.

ghost use Rattle.std.specs.Prelude.{◌≡◌, ◌++◌, slice_get, IfOk, OnOk, option_copied};
ghost use Rattle.seuss_program.specs.Programs.{procedure_of as proc_of};
ghost use Rattle.seuss_program.specs.Reports.{action_name, box_name, proc_name};

use seuss_base::{Memory, Text};
use seuss_program::{Proc, Program, Ref};
use std::alloc::Global;

/// A procedure of a box, by its number in the cat of the box.
fn procedure_of(program: &Program, box_number: u32, number: u32) -> Option<&Proc<Ref>>
    ensures { option_copied result ≡ proc_of program.now box_number number }
{
    let info = program.boxes.get(box_number as u64)?;
    let cat = program.cats.get(info.cat as u64)?;
    cat.procs.get(number as u64)
}

/// Puts the name of a box at the end.
fn push_box(text: &mut Text, program: &Program, box_number: u32) -> Result<(), Memory>
    ensures { OnOk result (text.new ≡ text.old ++ box_name (slice_get program.now.boxes box_number)) }
{
    if let Some(info) = program.boxes.get(box_number as u64) {
        text.push_all(info.name.text.as_bytes())?;
    }
    Ok(())
}

/// Puts the name of a procedure of a box at the end.
fn push_procedure(
    text: &mut Text,
    program: &Program,
    box_number: u32,
    number: u32,
) -> Result<(), Memory>
    ensures { OnOk result (text.new ≡ text.old ++ proc_name (proc_of program.now box_number number)) }
{
    if let Some(procedure) = procedure_of(program, box_number, number) {
        text.push_all(procedure.name.text.as_bytes())?;
    }
    Ok(())
}

/// Puts the names of an action's box and of the action at the end, with a point between.
pub fn push_action(text: &mut Text, program: &Program, action: u32) -> Result<(), Memory>
    ensures { OnOk result (text.new ≡ text.old
        ++ action_name program.now (slice_get program.now.actions action)) }
{
    let Some(info) = program.actions.get(action as u64) else {
        return Ok(());
    };
    push_box(text, program, info.box_number)?;
    text.push_all(b".")?;
    push_procedure(text, program, info.box_number, info.procedure)
}

/// An action as it is printed: the names of its box and of the action, with a point between. Want of
/// memory is the only error.
pub fn action_text(alloc: Global, program: &Program, action: u32) -> Result<Text, Memory>
    ensures { IfOk result (λ text. text ≡ action_name program.now (slice_get program.now.actions action)) }
{
    let mut text = Text::new(alloc);
    push_action(&mut text, program, action)?;
    Ok(text)
}
