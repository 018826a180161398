//! The lines of a report after its rounds.

ghost use Rattle.std.specs.Prelude.{◌≡◌, ◌++◌, slice_get, IfOk, OnOk};
ghost use Rattle.seuss_program.specs.Reports.{box_lines, last_line_text, state_lines, var_line, var_lines};
ghost use Rattle.seuss_program.specs.Reports.{vars_in};
ghost use Rattle.seuss_program.specs.Reports.{end_text as end_of};

use crate::names::push_action;
use crate::outcomes::push_trap;
use crate::values::push_value;
use seuss_base::{Memory, Text};
use seuss_program::{BoxInfo, LastLine, Program, State, Value, Var, Vars};
use std::alloc::Global;

/// Puts the line of a variable of a box at the end.
fn push_var(text: &mut Text, box_name: &[u8], var: &Var, value: &Value) -> Result<(), Memory>
    ensures { OnOk result (text.new ≡ text.old ++ var_line box_name.now var.now value.now) }
{
    text.push_all(box_name)?;
    text.push_all(b".")?;
    text.push_all(var.name.text.as_bytes())?;
    text.push_all(b" = ")?;
    push_value(text, value)?;
    text.push(b'\n')?;
    Ok(())
}

/// Puts the lines of the variables of a box at the end.
fn push_vars(text: &mut Text, box_name: &[u8], vars: &[Var], values: &[Value]) -> Result<(), Memory>
    ensures { OnOk result (text.new ≡ text.old ++ var_lines box_name.now vars.now values.now) }
{
    for (var, value) in vars.iter().zip(values) {
        push_var(text, box_name, var, value)?;
    }
    Ok(())
}

/// Puts the lines of a box at the end.
fn push_box(text: &mut Text, program: &Program, info: &BoxInfo, vars: &Vars) -> Result<(), Memory>
    ensures { OnOk result (text.new ≡ text.old
        ++ var_lines info.now.name.text (vars_in (slice_get program.now.cats info.now.cat))
        vars.now.values) }
{
    if let Some(cat) = program.cats.get(info.cat as u64) {
        let name = info.name.text.as_bytes();
        push_vars(text, name, cat.vars.as_slice(), vars.values.as_slice())?;
    }
    Ok(())
}

/// Puts the lines of all boxes at the end.
pub fn push_state(text: &mut Text, program: &Program, state: &State) -> Result<(), Memory>
    ensures { OnOk result (text.new ≡ text.old ++ state_lines program.now state.now) }
{
    for (info, vars) in program.boxes.as_slice().iter().zip(state.boxes.as_slice()) {
        push_box(text, program, info, vars)?;
    }
    Ok(())
}

/// Puts the last line of a report at the end.
pub fn push_last(text: &mut Text, program: &Program, last: &LastLine) -> Result<(), Memory>
    ensures { OnOk result (text.new ≡ text.old ++ last_line_text program.now last.now) }
{
    match *last {
        LastLine::Done => text.push_all(b"done")?,
        LastLine::Trapped(action, trap) => {
            text.push_all(b"trapped ")?;
            push_action(text, program, action)?;
            text.push_all(b" ")?;
            push_trap(text, trap)?;
        }
        LastLine::Spent(action) => {
            text.push_all(b"spent ")?;
            push_action(text, program, action)?;
        }
    }
    text.push(b'\n')?;
    Ok(())
}

/// The lines of a report after its rounds: the values of all variables in this state, and how the
/// run ended. Want of memory is the only error.
pub fn end_text(
    alloc: Global,
    program: &Program,
    last: &LastLine,
    state: &State,
) -> Result<Text, Memory>
    ensures { IfOk result (λ text. text ≡ end_of program.now last.now state.now) }
{
    let mut text = Text::new(alloc);
    push_state(&mut text, program, state)?;
    push_last(&mut text, program, last)?;
    Ok(text)
}
