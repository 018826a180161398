//! What is printed of properties, a line for each.

ghost use Rattle.std.specs.Prelude.{◌≡◌, ◌++◌, slice_get, OnOk, option_copied};
ghost use Rattle.seuss_program.specs.Reports.{box_name};
ghost use Rattle.seuss_run.specs.PropertyReports.{answer_text, cat_name, name_in, property_line};

use safety_check::{Property, Safety};
use seuss_base::{Memory, Text};
use seuss_program::{Cat, Program, Ref};

/// Puts the name of a box at the end.
fn push_box(text: &mut Text, program: &Program, number: u32) -> Result<(), Memory>
    ensures { OnOk result (text.new ≡ text.old ++ box_name (slice_get program.now.boxes number)) }
{
    if let Some(info) = program.boxes.get(u64::from(number)) {
        text.push_all(info.name.text.as_bytes())?;
    }
    Ok(())
}

/// Puts the name of a procedure of a cat at the end.
fn push_procedure(text: &mut Text, cat: Option<&Cat<Ref>>, number: u32) -> Result<(), Memory>
    ensures { OnOk result (text.new ≡ text.old ++ name_in (option_copied cat.entry) number) }
{
    let Some(cat) = cat else {
        return Ok(());
    };
    if let Some(procedure) = cat.procs.get(u64::from(number)) {
        text.push_all(procedure.name.text.as_bytes())?;
    }
    Ok(())
}

/// Puts the name of a cat at the end.
fn push_cat(text: &mut Text, cat: Option<&Cat<Ref>>) -> Result<(), Memory>
    ensures { OnOk result (text.new ≡ text.old ++ cat_name (option_copied cat.entry)) }
{
    if let Some(cat) = cat {
        text.push_all(cat.name.text.as_bytes())?;
    }
    Ok(())
}

/// Puts at the end what is said of a property of a cat.
fn push_answer(
    text: &mut Text,
    program: &Program,
    cat: Option<&Cat<Ref>>,
    answer: Safety,
) -> Result<(), Memory>
    ensures { OnOk result (text.new ≡ text.old ++ answer_text program.now (option_copied cat.entry) answer) }
{
    match answer {
        Safety::Safe => text.push_all(b" safe"),
        Safety::Start(number) => {
            text.push_all(b" start ")?;
            push_box(text, program, number)
        }
        Safety::Open(number) => {
            text.push_all(b" open ")?;
            push_procedure(text, cat, number)
        }
        Safety::Many(number) => {
            text.push_all(b" many ")?;
            push_procedure(text, cat, number)
        }
    }
}

/// Puts the line of a property with its answer at the end.
pub(crate) fn push_line(
    text: &mut Text,
    program: &Program,
    property: &Property,
    answer: Safety,
) -> Result<(), Memory>
    ensures { OnOk result (text.new ≡ text.old ++ property_line program.now property.now answer) }
{
    let cat = program.cats.get(u64::from(property.cat));
    push_cat(text, cat)?;
    push_answer(text, program, cat, answer)?;
    text.push(b'\n')?;
    Ok(())
}
