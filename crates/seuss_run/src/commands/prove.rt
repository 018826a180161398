//! The command `prove`: whether each of some properties is safe.

ghost use Rattle.std.specs.Prelude.{◌≡◌, ◌≤◌, ◌++◌, All, length, IfOk, OnOk};
ghost use Rattle.safety_check.specs.Properties.{IsProperty};
ghost use Rattle.safety_check.specs.declared.safety.Safety.{Safety as AnswerOf};
ghost use Rattle.seuss_program.specs.Keeping.{Keeps};
ghost use Rattle.seuss_run.specs.Loadings.{Performs};
ghost use Rattle.seuss_run.specs.PropertyReports.{IsJudged, IsPropertyReport, property_line};
ghost use Rattle.seuss_run.specs.Stages.{◌>=>◌, makes};
ghost use Rattle.seuss_run.specs.Verdicts.{is_claimed, Proving};
ghost use Rattle.seuss_run.specs.declared.reading.TheConstants.{MOST_BYTES};

use crate::answer::Answer;
use crate::claims::{Claims, load_claims};
use crate::halt::Halt;
use crate::property_lines::push_line;
use crate::words::Command;
use safety_check::laws::safe_properties_are_kept;
use safety_check::{Property, Safety};
use safety_judge::judge;
use seuss_base::{Memory, Text};
use seuss_program::Program;
use std::alloc::Global;

/// The answer to a property. What it calls safe holds throughout.
fn judged(alloc: Global, program: &Program, property: &Property) -> Result<Safety, Memory>
    requires keeps { Keeps program.now }
    requires property { IsProperty program.now property.now }
    ensures { IfOk result (IsJudged program.now property.now) }
{
    safe_properties_are_kept();
    judge(alloc, program, property)
}

/// Puts the line of a property with its answer at the end.
fn push_judged(
    alloc: Global,
    text: &mut Text,
    program: &Program,
    property: &Property,
) -> Result<(), Memory>
    requires keeps { Keeps program.now }
    requires property { IsProperty program.now property.now }
    ensures { OnOk result ((answer : AnswerOf) × IsJudged program.now property.now answer
        × (text.new ≡ text.old ++ property_line program.now property.now answer)) }
{
    let answer = judged(alloc, program, property)?;
    push_line(text, program, property, answer)
}

/// The lines of properties, each with its answer.
fn report(alloc: Global, program: &Program, properties: &[Property]) -> Result<Text, Memory>
    requires keeps { Keeps program.now }
    requires properties { All (IsProperty program.now) properties.now }
    ensures { IfOk result (IsPropertyReport (program.now, properties.now)) }
{
    let mut text = Text::new(alloc);
    for property in properties {
        push_judged(alloc, &mut text, program, property)?;
    }
    Ok(text)
}

/// Answers the properties of a program.
fn answer(alloc: Global, claims: &Claims) -> Result<Answer, Halt>
    requires keeps { Keeps claims.now.program }
    requires properties { All (IsProperty claims.now.program) claims.now.properties }
    ensures { Performs Command.Prove (makes Proving) (claims.now.program, claims.now.properties) result }
{
    Ok(Answer {
        status: 0,
        text: report(alloc, &claims.program, claims.properties.as_slice())?,
    })
}

/// What the command does with the bytes that were read.
pub(crate) fn perform(alloc: Global, bytes: &[u8]) -> Result<Answer, Halt>
    requires { length bytes.now ≤ MOST_BYTES }
    ensures { Performs Command.Prove (is_claimed >=> makes Proving) bytes.now result }
{
    let claims = load_claims(alloc, bytes)?;
    answer(alloc, &claims)
}
