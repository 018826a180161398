//! What the bytes that were read are: a program and its properties, or why they are refused.

ghost use Rattle.std.specs.Prelude.{◌≤◌, length, All, IfOk};
ghost use Rattle.safety_check.specs.Properties.{IsProperty};
ghost use Rattle.seuss_program.specs.Keeping.{Keeps};
ghost use Rattle.seuss_run.specs.Loadings.{Meets};
ghost use Rattle.seuss_run.specs.PropertyLists.{has_properties};
ghost use Rattle.seuss_run.specs.Verdicts.{is_claimed, is_claimed_parts};
ghost use Rattle.seuss_run.specs.declared.reading.TheConstants.{MOST_BYTES};

use crate::halt::Halt;
use crate::loading::{held_certificates, text_program};
use crate::split::split;
use report_text::Refused;
use safety_check::Property;
use safety_texts::{PropertyRefusal, properties};
use seuss_base::List;
use seuss_program::Program;
use std::alloc::Global;

/// A program whose certificates hold, with some of its properties.
#[derive(Debug, Drop)]
pub(crate) struct Claims {
    pub program: Program,
    pub properties: List<Property>,
}

/// The properties that a text lists for a program.
fn text_properties(alloc: Global, program: &Program, text: &[u8]) -> Result<List<Property>, Halt>
    ensures meets { Meets has_properties (program.now, text.now) (λ found. (program.now, found)) result }
    ensures properties { IfOk result (All (IsProperty program.now)) }
{
    match properties(alloc, program, text) {
        Ok(found) => Ok(found),
        Err(PropertyRefusal::TooLong) => Err(Halt::Refused(Refused::Long)),
        Err(PropertyRefusal::Bad(line)) => Err(Halt::Refused(Refused::Property(line))),
        Err(PropertyRefusal::Memory) => Err(Halt::Memory),
    }
}

/// A program with its properties, out of the two parts of the bytes.
fn claims_of_parts(alloc: Global, text: &[u8], rest: &[u8]) -> Result<Claims, Halt>
    ensures meets { Meets is_claimed_parts (text.now, rest.now)
        (λ claims. (claims.program, claims.properties)) result }
    ensures keeps { IfOk result (λ claims. Keeps claims.program) }
    ensures properties { IfOk result (λ claims. All (IsProperty claims.program) claims.properties) }
{
    let program = text_program(alloc, text)?;
    let properties = text_properties(alloc, &program, rest)?;
    let _held = held_certificates(alloc, &program)?;
    Ok(Claims {
        program,
        properties,
    })
}

/// A program with its properties, out of the bytes that were read.
pub(crate) fn load_claims(alloc: Global, bytes: &[u8]) -> Result<Claims, Halt>
    requires { length bytes.now ≤ MOST_BYTES }
    ensures meets { Meets is_claimed bytes.now (λ claims. (claims.program, claims.properties)) result }
    ensures keeps { IfOk result (λ claims. Keeps claims.program) }
    ensures properties { IfOk result (λ claims. All (IsProperty claims.program) claims.properties) }
{
    let (text, rest) = split(bytes);
    claims_of_parts(alloc, text, rest)
}
