//! The properties that a text has for a program.
ghost use Rattle.std.specs.Prelude.{◌≡◌, map, All, IfOk};
ghost use Rattle.std.specs.List.{flat_map};
ghost use Rattle.safety_check.specs.Properties.{IsProperty};
ghost use Rattle.safety_texts.specs.Readings.{Refuses, HasKind, IsSpelled, AreRead};
ghost use Rattle.safety_texts.specs.Verdicts.{IsVerdict, unresolved, property_of};

use crate::cats::{cat_number, find_undeclared};
use crate::lists::read_list;
use crate::refusal::PropertyRefusal;
use crate::shapes::find_misshapen;
use crate::texts::PropertyText;
use box_types::{CheckRefusal, resolve_expr};
use safety_check::Property;
use seuss_base::List;
use seuss_program::Program;
use seuss_text::{TextRefusal, Tokens, tokens};
use std::alloc::Global;

/// A property with its names as numbers.
fn resolve_one(
    alloc: Global,
    program: &Program,
    text: PropertyText,
) -> Result<Property, PropertyRefusal>
    ensures refuses { Refuses result (unresolved program.now text) }
    ensures made { IfOk result (λ property. property ≡ property_of program.now text) }
    ensures kind { IfOk result (HasKind program.now) }
{
    let cat = cat_number(program, &text.cat)?;
    match resolve_expr(alloc, program, cat, text.expr) {
        Ok(expr) => Ok(Property { cat, expr }),
        Err(CheckRefusal::Unknown(line)) => Err(PropertyRefusal::Bad(line)),
        Err(CheckRefusal::WrongType(line)) => Err(PropertyRefusal::Bad(line)),
        Err(CheckRefusal::Memory) => Err(PropertyRefusal::Memory),
        Err(CheckRefusal::Twice(_) | CheckRefusal::WrongKind(_)) => Err(PropertyRefusal::Memory),
        Err(CheckRefusal::Arguments(_) | CheckRefusal::Count(_)) => Err(PropertyRefusal::Memory),
    }
}

/// Properties with their names as numbers.
fn resolve_all(
    alloc: Global,
    program: &Program,
    texts: List<PropertyText>,
) -> Result<List<Property>, PropertyRefusal>
    ensures refuses { Refuses result (flat_map (unresolved program.now) texts) }
    ensures made { IfOk result (λ made. made ≡ map (property_of program.now) texts) }
    ensures kinds { IfOk result (All (HasKind program.now)) }
{
    let mut made = List::new(alloc);
    for text in texts.into_vec() {
        made.push(resolve_one(alloc, program, text)?)?;
    }
    Ok(made)
}

/// The tokens of a text that isn't too long.
fn text_tokens(alloc: Global, text: &[u8]) -> Result<Tokens, PropertyRefusal>
    ensures { IsSpelled text.now result }
{
    match tokens(alloc, text) {
        Ok(found) => Ok(found),
        Err(TextRefusal::TooLong) => Err(PropertyRefusal::TooLong),
        Err(TextRefusal::BadByte(line)) => Err(PropertyRefusal::Bad(line)),
        Err(TextRefusal::Range(line)) => Err(PropertyRefusal::Bad(line)),
        Err(TextRefusal::Memory) => Err(PropertyRefusal::Memory),
    }
}

/// The properties that a list of texts is for a program.
fn checked(
    alloc: Global,
    program: &Program,
    texts: List<PropertyText>,
) -> Result<List<Property>, PropertyRefusal>
    ensures read { AreRead program.now texts result }
    ensures properties { IfOk result (All (IsProperty program.now)) }
{
    find_undeclared(program, texts.as_slice())?;
    let properties = resolve_all(alloc, program, texts)?;
    find_misshapen(properties.as_slice())?;
    Ok(properties)
}

/// The properties that a text lists for a program, each as `cat NAME : expr`. `TooLong` comes above
/// 1,048,576 bytes alone, and is tested first. `Bad` has the line of the first of these faults that is
/// there, tried in this order: what is no token or past its limits; a token with which no list goes on, or
/// that passes the limit of marks, or the last one, where the text ends within a property; a cat that the
/// program's text
/// doesn't declare; a name that is no variable of the cat, or a wrong type, in the first property that has
/// one; an expression of another form than properties have, on its first token.
pub fn properties(
    alloc: Global,
    program: &Program,
    text: &[u8],
) -> Result<List<Property>, PropertyRefusal>
    ensures verdict { IsVerdict program.now text.now result }
    ensures properties { IfOk result (All (IsProperty program.now)) }
{
    let tokens = text_tokens(alloc, text)?;
    let texts = read_list(alloc, text, &tokens)?;
    checked(alloc, program, texts)
}
