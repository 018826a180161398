//! The cats that properties speak of.
ghost use Rattle.std.specs.Prelude.{◌≡◌, ◌+◌, drop, IfOk};
ghost use Rattle.std.specs.List.{flat_map};
ghost use Rattle.box_types.specs.Scopes.{number_of};
ghost use Rattle.safety_texts.specs.Readings.{Refuses};
ghost use Rattle.safety_texts.specs.Verdicts.{declared_cat as declared_of, cat_number as number_of_cat};
ghost use Rattle.safety_texts.specs.Verdicts.{undeclared};

use crate::refusal::PropertyRefusal;
use crate::texts::PropertyText;
use seuss_base::Memory;
use seuss_program::{Cat, Name, Program, Ref};

/// How many cats are there in every program: `Input` and `Output`.
const BUILT_IN: usize = 2;

/// The cats behind the built-in ones.
fn behind_built_in(cats: &[Cat<Ref>]) -> &[Cat<Ref>]
    ensures { result.now ≡ drop 2 cats.now }
{
    if cats.len() < BUILT_IN {
        return &[];
    }
    &cats[BUILT_IN..]
}

/// The place of the first cat of a name, counted from 0.
fn place_of(cats: &[Cat<Ref>], name: &Name) -> Option<usize>
    ensures { result ≡ number_of (λ c. c.name) cats.now name.now }
{
    cats.iter().position(|cat| cat.name.is_same(name))
}

/// The number of a cat at a place behind the built-in ones.
fn number_behind(place: usize) -> Result<u32, Memory>
    ensures { IfOk result (λ number. number ≡ place + 2) }
{
    match u32::try_from(place as u64) {
        Ok(place) => place.checked_add(2).ok_or(Memory),
        Err(_) => Err(Memory),
    }
}

/// The number of a cat that the program's text declares. A number past 32 bits is want of memory.
fn declared_cat(program: &Program, name: &Name) -> Result<Option<u32>, Memory>
    ensures { IfOk result (λ number. number ≡ declared_of program.now name.now) }
{
    let place = match place_of(behind_built_in(program.cats.as_slice()), name) {
        Some(place) => place,
        None => return Ok(None),
    };
    Ok(Some(number_behind(place)?))
}

/// The number of a cat that the program's text declares, or 0 where it declares none of this name.
pub(crate) fn cat_number(program: &Program, name: &Name) -> Result<u32, Memory>
    ensures { IfOk result (λ number. number ≡ number_of_cat program.now name.now) }
{
    let found = declared_cat(program, name)?;
    Ok(found.unwrap_or(0))
}

/// Refuses the first property whose cat isn't declared, by the line of the cat's name.
pub(crate) fn find_undeclared(
    program: &Program,
    texts: &[PropertyText],
) -> Result<(), PropertyRefusal>
    ensures { Refuses result (flat_map (undeclared program.now) texts.now) }
{
    for text in texts {
        let found = declared_cat(program, &text.cat)?;
        if found.is_none() {
            return Err(PropertyRefusal::Bad(text.cat.line));
        }
    }
    Ok(())
}
