//! The decision, case by case.

ghost use Rattle.std.specs.Prelude.{◌≡◌, true, length, IfOk};
ghost use Rattle.seuss_program.specs.Keeping.{Keeps};
ghost use Rattle.safety_check.specs.Properties.{IsKept, IsProperty};
ghost use Rattle.safety_check.specs.Safety as meant;
ghost use Rattle.safety_judge.specs.Findings as found;

use crate::assigned::form_names;
use crate::bad::Bad;
use crate::choices::{Choices, choices_of};
use crate::ends::ends_of;
use crate::names::is_any_among;
use crate::next_number::next_number;
use crate::regions::truth_of;
use crate::rows::{count, frame_at};
use crate::seen::{expr_names, seen_by};
use crate::sides::region_in;
use crate::starts::first_without;
use safety_check::{Frame, Property, Region, Safety, laws};
use seuss_base::{List, Memory};
use seuss_program::{Cat, Proc, Program, Ref};
use std::alloc::Global;

/// Whether a property may hold, by its region.
fn may_hold(region: Option<Region>) -> bool
    ensures { result ≡ meant.may_hold region }
{
    match region {
        Some(r) => truth_of(r) != Some(false),
        None => false,
    }
}

/// Whether a property does hold, by its region.
fn does_hold(region: Option<Region>) -> bool
    ensures { result ≡ meant.does_hold region }
{
    match region {
        Some(r) => truth_of(r) == Some(true),
        None => false,
    }
}

/// Whether the property isn't true at one of some ends.
fn some_without(property: &Property, ends: &[Frame]) -> Result<bool, Memory>
    ensures { IfOk result (λ some. some ≡ found.some_without property.now ends.now) }
{
    for end in ends {
        let region = region_in(&property.expr, end)?;
        if !does_hold(region) {
            return Ok(true);
        }
    }
    Ok(false)
}

/// Whether the property isn't false in a frame, and a body that may be run leads from there to an end at
/// which it isn't true.
fn leads_out(
    alloc: Global,
    property: &Property,
    q: &Proc<Ref>,
    frame: &Frame,
) -> Result<bool, Memory>
    ensures { IfOk result (λ leads. leads ≡ found.leads_out property.now q.now frame.now) }
{
    let region = region_in(&property.expr, frame)?;
    if !may_hold(region) {
        return Ok(false);
    }
    let ends = ends_of(alloc, &q.form, frame)?;
    some_without(property, ends.as_slice())
}

/// Whether one of the first cases leads out of the property. One case is in memory at a time.
fn has_way_out(
    alloc: Global,
    property: &Property,
    q: &Proc<Ref>,
    choices: &Choices,
    most: u64,
) -> Result<bool, Memory>
    ensures { IfOk result (λ has. found.Decides has
        (found.HasWayOut property.now q.now choices.now most)) }
{
    for number in 0..most {
        let frame = frame_at(alloc, choices, number)?;
        let leads = leads_out(alloc, property, q, &frame)?;
        if leads {
            return Ok(true);
        }
    }
    Ok(false)
}

/// Whether a procedure assigns a variable of the property.
fn assigns(alloc: Global, q: &Proc<Ref>, property: &Property) -> Result<bool, Memory>
    ensures { IfOk result (λ does. does ≡ meant.assigns q.now property.now) }
{
    let assigned = form_names(alloc, &q.form)?;
    let names = expr_names(alloc, &property.expr)?;
    Ok(is_any_among(assigned.as_slice(), names.as_slice()))
}

/// What is found by the cases of a procedure.
fn bad_by(
    alloc: Global,
    property: &Property,
    q: &Proc<Ref>,
    choices: &Choices,
) -> Result<Option<Bad>, Memory>
    ensures { IfOk result (λ bad. found.IsFoundBy property.now q.now choices.now bad) }
{
    let cases = count(choices);
    if cases > 4_096 {
        return Ok(Some(Bad::Many));
    }
    let open = has_way_out(alloc, property, q, choices, cases)?;
    if open {
        return Ok(Some(Bad::Open));
    }
    Ok(None)
}

/// Whether a procedure that assigns a variable of the property is bad.
fn bad_of(
    alloc: Global,
    cat: &Cat<Ref>,
    q: &Proc<Ref>,
    property: &Property,
) -> Result<Option<Bad>, Memory>
    requires { meant.assigns q.now property.now ≡ true }
    ensures { IfOk result (λ bad. found.IsFound cat.now q.now property.now bad) }
{
    let seen = seen_by(alloc, property, q)?;
    let choices = choices_of(alloc, cat, q, &seen)?;
    bad_by(alloc, property, q, &choices)
}

/// Whether a procedure is bad.
fn find(
    alloc: Global,
    cat: &Cat<Ref>,
    q: &Proc<Ref>,
    property: &Property,
) -> Result<Option<Bad>, Memory>
    ensures { IfOk result (λ bad. found.IsFound cat.now q.now property.now bad) }
{
    let does = assigns(alloc, q, property)?;
    if !does {
        return Ok(None);
    }
    bad_of(alloc, cat, q, property)
}

/// The answer by a bad procedure of a number.
fn answer_of(bad: Bad, number: u32) -> Safety
    ensures { result ≡ found.answer_of bad number }
{
    match bad {
        Bad::Open => Safety::Open(number),
        Bad::Many => Safety::Many(number),
    }
}

/// The answer by the procedures of a cat.
fn first_bad(alloc: Global, cat: &Cat<Ref>, property: &Property) -> Result<Safety, Memory>
    ensures { IfOk result (λ answer. found.IsFoundIn cat.now property.now answer) }
{
    let mut number = 0u32;
    for q in cat.procs.as_slice() {
        let found = find(alloc, cat, q, property)?;
        match found {
            Some(bad) => return Ok(answer_of(bad, number)),
            None => number = next_number(number)?,
        }
    }
    Ok(Safety::Safe)
}

/// The answer where the property is true of all start values.
fn by_cat(alloc: Global, program: &Program, property: &Property) -> Result<Safety, Memory>
    requires { meant.StartsBelow program.now property.now (length program.now.boxes) }
    ensures { IfOk result (λ answer. meant.IsAnswer program.now property.now answer) }
{
    match program.cats.get(property.cat as u64) {
        Some(cat) => first_bad(alloc, cat, property),
        None => Ok(Safety::Safe),
    }
}

/// The exact answer.
fn answer(alloc: Global, program: &Program, property: &Property) -> Result<Safety, Memory>
    ensures { IfOk result (λ answer. meant.IsAnswer program.now property.now answer) }
{
    match first_without(alloc, program, property)? {
        Some(number) => Ok(Safety::Start(number)),
        None => by_cat(alloc, program, property),
    }
}

/// Decides whether every attempt keeps a property: the first box of whose start values it isn't true, else
/// the first bad procedure of its cat, with too many cases or without, else that it is safe. It looks at no
/// more than 4,096 cases of a procedure, and keeps one of them in memory at a time.
pub fn judge(alloc: Global, program: &Program, property: &Property) -> Result<Safety, Memory>
    ensures answer { IfOk result (λ answer. meant.IsAnswer program.now property.now answer) }
    ensures kept { Keeps program.now → IsProperty program.now property.now → result ≡ Ok Safety.Safe →
        IsKept program.now property.now }
{
    laws::safe_properties_are_kept();
    answer(alloc, program, property)
}
