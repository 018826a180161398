//! Whether a property is true of start values.

ghost use Rattle.std.specs.Prelude.{◌≡◌, map, true, IfOk};
ghost use Rattle.seuss_program.specs.Initials as initials;
ghost use Rattle.safety_check.specs.Safety as meant;
ghost use Rattle.safety_judge.specs.Findings as found;

use crate::next_number::next_number;
use safety_check::Property;
use seuss_base::{List, Memory};
use seuss_program::{BoxInfo, Cat, Program, Ref, Value, Var};
use std::alloc::Global;
use tight_order::{Stop, evaluate};

/// The start values of variables.
fn values_of(alloc: Global, vars: &[Var]) -> Result<List<Value>, Memory>
    ensures { IfOk result (λ values. values ≡ map (λ v. v.start) vars.now) }
{
    let mut values = List::new(alloc);
    for var in vars {
        values.push(var.start.copy(alloc)?)?;
    }
    Ok(values)
}

/// The start values of a box.
fn starts_of(alloc: Global, cats: &List<Cat<Ref>>, info: &BoxInfo) -> Result<List<Value>, Memory>
    ensures { IfOk result (λ values. values ≡ (initials.starts_of cats.now info.now).values) }
{
    match cats.get(u64::from(info.cat)) {
        Some(cat) => values_of(alloc, cat.vars.as_slice()),
        None => Ok(List::new(alloc)),
    }
}

/// Whether a value is true.
fn is_true(value: Value) -> bool
    ensures { found.Decides result (value ≡ Value.Bool true) }
{
    match value {
        Value::Bool(b) => b,
        Value::Int(_) | Value::Seq(_) => false,
    }
}

/// Whether the property is true of the start values of a box.
fn starts_true(
    alloc: Global,
    program: &Program,
    property: &Property,
    info: &BoxInfo,
) -> Result<bool, Memory>
    ensures { IfOk result (λ holds. found.Decides holds
        (meant.StartsTrue program.now property.now info.now)) }
{
    let values = starts_of(alloc, &program.cats, info)?;
    match evaluate(alloc, &property.expr, values.as_slice(), &[]) {
        Ok(value) => Ok(is_true(value)),
        Err(Stop::Trapped(_)) => Ok(false),
        Err(Stop::Spent) => Ok(false),
        Err(Stop::Memory) => Err(Memory),
    }
}

/// Whether a box is of the cat of the property, and this isn't true of its start values.
fn starts_without(
    alloc: Global,
    program: &Program,
    property: &Property,
    info: &BoxInfo,
) -> Result<bool, Memory>
    ensures { IfOk result (λ without. found.IsWithout program.now property.now info.now without) }
{
    if info.cat != property.cat {
        return Ok(false);
    }
    let holds = starts_true(alloc, program, property, info)?;
    Ok(!holds)
}

/// The first box of the cat of whose start values the property isn't true.
pub(crate) fn first_without(
    alloc: Global,
    program: &Program,
    property: &Property,
) -> Result<Option<u32>, Memory>
    ensures { IfOk result (λ first. found.IsFirstWithout program.now property.now first) }
{
    let mut number = 0u32;
    for info in program.boxes.as_slice() {
        let without = starts_without(alloc, program, property, info)?;
        if without {
            return Ok(Some(number));
        }
        number = next_number(number)?;
    }
    Ok(None)
}
