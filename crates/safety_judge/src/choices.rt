//! The regions of each name in the cases of a procedure.

ghost use Rattle.std.specs.Prelude.{◌≡◌, ◌++◌, ◌∷◌, [], map, IfOk, OnOk};
ghost use Rattle.seuss_program.specs.declared.tree.Kind.TheVariants as K;
ghost use Rattle.safety_check.specs.Cases as meant;
ghost use Rattle.safety_check.specs.Regions as regions;
ghost use Rattle.safety_check.specs.Spans as spans;
ghost use Rattle.safety_check.specs.Texts as texts;
ghost use Rattle.safety_judge.specs.Rows as rows;

use crate::names::{is_among, is_name};
use crate::next_number::next_number;
use crate::spans::{all_lengths, all_numbers, cut_each, single};
use safety_check::{Cut, Region, Seen, Span};
use seuss_base::{List, Memory};
use seuss_program::{Cat, Kind, Param, Proc, Ref, Value, Var};
use std::alloc::Global;
use tight_order::first_slots;

/// The regions of each variable of a box and of each slot of a procedure.
#[derive(Debug, Drop)]
pub(crate) struct Choices {
    pub(crate) vars: List<List<Region>>,
    pub(crate) slots: List<List<Region>>,
}

/// What the cuts of a name leave of spans, after one more of some cuts.
fn cut_once(alloc: Global, name: Ref, cut: Cut, parts: List<Span>) -> Result<List<Span>, Memory>
    ensures { IfOk result (λ after. after ≡ spans.cut_up (texts.cuts_at name (cut ∷ [])) parts) }
{
    if is_name(name, cut.name) {
        cut_each(alloc, cut.number, parts.as_slice())
    } else {
        Ok(parts)
    }
}

/// What the cuts of a name leave of a span.
fn cut_up(alloc: Global, name: Ref, cuts: &[Cut], whole: Span) -> Result<List<Span>, Memory>
    ensures { IfOk result (λ parts. parts ≡ spans.cut_up (texts.cuts_at name cuts.now) (whole ∷ [])) }
{
    let mut parts = List::new(alloc);
    parts.push(whole)?;
    for cut in cuts {
        parts = cut_once(alloc, name, *cut, parts)?;
    }
    Ok(parts)
}

/// Ints of each of some spans.
fn numbers_of(alloc: Global, parts: &[Span]) -> Result<List<Region>, Memory>
    ensures { IfOk result (λ choices. choices ≡ map Region.Numbers parts.now) }
{
    let mut choices = List::new(alloc);
    for part in parts {
        choices.push(Region::Numbers(*part))?;
    }
    Ok(choices)
}

/// Sequences of lengths of each of some spans.
fn lengths_of(alloc: Global, parts: &[Span]) -> Result<List<Region>, Memory>
    ensures { IfOk result (λ choices. choices ≡ map Region.Lengths parts.now) }
{
    let mut choices = List::new(alloc);
    for part in parts {
        choices.push(Region::Lengths(*part))?;
    }
    Ok(choices)
}

/// The regions of a bool: true and false where it counts.
fn truths(alloc: Global, counts: bool) -> Result<List<Region>, Memory>
    ensures { IfOk result (λ choices. choices ≡ meant.kind_choices K.Bool counts []) }
{
    let mut choices = List::new(alloc);
    if !counts {
        choices.push(Region::Truth(None))?;
        return Ok(choices);
    }
    choices.push(Region::Truth(Some(true)))?;
    choices.push(Region::Truth(Some(false)))?;
    Ok(choices)
}

/// The regions of a name of a kind.
fn kind_choices(
    alloc: Global,
    kind: Kind,
    counts: bool,
    name: Ref,
    cuts: &[Cut],
) -> Result<List<Region>, Memory>
    ensures { IfOk result (λ choices. choices
        ≡ meant.kind_choices kind counts (texts.cuts_at name cuts.now)) }
{
    match kind {
        Kind::Int => {
            let parts = cut_up(alloc, name, cuts, all_numbers())?;
            numbers_of(alloc, parts.as_slice())
        }
        Kind::Bool => truths(alloc, counts),
        Kind::Seq => {
            let parts = cut_up(alloc, name, cuts, all_lengths())?;
            lengths_of(alloc, parts.as_slice())
        }
    }
}

/// The regions of each variable.
fn vars_choices(alloc: Global, vars: &[Var], seen: &Seen) -> Result<List<List<Region>>, Memory>
    ensures { IfOk result (λ choices. choices ≡ meant.vars_choices seen.now 0 vars.now) }
{
    let mut choices = List::new(alloc);
    let mut number = 0u32;
    for var in vars {
        let name = Ref::Var(number);
        let counts = is_among(name, seen.names.as_slice());
        choices.push(kind_choices(alloc, var.kind, counts, name, seen.cuts.as_slice())?)?;
        number = next_number(number)?;
    }
    Ok(choices)
}

/// The regions of each parameter.
fn params_choices(
    alloc: Global,
    params: &[Param],
    seen: &Seen,
) -> Result<List<List<Region>>, Memory>
    ensures { IfOk result (λ choices. choices ≡ meant.params_choices seen.now 0 params.now) }
{
    let mut choices = List::new(alloc);
    let mut number = 0u32;
    for param in params {
        let name = Ref::Slot(number);
        choices.push(kind_choices(alloc, param.kind, true, name, seen.cuts.as_slice())?)?;
        number = next_number(number)?;
    }
    Ok(choices)
}

/// The region of one value.
fn exactly(value: &Value) -> Region
    ensures { result ≡ regions.exactly value.now }
{
    match value {
        Value::Int(z) => Region::Numbers(single(*z as i128)),
        Value::Bool(b) => Region::Truth(Some(*b)),
        Value::Seq(zs) => Region::Lengths(single(zs.len() as i128)),
    }
}

/// What stands in a slot at the entry, and nothing else.
fn one_choice(alloc: Global, value: &Value) -> Result<List<Region>, Memory>
    ensures { IfOk result (λ choices. choices ≡ meant.one_choice value.now) }
{
    let mut choices = List::new(alloc);
    choices.push(exactly(value))?;
    Ok(choices)
}

/// Puts what stands in each slot at the entry at the end of choices.
fn add_values(
    alloc: Global,
    values: &[Value],
    choices: &mut List<List<Region>>,
) -> Result<(), Memory>
    ensures { OnOk result (choices.new ≡ choices.old ++ map meant.one_choice values.now) }
{
    for value in values {
        choices.push(one_choice(alloc, value)?)?;
    }
    Ok(())
}

/// The regions of each slot.
fn slots_choices(alloc: Global, q: &Proc<Ref>, seen: &Seen) -> Result<List<List<Region>>, Memory>
    ensures { IfOk result (λ choices. choices ≡ meant.slots_choices seen.now q.now) }
{
    let mut choices = params_choices(alloc, q.params.as_slice(), seen)?;
    let values = first_slots(alloc, q)?;
    add_values(alloc, values.as_slice(), &mut choices)?;
    Ok(choices)
}

/// The regions of all names of a procedure.
pub(crate) fn choices_of(
    alloc: Global,
    cat: &Cat<Ref>,
    q: &Proc<Ref>,
    seen: &Seen,
) -> Result<Choices, Memory>
    ensures { IfOk result (λ choices. choices ≡ rows.choices_of cat.now q.now seen.now) }
{
    let vars = vars_choices(alloc, cat.vars.as_slice(), seen)?;
    let slots = slots_choices(alloc, q, seen)?;
    Ok(Choices { vars, slots })
}
