//! The ends of bodies that may be run.

ghost use Rattle.std.specs.Prelude.{◌≡◌, ◌++◌, [], List as Items, IfOk, OnOk, Some, None};
ghost use Rattle.std.specs.Prelude.{if◌then◌else◌, option_and_then};
ghost use Rattle.safety_check.specs.declared.frame.Frame.{Frame as TheFrame};
ghost use Rattle.safety_check.specs.Regions as regions;
ghost use Rattle.safety_check.specs.RegionValues as values;
ghost use Rattle.safety_check.specs.Ends as meant;

use crate::assigned::names_in;
use crate::frames::{copied, forgotten, joined, put};
use crate::regions::truth_of;
use crate::sides::region_in;
use crate::spans::all_numbers;
use safety_check::{Frame, Region};
use seuss_base::{List, Memory};
use seuss_program::{Alternative, Call, Expr, Form, Pre, Ref, Statement};
use std::alloc::Global;

/// A name, where there is one, that takes the result of a call may be any number.
fn taken(bind: Option<Ref>, frame: Frame) -> Frame
    ensures { result ≡ meant.taken bind frame }
{
    match bind {
        Some(name) => put(name, Region::Numbers(all_numbers()), frame),
        None => frame,
    }
}

/// Whether each of some arguments can have a value.
fn can_have(args: &[Expr<Ref>], frame: &Frame) -> Result<bool, Memory>
    ensures { IfOk result (λ can. meant.arguments_end args.now frame.now
        ≡ (if can then Some frame.now else None)) }
{
    for arg in args {
        let region = region_in(arg, frame)?;
        if region.is_none() {
            return Ok(false);
        }
    }
    Ok(true)
}

/// The end of a call that binds its result.
fn call_end(bind: Option<Ref>, call: &Call<Ref>, frame: Frame) -> Result<Option<Frame>, Memory>
    ensures { IfOk result (λ end. end ≡ meant.call_end bind call.now frame) }
{
    if can_have(call.args.as_slice(), &frame)? {
        Ok(Some(taken(bind, frame)))
    } else {
        Ok(None)
    }
}

/// A name takes the region of an expression.
fn put_end(name: Ref, value: &Expr<Ref>, frame: Frame) -> Result<Option<Frame>, Memory>
    ensures { IfOk result (λ end. end ≡ meant.put_end name value.now frame) }
{
    match region_in(value, &frame)? {
        Some(r) => Ok(Some(put(name, r, frame))),
        None => Ok(None),
    }
}

/// The ends of both branches.
fn either_end(
    alloc: Global,
    one: Option<Frame>,
    other: Option<Frame>,
) -> Result<Option<Frame>, Memory>
    ensures { IfOk result (λ end. end ≡ meant.either_end one other) }
{
    match (one, other) {
        (Some(one), Some(other)) => Ok(Some(joined(alloc, &one, &other)?)),
        (Some(one), None) => Ok(Some(one)),
        (None, other) => Ok(other),
    }
}

/// The end of the branch that a condition takes, or of both.
fn branch_end(
    alloc: Global,
    told: Option<bool>,
    holds: Option<Frame>,
    fails: Option<Frame>,
) -> Result<Option<Frame>, Memory>
    ensures { IfOk result (λ end. end ≡ meant.branch_end told holds fails) }
{
    match told {
        Some(true) => Ok(holds),
        Some(false) => Ok(fails),
        None => either_end(alloc, holds, fails),
    }
}

/// The end of a branch by its condition. Where this can't have a value, there is none.
fn if_end(
    alloc: Global,
    region: Option<Region>,
    holds: Option<Frame>,
    fails: Option<Frame>,
) -> Result<Option<Frame>, Memory>
    ensures { IfOk result (λ end. end
        ≡ option_and_then (λ r. meant.branch_end (regions.truth_of r) holds fails) region) }
{
    match region {
        Some(r) => branch_end(alloc, truth_of(r), holds, fails),
        None => Ok(None),
    }
}

/// The end of a body, where a run can come to it.
#[cycle(bodies)]
fn body_end(
    alloc: Global,
    statements: &[Statement<Ref>],
    frame: Frame,
) -> Result<Option<Frame>, Memory>
    ensures { IfOk result (λ end. end ≡ meant.body_end statements.now frame) }
{
    let mut frame = frame;
    for statement in statements {
        let end = statement_end(alloc, statement, frame)?;
        let Some(next) = end else {
            return Ok(None);
        };
        frame = next;
    }
    Ok(Some(frame))
}

/// The end of a loop: each name that it assigns may have any value.
fn while_end(alloc: Global, turn: &[Statement<Ref>], frame: Frame) -> Result<Option<Frame>, Memory>
    ensures { IfOk result (λ end. end ≡ Some (regions.forgotten (meant.names_in turn.now) frame)) }
{
    let names = names_in(alloc, turn)?;
    Ok(Some(forgotten(names.as_slice(), frame)))
}

/// The end of one statement, where a run can come to it.
#[cycle(bodies)]
fn statement_end(
    alloc: Global,
    statement: &Statement<Ref>,
    frame: Frame,
) -> Result<Option<Frame>, Memory>
    ensures { IfOk result (λ end. end ≡ (meant.way_of statement.now).path frame) }
{
    match statement {
        Statement::Let { name, value, .. } => put_end(*name, value, frame),
        Statement::Assign { name, value } => put_end(*name, value, frame),
        Statement::Call { bind, call } => call_end(*bind, call, frame),
        Statement::If { cond, yes, no } => {
            let region = region_in(cond, &frame)?;
            let holds = body_end(alloc, yes.as_slice(), copied(alloc, &frame)?)?;
            let fails = body_end(alloc, no.as_slice(), frame)?;
            if_end(alloc, region, holds, fails)
        }
        Statement::While { turn, .. } => while_end(alloc, turn.as_slice(), frame),
    }
}

/// The end of a preprocedure, where there is one.
fn pre_end(pre: &Option<Pre<Ref>>, frame: Frame) -> Result<Option<Frame>, Memory>
    ensures { IfOk result (λ end. end ≡ meant.pre_end pre.now frame) }
{
    match pre {
        Some(pre) => call_end(pre.bind, &pre.call, frame),
        None => Ok(Some(frame)),
    }
}

/// The end of the body of an alternative.
fn alternative_end(
    alloc: Global,
    a: &Alternative<Ref>,
    frame: Frame,
) -> Result<Option<Frame>, Memory>
    ensures { IfOk result (λ end. end ≡ meant.alternative_end a.now frame) }
{
    match pre_end(&a.pre, frame)? {
        Some(after) => body_end(alloc, a.body.as_slice(), after),
        None => Ok(None),
    }
}

/// Puts the end of an alternative, where there is one, at the end of ends.
fn push_own(
    alloc: Global,
    a: &Alternative<Ref>,
    frame: &Frame,
    ends: &mut List<Frame>,
) -> Result<(), Memory>
    ensures { OnOk result
        (ends.new ≡ ends.old ++ meant.where_one (meant.alternative_end a.now frame.now)) }
{
    match alternative_end(alloc, a, copied(alloc, frame)?)? {
        Some(end) => ends.push(end),
        None => Ok(()),
    }
}

/// Puts the end of an alternative that may be chosen at the end of ends, and answers whether a later one
/// may be chosen too.
fn push_chosen(
    alloc: Global,
    a: &Alternative<Ref>,
    told: Option<bool>,
    frame: &Frame,
    ends: &mut List<Frame>,
) -> Result<bool, Memory>
    ensures { (later : Items TheFrame) → IfOk result (λ more.
        ends.old ++ meant.chosen_ends told (meant.where_one (meant.alternative_end a.now frame.now)) later
        ≡ ends.new ++ (if more then later else [])) }
{
    match told {
        Some(false) => Ok(true),
        Some(true) => {
            push_own(alloc, a, frame, ends)?;
            Ok(false)
        }
        None => {
            push_own(alloc, a, frame, ends)?;
            Ok(true)
        }
    }
}

/// The same by the precondition. Where this can't have a value, no alternative is run.
fn push_alternative(
    alloc: Global,
    a: &Alternative<Ref>,
    frame: &Frame,
    ends: &mut List<Frame>,
) -> Result<bool, Memory>
    ensures { (later : Items TheFrame) → IfOk result (λ more.
        ends.old ++ meant.ends_by_condition (values.region_in a.now.cond frame.now)
        (meant.where_one (meant.alternative_end a.now frame.now)) later
        ≡ ends.new ++ (if more then later else [])) }
{
    match region_in(&a.cond, frame)? {
        Some(r) => push_chosen(alloc, a, truth_of(r), frame, ends),
        None => Ok(false),
    }
}

/// The ends of the alternatives that may be run.
fn alternatives_ends(
    alloc: Global,
    alts: &[Alternative<Ref>],
    frame: &Frame,
) -> Result<List<Frame>, Memory>
    ensures { IfOk result (λ ends. ends ≡ meant.alternatives_ends alts.now frame.now) }
{
    let mut ends = List::new(alloc);
    for a in alts {
        let more = push_alternative(alloc, a, frame, &mut ends)?;
        if !more {
            return Ok(ends);
        }
    }
    Ok(ends)
}

/// The end of a body that is run always, where a run can come to it.
fn single_end(alloc: Global, body: &[Statement<Ref>], frame: &Frame) -> Result<List<Frame>, Memory>
    ensures { IfOk result (λ ends. ends ≡ meant.where_one (meant.body_end body.now frame.now)) }
{
    let mut ends = List::new(alloc);
    if let Some(end) = body_end(alloc, body, copied(alloc, frame)?)? {
        ends.push(end)?;
    }
    Ok(ends)
}

/// The ends of the bodies of a procedure that may be run from a frame.
pub fn ends_of(alloc: Global, form: &Form<Ref>, frame: &Frame) -> Result<List<Frame>, Memory>
    ensures { IfOk result (λ ends. ends ≡ meant.ends_of form.now frame.now) }
{
    match form {
        Form::Total(body) => single_end(alloc, body.as_slice(), frame),
        Form::Partial(alts) => alternatives_ends(alloc, alts.as_slice(), frame),
        Form::Action(alts) => alternatives_ends(alloc, alts.as_slice(), frame),
    }
}
