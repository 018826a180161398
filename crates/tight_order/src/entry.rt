//! The slots at the entry of a procedure.

ghost use Rattle.std.specs.Prelude.{◌≡◌, [], ◌++◌, pos, slice_index_or, IfOk, OnOk};
ghost use Rattle.seuss_program.specs.Values.{int_of};
ghost use Rattle.seuss_program.specs.declared.state.Value.TheVariants.{Int};
ghost use Rattle.std.specs.List.{flat_map};
ghost use Rattle.seuss_program.specs.Attempts.{first_value as first_of, locals_of, bound_local, form_locals};
ghost use Rattle.seuss_program.specs.Attempts.{entry_slots, result_of};

use crate::value::number;
use seuss_base::{Ints, List, Memory};
use seuss_program::{Alternative, Form, Kind, Pre, Proc, Ref, Statement, Value};
use std::alloc::Global;

/// What a new local starts with.
fn first_value(alloc: Global, kind: Kind) -> Value
    ensures { result ≡ first_of kind }
{
    match kind {
        Kind::Int => Value::Int(0),
        Kind::Bool => Value::Bool(false),
        Kind::Seq => Value::Seq(Ints::new(alloc)),
    }
}

/// Adds the locals that statements declare, in the order of the text.
#[cycle(locals)]
fn add_locals(
    alloc: Global,
    statements: &[Statement<Ref>],
    slots: &mut List<Value>,
) -> Result<(), Memory>
    ensures { OnOk result (slots.new ≡ slots.old ++ flat_map locals_of statements.now) }
{
    for statement in statements {
        add_local(alloc, statement, slots)?;
    }
    Ok(())
}

/// Adds the locals that one statement declares.
#[cycle(locals)]
fn add_local(
    alloc: Global,
    statement: &Statement<Ref>,
    slots: &mut List<Value>,
) -> Result<(), Memory>
    ensures { OnOk result (slots.new ≡ slots.old ++ locals_of statement.now) }
{
    match statement {
        Statement::Let { kind, .. } => slots.push(first_value(alloc, *kind)),
        Statement::Assign { .. } => Ok(()),
        Statement::Call { .. } => Ok(()),
        Statement::If { yes, no, .. } => {
            add_locals(alloc, yes.as_slice(), slots)?;
            add_locals(alloc, no.as_slice(), slots)
        }
        Statement::While { turn, .. } => add_locals(alloc, turn.as_slice(), slots),
    }
}

/// Adds the locals of alternatives: the bound name of each one, then those of its body.
fn add_bound(
    alternatives: &[Alternative<Ref>],
    alloc: Global,
    slots: &mut List<Value>,
) -> Result<(), Memory>
    ensures { OnOk result
        (slots.new ≡ slots.old ++ flat_map (λ a. bound_local a.pre ++ flat_map locals_of a.body)
        alternatives.now) }
{
    for alternative in alternatives {
        add_name(&alternative.pre, slots)?;
        add_locals(alloc, alternative.body.as_slice(), slots)?;
    }
    Ok(())
}

/// Adds the local that a preprocedure's result is bound to.
fn add_name(pre: &Option<Pre<Ref>>, slots: &mut List<Value>) -> Result<(), Memory>
    ensures { OnOk result (slots.new ≡ slots.old ++ bound_local pre.now) }
{
    let Some(pre) = pre else {
        return Ok(());
    };
    if pre.bind.is_some() {
        slots.push(Value::Int(0))?;
    }
    Ok(())
}

/// The slots at the entry of a procedure: the arguments, the result where there is one, and the
/// locals.
pub fn entry(alloc: Global, proc: &Proc<Ref>, args: List<Value>) -> Result<List<Value>, Memory>
    ensures { IfOk result (λ slots. slots ≡ entry_slots proc.now args) }
{
    let mut slots = args;
    if proc.gives {
        slots.push(Value::Int(0))?;
    }
    match &proc.form {
        Form::Total(statements) => add_locals(alloc, statements.as_slice(), &mut slots)?,
        Form::Partial(alternatives) => add_bound(alternatives.as_slice(), alloc, &mut slots)?,
        Form::Action(alternatives) => add_bound(alternatives.as_slice(), alloc, &mut slots)?,
    }
    Ok(slots)
}

/// The slots at the entry of a procedure without arguments: the result where there is one, and the
/// locals.
pub fn first_slots(alloc: Global, proc: &Proc<Ref>) -> Result<List<Value>, Memory>
    ensures { IfOk result (λ slots. slots ≡ entry_slots proc.now []) }
{
    entry(alloc, proc, List::new(alloc))
}

/// The number in a slot, or 0 where there is no such slot.
fn number_at(slots: &List<Value>, at: u64) -> i64
    ensures { result ≡ int_of (slice_index_or slots.now at (Int (pos 0))) }
{
    match slots.get(at) {
        Some(value) => number(value),
        None => 0,
    }
}

/// The result of an accepted call, by the slots at its end.
pub fn outcome_of(proc: &Proc<Ref>, slots: &List<Value>) -> Option<i64>
    ensures { result ≡ result_of proc.now slots.now }
{
    if !proc.gives {
        return None;
    }
    Some(number_at(slots, proc.params.len()))
}
