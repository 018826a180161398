//! What a single method comes to in a case, from its entry to its end.

ghost use Rattle.std.specs.Prelude.{◌≡◌, pos, slice_index_or, IfOk};
ghost use Rattle.shape_terms.specs.Numbers.{literal};
ghost use Rattle.shape_terms.specs.declared.symbol.Symbol.TheVariants.{Number};
ghost use Rattle.commute_certs.specs.Terms.{number_in as number_by};
ghost use Rattle.commute_certs.specs.Foreseen.{first_symbol as first_by, first_slots as slots_by};
ghost use Rattle.commute_certs.specs.Foreseen.{result_form as result_by, finished, body_ends, chosen};
ghost use Rattle.commute_certs.specs.Foreseen.{choice};
ghost use Rattle.commute_certs.specs.Foreseen.{performed, foreseen};
ghost use Rattle.commute_certs.specs.Bodies.{body};
ghost use Rattle.commute_certs.specs.Answers.{Tells};

use crate::body::{condition, run_body};
use crate::foreseen::{Ending, Foreseen};
use crate::parts::number_in;
use crate::places::Places;
use crate::why::{Reason, Untold};
use seuss_base::{List, Memory};
use seuss_program::{Alternative, Form, Proc, Ref, Statement, Value};
use shape_terms::{NumForm, SeqForm, Symbol};
use std::alloc::Global;

/// What a slot that isn't a parameter starts with.
fn first_symbol(alloc: Global, value: &Value) -> Result<Symbol, Memory>
    ensures { IfOk result (λ symbol. symbol ≡ first_by value.now) }
{
    match value {
        Value::Int(_) => Ok(Symbol::Number(NumForm::literal(alloc, 0)?)),
        Value::Bool(_) => Ok(Symbol::Truth(false)),
        Value::Seq(_) => Ok(Symbol::Sequence(SeqForm::exact(List::new(alloc)))),
    }
}

/// Equal symbols of their own.
pub fn copy_symbols(alloc: Global, symbols: &[Symbol]) -> Result<List<Symbol>, Memory>
    ensures { IfOk result (λ copied. copied ≡ symbols.now) }
{
    let mut copied = List::new(alloc);
    for symbol in symbols {
        copied.push(symbol.copy(alloc)?)?;
    }
    Ok(copied)
}

/// The slots at the entry of a procedure.
fn first_slots(alloc: Global, proc: &Proc<Ref>, args: &[Symbol]) -> Result<List<Symbol>, Memory>
    ensures { IfOk result (λ slots. slots ≡ slots_by proc.now args.now) }
{
    let mut slots = copy_symbols(alloc, args)?;
    let values = tight_order::first_slots(alloc, proc)?;
    for value in values.as_slice() {
        slots.push(first_symbol(alloc, value)?)?;
    }
    Ok(slots)
}

/// The number in a slot, or 0 where there is no such slot.
fn form_at(alloc: Global, slots: &List<Symbol>, at: u64) -> Result<NumForm, Memory>
    ensures { IfOk result
        (λ form. form ≡ number_by (slice_index_or slots.now at (Number (literal (pos 0))))) }
{
    match slots.get(at) {
        Some(symbol) => number_in(alloc, symbol.copy(alloc)?),
        None => NumForm::literal(alloc, 0),
    }
}

/// The result of an accepted call.
fn result_form(
    alloc: Global,
    proc: &Proc<Ref>,
    slots: &List<Symbol>,
) -> Result<Option<NumForm>, Memory>
    ensures { IfOk result (λ found. found ≡ result_by proc.now slots.now) }
{
    if !proc.gives {
        return Ok(None);
    }
    Ok(Some(form_at(alloc, slots, proc.params.len())?))
}

/// A body is done: the call accepts, or after `~>` it rejects with the effects of the body.
fn finish(
    alloc: Global,
    positive: bool,
    proc: &Proc<Ref>,
    places: Places,
) -> Result<Foreseen, Memory>
    ensures { IfOk result (λ found. found ≡ finished positive proc.now places) }
{
    if !positive {
        return Ok(Foreseen {
            ending: Ending::Rejected,
            vars: places.vars,
        });
    }
    let found = result_form(alloc, proc, &places.slots)?;
    Ok(Foreseen {
        ending: Ending::Accepted(found),
        vars: places.vars,
    })
}

/// A body of a procedure, to its end.
fn end_body(
    alloc: Global,
    positive: bool,
    proc: &Proc<Ref>,
    statements: &[Statement<Ref>],
    places: Places,
) -> Result<Foreseen, Untold>
    ensures { Tells result (body_ends proc.now positive (body statements.now places)) }
{
    let left = run_body(alloc, statements, places)?;
    Ok(finish(alloc, positive, proc, left)?)
}

/// The alternative that is chosen.
fn take(
    alloc: Global,
    proc: &Proc<Ref>,
    alternative: &Alternative<Ref>,
    places: Places,
) -> Result<Foreseen, Untold>
    ensures { Tells result (chosen proc.now alternative.now alternative.now.pre places) }
{
    match &alternative.pre {
        Some(_) => Err(Untold::Reason(Reason::MayTrap)),
        None => end_body(
            alloc,
            alternative.positive,
            proc,
            alternative.body.as_slice(),
            places,
        ),
    }
}

/// Takes the first alternative whose precondition holds.
fn choose(
    alloc: Global,
    proc: &Proc<Ref>,
    alternatives: &[Alternative<Ref>],
    places: Places,
) -> Result<Foreseen, Untold>
    ensures { Tells result (choice proc.now alternatives.now places) }
{
    for alternative in alternatives {
        if condition(alloc, &alternative.cond, &places)? {
            return take(alloc, proc, alternative, places);
        }
    }
    Ok(Foreseen {
        ending: Ending::RejectedPlainly,
        vars: places.vars,
    })
}

/// How a single method ends in a case, by its arguments and the variables.
pub fn foresee(
    alloc: Global,
    proc: &Proc<Ref>,
    args: &[Symbol],
    vars: &[Symbol],
) -> Result<Foreseen, Untold>
    ensures { Tells result (foreseen proc.now args.now vars.now) }
{
    let places = Places {
        vars: copy_symbols(alloc, vars)?,
        slots: first_slots(alloc, proc, args)?,
    };
    match &proc.form {
        Form::Total(statements) => end_body(alloc, true, proc, statements.as_slice(), places),
        Form::Partial(alternatives) => choose(alloc, proc, alternatives.as_slice(), places),
        Form::Action(alternatives) => choose(alloc, proc, alternatives.as_slice(), places),
    }
}
