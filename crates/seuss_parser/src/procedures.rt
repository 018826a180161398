//! Alternatives and procedures.

ghost use Rattle.std.specs.Prelude.{◌≡◌};
ghost use Rattle.seuss_parser.specs.declared.symbol.Symbol.TheVariants as S;
ghost use Rattle.seuss_parser.specs.Fronts.{begins_with, begins_procedure};
ghost use Rattle.seuss_parser.specs.Readings.{optional};
ghost use Rattle.seuss_parser.specs.StatementReading.{read_plain_pre, read_bound_pre, read_pre};
ghost use Rattle.seuss_parser.specs.StatementReading.{read_alternative, read_alternatives};
ghost use Rattle.seuss_parser.specs.DeclarationReading.{read_param, read_result, read_total, read_partial};
ghost use Rattle.seuss_parser.specs.DeclarationReading.{read_action, read_procedure};
ghost use Rattle.seuss_parser.specs.Cursor.{Reads, Takes, Keeps};

use crate::Symbol;
use crate::expressions::whole_expression;
use crate::lists::{Item, Phrase, arguments, items_behind};
use crate::statements::{body, call, call_of};
use crate::stop::Stop;
use crate::words::Words;
use seuss_base::List;
use seuss_program::{Alternative, Form, Name, Param, Pre, Proc};
use std::alloc::Global;

/// A call of the box of this name, at the beginning of an alternative.
#[tactic(auto, unfolding(crate::specs::StatementReading::read_plain_pre))]
fn plain_pre(alloc: Global, target: Name, words: &mut Words) -> Result<Pre<Name>, Stop>
    ensures gives { Reads result words.old words.new (read_plain_pre target) }
    ensures takes { Takes result words.old words.new }
{
    let call = call_of(alloc, target, words)?;
    Ok(Pre { bind: None, call })
}

/// `:=` and a call, whose result is bound to this name.
#[tactic(auto, unfolding(crate::specs::StatementReading::read_bound_pre))]
fn bound_pre(alloc: Global, name: Name, words: &mut Words) -> Result<Pre<Name>, Stop>
    ensures gives { Reads result words.old words.new (read_bound_pre name) }
    ensures takes { Takes result words.old words.new }
{
    words.take(Symbol::Assign)?;
    let call = call(alloc, words)?;
    Ok(Pre {
        bind: Some(name),
        call,
    })
}

/// The call that an alternative begins with, behind its semicolon.
#[tactic(auto, unfolding(crate::specs::StatementReading::read_pre))]
fn pre(alloc: Global, words: &mut Words) -> Result<Pre<Name>, Stop>
    ensures gives { Reads result words.old words.new read_pre }
    ensures takes { Takes result words.old words.new }
{
    words.take(Symbol::Semicolon)?;
    let name = words.name()?;
    if words.is_at(Symbol::Dot) {
        plain_pre(alloc, name, words)
    } else {
        bound_pre(alloc, name, words)
    }
}

/// The call that an alternative begins with, or none.
fn perhaps_pre(alloc: Global, words: &mut Words) -> Result<Option<Pre<Name>>, Stop>
    ensures gives { Reads result words.old words.new (optional (begins_with S.Semicolon) read_pre) }
    ensures keeps { Keeps result words.old words.new }
{
    if words.is_at(Symbol::Semicolon) {
        let found = pre(alloc, words)?;
        Ok(Some(found))
    } else {
        Ok(None)
    }
}

/// An alternative.
#[tactic(auto, unfolding(crate::specs::StatementReading::read_alternative))]
fn alternative(alloc: Global, words: &mut Words) -> Result<Alternative<Name>, Stop>
    ensures gives { Reads result words.old words.new read_alternative }
    ensures takes { Takes result words.old words.new }
{
    let line = words.take(Symbol::When)?;
    let cond = whole_expression(alloc, words)?;
    let pre = perhaps_pre(alloc, words)?;
    let positive = words.arrow()?;
    let body = body(alloc, words)?;
    Ok(Alternative {
        line,
        cond,
        pre,
        positive: positive.is,
        body,
    })
}

impl Phrase for Alternative<Name> {
    ghost reading = { read_alternative };

    fn read(alloc: Global, words: &mut Words) -> Result<Alternative<Name>, Stop> {
        alternative(alloc, words)
    }
}

impl Item for Alternative<Name> {
    ghost starts = { begins_with S.When };

    fn is_next(words: &Words) -> bool {
        words.is_at(Symbol::When)
    }
}

/// One alternative or more.
#[tactic(auto, unfolding(crate::specs::StatementReading::read_alternatives))]
fn alternatives(alloc: Global, words: &mut Words) -> Result<List<Alternative<Name>>, Stop>
    ensures gives { Reads result words.old words.new read_alternatives }
    ensures takes { Takes result words.old words.new }
{
    let first = alternative(alloc, words)?;
    items_behind(alloc, first, words)
}

/// A parameter.
#[tactic(auto, unfolding(crate::specs::DeclarationReading::read_param))]
fn param(words: &mut Words) -> Result<Param, Stop>
    ensures gives { Reads result words.old words.new read_param }
    ensures takes { Takes result words.old words.new }
{
    let name = words.name()?;
    words.take(Symbol::Colon)?;
    let kind = words.small_kind()?;
    Ok(Param {
        name,
        kind: kind.is,
    })
}

impl Phrase for Param {
    ghost reading = { read_param };

    fn read(_alloc: Global, words: &mut Words) -> Result<Param, Stop> {
        param(words)
    }
}

/// The type of a result, behind its colon.
#[tactic(auto, unfolding(crate::specs::DeclarationReading::read_result))]
fn result_kind(words: &mut Words) -> Result<u32, Stop>
    ensures gives { Reads result words.old words.new read_result }
    ensures takes { Takes result words.old words.new }
{
    words.take(Symbol::Colon)?;
    words.take(Symbol::Int)
}

/// The type of a result, or nothing.
fn perhaps_result(words: &mut Words) -> Result<Option<u32>, Stop>
    ensures gives { Reads result words.old words.new (optional (begins_with S.Colon) read_result) }
    ensures keeps { Keeps result words.old words.new }
{
    if words.is_at(Symbol::Colon) {
        let line = result_kind(words)?;
        Ok(Some(line))
    } else {
        Ok(None)
    }
}

/// A method that never rejects.
#[tactic(auto, unfolding(crate::specs::DeclarationReading::read_total))]
fn total(alloc: Global, words: &mut Words) -> Result<Proc<Name>, Stop>
    ensures gives { Reads result words.old words.new read_total }
    ensures takes { Takes result words.old words.new }
{
    words.take(Symbol::Total)?;
    let name = words.name()?;
    let params = arguments(alloc, words)?;
    let gives = perhaps_result(words)?;
    words.take(Symbol::Is)?;
    let body = body(alloc, words)?;
    words.take(Symbol::End)?;
    Ok(Proc {
        name,
        params,
        gives: gives.is_some(),
        form: Form::Total(body),
    })
}

/// A method that may reject.
#[tactic(auto, unfolding(crate::specs::DeclarationReading::read_partial))]
fn partial(alloc: Global, words: &mut Words) -> Result<Proc<Name>, Stop>
    ensures gives { Reads result words.old words.new read_partial }
    ensures takes { Takes result words.old words.new }
{
    words.take(Symbol::Partial)?;
    let name = words.name()?;
    let params = arguments(alloc, words)?;
    let gives = perhaps_result(words)?;
    let alternatives = alternatives(alloc, words)?;
    words.take(Symbol::End)?;
    Ok(Proc {
        name,
        params,
        gives: gives.is_some(),
        form: Form::Partial(alternatives),
    })
}

/// An action.
#[tactic(auto, unfolding(crate::specs::DeclarationReading::read_action))]
fn action(alloc: Global, words: &mut Words) -> Result<Proc<Name>, Stop>
    ensures gives { Reads result words.old words.new read_action }
    ensures takes { Takes result words.old words.new }
{
    words.take(Symbol::Action)?;
    let name = words.name()?;
    let alternatives = alternatives(alloc, words)?;
    words.take(Symbol::End)?;
    Ok(Proc {
        name,
        params: List::new(alloc),
        gives: false,
        form: Form::Action(alternatives),
    })
}

/// A procedure.
#[tactic(auto, unfolding(crate::specs::DeclarationReading::read_procedure))]
fn procedure(alloc: Global, words: &mut Words) -> Result<Proc<Name>, Stop>
    ensures gives { Reads result words.old words.new read_procedure }
    ensures takes { Takes result words.old words.new }
{
    if words.is_at(Symbol::Total) {
        total(alloc, words)
    } else if words.is_at(Symbol::Partial) {
        partial(alloc, words)
    } else {
        action(alloc, words)
    }
}

impl Phrase for Proc<Name> {
    ghost reading = { read_procedure };

    fn read(alloc: Global, words: &mut Words) -> Result<Proc<Name>, Stop> {
        procedure(alloc, words)
    }
}

impl Item for Proc<Name> {
    ghost starts = { begins_procedure };

    fn is_next(words: &Words) -> bool {
        words.is_at_procedure()
    }
}
