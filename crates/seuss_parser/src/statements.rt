//! Statements, bodies and calls, read by the first words of each.

ghost use Rattle.std.specs.Prelude.{◌≡◌, ◌<◌, ◌==◌};
ghost use Rattle.seuss_parser.specs.declared.symbol.Symbol.TheVariants as S;
ghost use Rattle.seuss_parser.specs.ExpressionReading.{read_whole_expression};
ghost use Rattle.seuss_parser.specs.StatementReading.{read_call_of, read_call, read_let, read_plain_call};
ghost use Rattle.seuss_parser.specs.StatementReading.{read_bound_call, read_assigned, read_binding};
ghost use Rattle.seuss_parser.specs.StatementReading.{read_named, read_else, read_if, read_while};
ghost use Rattle.seuss_parser.specs.StatementReading.{read_any_statement, read_body};
ghost use Rattle.seuss_parser.specs.Blocks.{read_block, read_perhaps_else};
ghost use Rattle.seuss_parser.specs.Cursor.{Reads, Takes, Keeps};

use crate::Symbol;
use crate::expressions::whole_expression;
use crate::lists::{Phrase, arguments};
use crate::stop::Stop;
use crate::words::Words;
use seuss_base::List;
use seuss_program::{Call, Expr, Name, Statement};
use std::alloc::Global;

/// An `if` or `while` stands in 64 others at most, so a body ends before this depth.
const MOST_BLOCKS: u32 = 65;

/// An argument of a call.
impl Phrase for Expr<Name> {
    ghost reading = { read_whole_expression };

    fn read(alloc: Global, words: &mut Words) -> Result<Expr<Name>, Stop> {
        whole_expression(alloc, words)
    }
}

/// A call of the box of this name.
#[tactic(auto, unfolding(crate::specs::StatementReading::read_call_of))]
pub(crate) fn call_of(alloc: Global, target: Name, words: &mut Words) -> Result<Call<Name>, Stop>
    ensures gives { Reads result words.old words.new (read_call_of target) }
    ensures takes { Takes result words.old words.new }
{
    words.take(Symbol::Dot)?;
    let method = words.name()?;
    let args = arguments(alloc, words)?;
    Ok(Call {
        target,
        method,
        args,
    })
}

/// A call.
#[tactic(auto, unfolding(crate::specs::StatementReading::read_call))]
pub(crate) fn call(alloc: Global, words: &mut Words) -> Result<Call<Name>, Stop>
    ensures gives { Reads result words.old words.new read_call }
    ensures takes { Takes result words.old words.new }
{
    let target = words.name()?;
    call_of(alloc, target, words)
}

/// A declaration of a local.
#[tactic(auto, unfolding(crate::specs::StatementReading::read_let))]
fn local(alloc: Global, words: &mut Words) -> Result<Statement<Name>, Stop>
    ensures gives { Reads result words.old words.new read_let }
    ensures takes { Takes result words.old words.new }
{
    words.take(Symbol::Let)?;
    let name = words.name()?;
    words.take(Symbol::Colon)?;
    let kind = words.small_kind()?;
    words.take(Symbol::Assign)?;
    let value = whole_expression(alloc, words)?;
    Ok(Statement::Let {
        name,
        kind: kind.is,
        value,
    })
}

/// A call of the box of this name, as a statement.
#[tactic(auto, unfolding(crate::specs::StatementReading::read_plain_call))]
fn plain_call(alloc: Global, target: Name, words: &mut Words) -> Result<Statement<Name>, Stop>
    ensures gives { Reads result words.old words.new (read_plain_call target) }
    ensures takes { Takes result words.old words.new }
{
    let call = call_of(alloc, target, words)?;
    Ok(Statement::Call { bind: None, call })
}

/// A call whose result is bound to this name.
#[tactic(auto, unfolding(crate::specs::StatementReading::read_bound_call))]
fn bound_call(alloc: Global, name: Name, words: &mut Words) -> Result<Statement<Name>, Stop>
    ensures gives { Reads result words.old words.new (read_bound_call name) }
    ensures takes { Takes result words.old words.new }
{
    let call = call(alloc, words)?;
    Ok(Statement::Call {
        bind: Some(name),
        call,
    })
}

/// The value that this name is assigned.
#[tactic(auto, unfolding(crate::specs::StatementReading::read_assigned))]
fn assigned(alloc: Global, name: Name, words: &mut Words) -> Result<Statement<Name>, Stop>
    ensures gives { Reads result words.old words.new (read_assigned name) }
    ensures takes { Takes result words.old words.new }
{
    let value = whole_expression(alloc, words)?;
    Ok(Statement::Assign { name, value })
}

/// `:=`, and a call or a value behind it.
#[tactic(auto, unfolding(crate::specs::StatementReading::read_binding))]
fn binding(alloc: Global, name: Name, words: &mut Words) -> Result<Statement<Name>, Stop>
    ensures gives { Reads result words.old words.new (read_binding name) }
    ensures takes { Takes result words.old words.new }
{
    words.take(Symbol::Assign)?;
    if words.is_at_call() {
        bound_call(alloc, name, words)
    } else {
        assigned(alloc, name, words)
    }
}

/// A statement that begins with a name.
#[tactic(auto, unfolding(crate::specs::StatementReading::read_named))]
fn named(alloc: Global, words: &mut Words) -> Result<Statement<Name>, Stop>
    ensures gives { Reads result words.old words.new read_named }
    ensures takes { Takes result words.old words.new }
{
    let name = words.name()?;
    if words.is_at(Symbol::Dot) {
        plain_call(alloc, name, words)
    } else {
        binding(alloc, name, words)
    }
}

/// The block behind `else`, or an empty one.
#[cycle(statement)]
#[tactic(auto, unfolding(crate::specs::StatementReading::read_else))]
fn perhaps_else(
    alloc: Global,
    nesting: u32,
    words: &mut Words,
) -> Result<List<Statement<Name>>, Stop>
    requires within { 0 < nesting }
    ensures gives { Reads result words.old words.new
        (read_perhaps_else (nesting == 0) (read_block nesting)) }
    ensures keeps { Keeps result words.old words.new }
{
    if words.is_at(Symbol::Else) {
        words.take(Symbol::Else)?;
        block(alloc, nesting, words)
    } else {
        Ok(List::new(alloc))
    }
}

/// An `if`, where so many more are within the limit.
#[cycle(statement)]
#[tactic(auto, unfolding(crate::specs::StatementReading::read_if))]
fn choice(alloc: Global, nesting: u32, words: &mut Words) -> Result<Statement<Name>, Stop>
    ensures gives { Reads result words.old words.new (read_if (nesting == 0) (read_block nesting)) }
    ensures takes { Takes result words.old words.new }
{
    words.take_within(Symbol::If, nesting == 0)?;
    let cond = whole_expression(alloc, words)?;
    words.take(Symbol::Then)?;
    let yes = block(alloc, nesting, words)?;
    let no = perhaps_else(alloc, nesting, words)?;
    words.take(Symbol::End)?;
    Ok(Statement::If { cond, yes, no })
}

/// A `while`, where so many more are within the limit.
#[cycle(statement)]
#[tactic(auto, unfolding(crate::specs::StatementReading::read_while))]
fn repetition(alloc: Global, nesting: u32, words: &mut Words) -> Result<Statement<Name>, Stop>
    ensures gives { Reads result words.old words.new (read_while (nesting == 0) (read_block nesting)) }
    ensures takes { Takes result words.old words.new }
{
    words.take_within(Symbol::While, nesting == 0)?;
    let cond = whole_expression(alloc, words)?;
    words.take(Symbol::Do)?;
    let turn = block(alloc, nesting, words)?;
    words.take(Symbol::End)?;
    Ok(Statement::While { cond, turn })
}

/// A statement, where so many more blocks in one another are within the limit.
#[cycle(statement)]
#[tactic(auto, unfolding(crate::specs::StatementReading::read_any_statement))]
fn statement(alloc: Global, nesting: u32, words: &mut Words) -> Result<Statement<Name>, Stop>
    ensures gives { Reads result words.old words.new
        (read_any_statement (nesting == 0) (read_block nesting)) }
    ensures takes { Takes result words.old words.new }
{
    if words.is_at(Symbol::Let) {
        local(alloc, words)
    } else if words.is_at_name() {
        named(alloc, words)
    } else if words.is_at(Symbol::If) {
        choice(alloc, nesting, words)
    } else {
        repetition(alloc, nesting, words)
    }
}

/// The statements of a block that is so far from the limit.
#[cycle(statement)]
fn block(alloc: Global, nesting: u32, words: &mut Words) -> Result<List<Statement<Name>>, Stop>
    requires within { 0 < nesting }
    ensures gives { Reads result words.old words.new (read_block nesting) }
    ensures keeps { Keeps result words.old words.new }
{
    let mut statements = List::new(alloc);
    while words.is_at_statement() {
        statements.push(statement(alloc, nesting - 1, words)?)?;
    }
    Ok(statements)
}

/// The statements of a body.
pub(crate) fn body(alloc: Global, words: &mut Words) -> Result<List<Statement<Name>>, Stop>
    ensures gives { Reads result words.old words.new read_body }
    ensures keeps { Keeps result words.old words.new }
{
    block(alloc, MOST_BLOCKS, words)
}
