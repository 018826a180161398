//! Expressions, level by level, with the room that is left for marks.

ghost use Rattle.std.specs.Prelude.{◌≡◌, IfOk};
ghost use Rattle.seuss_parser.specs.declared.symbol.Symbol.TheVariants as S;
ghost use Rattle.seuss_parser.specs.Readings.{many};
ghost use Rattle.seuss_parser.specs.Fronts.{begins_with};
ghost use Rattle.seuss_parser.specs.CommonReading.{read_mark};
ghost use Rattle.seuss_parser.specs.ExpressionReading.{read_number, read_truth, read_value_name};
ghost use Rattle.seuss_parser.specs.ExpressionReading.{read_empty, read_bracketed, read_function};
ghost use Rattle.seuss_parser.specs.ExpressionReading.{read_pair_function, read_primary, read_unary};
ghost use Rattle.seuss_parser.specs.ExpressionReading.{read_comparison, read_negation, read_behind};
ghost use Rattle.seuss_parser.specs.ExpressionReading.{read_expression, read_whole_expression};
ghost use Rattle.seuss_parser.specs.Levels.{operators, read_part, read_level, read_links};
ghost use Rattle.seuss_parser.specs.Trees.{two, minus, negated};
ghost use Rattle.seuss_parser.specs.Cursor.{Reads, Takes, Keeps};

use crate::stop::Stop;
use crate::words::Words;
use crate::{Behind, Level, Symbol};
use seuss_base::{Box, List, Memory};
use seuss_program::{Expr, Name, Node, Op};
use std::alloc::Global;

/// How many marks an expression has at most that no other one contains.
const MAX_MARKS: u32 = 256;

/// Brackets are marks, so they never stand as deep as this in one another.
const MOST_BRACKETS: u32 = 257;

/// A number.
#[tactic(auto, unfolding(crate::specs::ExpressionReading::read_number))]
fn number(words: &mut Words) -> Result<Expr<Name>, Stop>
    ensures gives { Reads result words.old words.new read_number }
    ensures takes { Takes result words.old words.new }
{
    let number = words.numeral()?;
    Ok(Expr {
        line: number.line,
        node: Node::Int(number.value.value()),
    })
}

/// `true` or `false`.
#[tactic(auto, unfolding(crate::specs::ExpressionReading::read_truth))]
fn truth(words: &mut Words) -> Result<Expr<Name>, Stop>
    ensures gives { Reads result words.old words.new read_truth }
    ensures takes { Takes result words.old words.new }
{
    let word = words.truth()?;
    Ok(Expr {
        line: word.line,
        node: Node::Bool(word.is),
    })
}

/// A name.
#[tactic(auto, unfolding(crate::specs::ExpressionReading::read_value_name))]
fn value_name(words: &mut Words) -> Result<Expr<Name>, Stop>
    ensures gives { Reads result words.old words.new read_value_name }
    ensures takes { Takes result words.old words.new }
{
    let name = words.name()?;
    Ok(Expr {
        line: name.line,
        node: Node::Name(name),
    })
}

/// The empty sequence.
#[tactic(auto, unfolding(crate::specs::ExpressionReading::read_empty))]
fn empty(words: &mut Words) -> Result<Expr<Name>, Stop>
    ensures gives { Reads result words.old words.new read_empty }
    ensures takes { Takes result words.old words.new }
{
    let line = words.mark(Symbol::OpenSquare)?;
    words.take(Symbol::CloseSquare)?;
    Ok(Expr {
        line,
        node: Node::Empty,
    })
}

/// An expression in brackets, which has the line of its opening bracket.
#[cycle(expression)]
#[tactic(auto, unfolding(crate::specs::ExpressionReading::read_bracketed))]
fn bracketed(alloc: Global, depth: u32, words: &mut Words) -> Result<Expr<Name>, Stop>
    ensures gives { Reads result words.old words.new (read_bracketed (read_expression depth)) }
    ensures takes { Takes result words.old words.new }
{
    let line = words.mark(Symbol::Open)?;
    let inner = expression(alloc, depth, words)?;
    words.take(Symbol::Close)?;
    Ok(Expr {
        line,
        node: inner.node,
    })
}

/// A function of one part.
#[cycle(expression)]
#[tactic(auto, unfolding(crate::specs::ExpressionReading::read_function))]
fn function(alloc: Global, depth: u32, words: &mut Words) -> Result<Expr<Name>, Stop>
    ensures gives { Reads result words.old words.new (read_function (read_expression depth)) }
    ensures takes { Takes result words.old words.new }
{
    let word = words.function()?;
    words.mark(Symbol::Open)?;
    let part = expression(alloc, depth, words)?;
    words.take(Symbol::Close)?;
    let part = Box::new(alloc, part)?;
    Ok(Expr {
        line: word.line,
        node: Node::One(word.is, part),
    })
}

/// A function of two parts.
#[cycle(expression)]
#[tactic(auto, unfolding(crate::specs::ExpressionReading::read_pair_function))]
fn pair_function(alloc: Global, depth: u32, words: &mut Words) -> Result<Expr<Name>, Stop>
    ensures gives { Reads result words.old words.new (read_pair_function (read_expression depth)) }
    ensures takes { Takes result words.old words.new }
{
    let word = words.pair_function()?;
    words.mark(Symbol::Open)?;
    let left = expression(alloc, depth, words)?;
    words.take(Symbol::Comma)?;
    let right = expression(alloc, depth, words)?;
    words.take(Symbol::Close)?;
    let left = Box::new(alloc, left)?;
    let right = Box::new(alloc, right)?;
    Ok(Expr {
        line: word.line,
        node: Node::Two(word.is, left, right),
    })
}

/// What stands between operators.
#[cycle(expression)]
#[tactic(auto, unfolding(crate::specs::ExpressionReading::read_primary))]
fn primary(alloc: Global, depth: u32, words: &mut Words) -> Result<Expr<Name>, Stop>
    ensures gives { Reads result words.old words.new (read_primary (read_expression depth)) }
    ensures takes { Takes result words.old words.new }
{
    if words.is_at_number() {
        number(words)
    } else if words.is_at_truth() {
        truth(words)
    } else if words.is_at_name() {
        value_name(words)
    } else if words.is_at(Symbol::OpenSquare) {
        empty(words)
    } else if words.is_at(Symbol::Open) {
        bracketed(alloc, depth, words)
    } else if words.is_at_function() {
        function(alloc, depth, words)
    } else {
        pair_function(alloc, depth, words)
    }
}

/// The lines of as many of a sign as stand here.
fn signs(alloc: Global, sign: Symbol, words: &mut Words) -> Result<List<u32>, Stop>
    ensures gives { Reads result words.old words.new (many (begins_with sign) (read_mark sign)) }
    ensures keeps { Keeps result words.old words.new }
{
    let mut lines = List::new(alloc);
    while words.is_at(sign) {
        lines.push(words.mark(sign)?)?;
    }
    Ok(lines)
}

/// An expression with a minus before it for each of these lines.
fn with_minus(alloc: Global, mut lines: List<u32>, part: Expr<Name>) -> Result<Expr<Name>, Memory>
    ensures { IfOk result (λ whole. whole ≡ minus lines part) }
{
    let mut whole = part;
    while let Some(line) = lines.pop() {
        let part = Box::new(alloc, whole)?;
        whole = Expr {
            line,
            node: Node::Neg(part),
        };
    }
    Ok(whole)
}

/// An expression with a `not` before it for each of these lines.
fn with_not(alloc: Global, mut lines: List<u32>, part: Expr<Name>) -> Result<Expr<Name>, Memory>
    ensures { IfOk result (λ whole. whole ≡ negated lines part) }
{
    let mut whole = part;
    while let Some(line) = lines.pop() {
        let part = Box::new(alloc, whole)?;
        whole = Expr {
            line,
            node: Node::Not(part),
        };
    }
    Ok(whole)
}

/// An expression of two parts, with the line of the left one.
fn two_parts(
    alloc: Global,
    op: Op,
    left: Expr<Name>,
    right: Expr<Name>,
) -> Result<Expr<Name>, Memory>
    ensures { IfOk result (λ whole. whole ≡ two op left right) }
{
    let line = left.line;
    let left = Box::new(alloc, left)?;
    let right = Box::new(alloc, right)?;
    Ok(Expr {
        line,
        node: Node::Two(op, left, right),
    })
}

/// What stands between operators, with minus signs before it.
#[cycle(expression)]
#[tactic(auto, unfolding(crate::specs::ExpressionReading::read_unary))]
fn unary(alloc: Global, depth: u32, words: &mut Words) -> Result<Expr<Name>, Stop>
    ensures gives { Reads result words.old words.new (read_unary (read_expression depth)) }
    ensures takes { Takes result words.old words.new }
{
    let lines = signs(alloc, Symbol::Minus, words)?;
    let part = primary(alloc, depth, words)?;
    let whole = with_minus(alloc, lines, part)?;
    Ok(whole)
}

/// A sum, or two that are compared.
#[cycle(expression)]
#[tactic(auto, unfolding(crate::specs::ExpressionReading::read_comparison))]
fn comparison(alloc: Global, depth: u32, words: &mut Words) -> Result<Expr<Name>, Stop>
    ensures gives { Reads result words.old words.new (read_comparison (read_expression depth)) }
    ensures takes { Takes result words.old words.new }
{
    let left = chain(alloc, Level::Sum, depth, words)?;
    if words.is_at_operator(Level::Comparison) {
        let next = behind(alloc, Level::Comparison, depth, words)?;
        let whole = two_parts(alloc, next.op, left, next.part)?;
        Ok(whole)
    } else {
        Ok(left)
    }
}

/// A comparison, with the word `not` before it any number of times.
#[cycle(expression)]
#[tactic(auto, unfolding(crate::specs::ExpressionReading::read_negation))]
fn negation(alloc: Global, depth: u32, words: &mut Words) -> Result<Expr<Name>, Stop>
    ensures gives { Reads result words.old words.new (read_negation (read_expression depth)) }
    ensures takes { Takes result words.old words.new }
{
    let lines = signs(alloc, Symbol::Not, words)?;
    let part = comparison(alloc, depth, words)?;
    let whole = with_not(alloc, lines, part)?;
    Ok(whole)
}

/// What stands between the operators of a level.
#[cycle(expression)]
fn part(alloc: Global, level: Level, depth: u32, words: &mut Words) -> Result<Expr<Name>, Stop>
    ensures gives { Reads result words.old words.new (read_part level (read_expression depth)) }
    ensures takes { Takes result words.old words.new }
{
    match level {
        Level::Or => chain(alloc, Level::And, depth, words),
        Level::And => negation(alloc, depth, words),
        Level::Comparison => chain(alloc, Level::Sum, depth, words),
        Level::Sum => chain(alloc, Level::Product, depth, words),
        Level::Product => unary(alloc, depth, words),
    }
}

/// An operator of a level, and the part behind it.
#[cycle(expression)]
#[tactic(auto, unfolding(crate::specs::ExpressionReading::read_behind))]
fn behind(alloc: Global, level: Level, depth: u32, words: &mut Words) -> Result<Behind, Stop>
    ensures gives { Reads result words.old words.new
        (read_behind (operators level) (read_part level (read_expression depth))) }
    ensures takes { Takes result words.old words.new }
{
    let op = words.operator(level)?;
    let part = part(alloc, level, depth, words)?;
    Ok(Behind { op: op.is, part })
}

/// A first part, with as many operators and parts as stand behind it, grouped to the left.
#[cycle(expression)]
fn links(
    alloc: Global,
    level: Level,
    depth: u32,
    first: Expr<Name>,
    words: &mut Words,
) -> Result<Expr<Name>, Stop>
    ensures gives { Reads result words.old words.new (read_links level (read_expression depth) first) }
    ensures keeps { Keeps result words.old words.new }
{
    let mut whole = first;
    while words.is_at_operator(level) {
        let next = behind(alloc, level, depth, words)?;
        whole = two_parts(alloc, next.op, whole, next.part)?;
    }
    Ok(whole)
}

/// Parts with the operators of a level between them, grouped to the left.
#[cycle(expression)]
#[tactic(auto, unfolding(crate::specs::ExpressionReading::read_chain))]
fn chain(alloc: Global, level: Level, depth: u32, words: &mut Words) -> Result<Expr<Name>, Stop>
    ensures gives { Reads result words.old words.new (read_level level (read_expression depth)) }
    ensures takes { Takes result words.old words.new }
{
    let first = part(alloc, level, depth, words)?;
    links(alloc, level, depth, first, words)
}

/// An expression in which brackets stand so deep in one another.
#[cycle(expression)]
#[tactic(auto, unfolding(crate::specs::ExpressionReading::read_disjunction))]
fn expression(alloc: Global, depth: u32, words: &mut Words) -> Result<Expr<Name>, Stop>
    ensures gives { Reads result words.old words.new (read_expression depth) }
    ensures takes { Takes result words.old words.new }
{
    if depth == 0 {
        return Err(Stop::TooDeep);
    }
    chain(alloc, Level::Or, depth - 1, words)
}

/// An expression that no other one contains, with its own room for marks.
#[tactic(auto, unfolding(crate::specs::ExpressionReading::read_whole_expression))]
pub(crate) fn whole_expression(alloc: Global, words: &mut Words) -> Result<Expr<Name>, Stop>
    ensures gives { Reads result words.old words.new read_whole_expression }
    ensures takes { Takes result words.old words.new }
{
    let room = words.room;
    words.room = MAX_MARKS;
    let whole = expression(alloc, MOST_BRACKETS, words)?;
    words.room = room;
    Ok(whole)
}
