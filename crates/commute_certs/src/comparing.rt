//! Comparisons that a case decides.

ghost use Rattle.std.specs.Prelude.{◌≡◌, Ok, Err, if◌then◌else◌};
ghost use Rattle.commute_certs.specs.declared.why.Reason.TheVariants.{UndecidedCondition};
ghost use Rattle.commute_certs.specs.Terms.{compared as compared_by, are_alike as alike_by};
ghost use Rattle.commute_certs.specs.Terms.{above as above_by};
ghost use Rattle.commute_certs.specs.Terms.{turned as turned_by, length_compared as length_by};
ghost use Rattle.commute_certs.specs.Terms.{no_difference as no_difference_by, same_symbols as same_by};
ghost use Rattle.commute_certs.specs.Terms.{symbols_compared as symbols_by};
ghost use Rattle.commute_certs.specs.Terms.{before_literal as before_literal_by};
ghost use Rattle.commute_certs.specs.Terms.{before_length as before_length_by, parts_compared as parts_by};
ghost use Rattle.commute_certs.specs.Answers.{Tells};

use crate::part::Part;
use crate::parts::symbol_of;
use crate::why::{Reason, Untold};
use seuss_program::Op;
use shape_terms::{NumForm, SeqForm, Shape, Symbol};
use std::alloc::Global;

/// How two numbers compare.
fn compared(op: Op, x: i128, y: i128) -> bool
    ensures { result ≡ compared_by op x y }
{
    match op {
        Op::Eq => x == y,
        Op::Ne => x != y,
        Op::Lt => x < y,
        Op::Le => x <= y,
        Op::Gt => x > y,
        Op::Ge => x >= y,
        _ => false,
    }
}

/// Whether all numbers from a least one on compare alike with a number.
fn are_alike(op: Op, least: i128, z: i128) -> bool
    ensures { result ≡ alike_by op least z }
{
    match op {
        Op::Lt | Op::Ge => z <= least,
        Op::Eq | Op::Ne | Op::Le | Op::Gt => z < least,
        _ => false,
    }
}

/// How all numbers from a least one on compare with a number, where they compare alike.
fn alike(op: Op, least: i128, z: i128) -> Result<bool, Untold>
    ensures { Tells result (if alike_by op least z then Ok (above_by op) else Err UndecidedCondition) }
{
    if are_alike(op, least, z) {
        Ok(compared(op, 1, 0))
    } else {
        Err(Untold::Reason(Reason::UndecidedCondition))
    }
}

/// The comparison read from the right.
fn turned(op: Op) -> Op
    ensures { result ≡ turned_by op }
{
    match op {
        Op::Lt => Op::Gt,
        Op::Le => Op::Ge,
        Op::Gt => Op::Lt,
        Op::Ge => Op::Le,
        _ => op,
    }
}

/// How all lengths of a sequence compare with a number, where they compare alike.
fn length_compared(op: Op, sequence: &SeqForm, z: i64) -> Result<bool, Untold>
    ensures { Tells result (length_by op sequence.now z) }
{
    match sequence.shape() {
        Shape::Exact(items) => Ok(compared(op, i128::from(items.len()), i128::from(z))),
        Shape::Long { front, back, .. } => {
            let least = i128::from(front.len()) + i128::from(back.len());
            alike(op, least, i128::from(z))
        }
    }
}

/// Whether two numbers are the same, by their difference where it is a number.
fn no_difference(difference: Option<i64>) -> Result<bool, Untold>
    ensures { Tells result (no_difference_by difference) }
{
    match difference {
        Some(z) => Ok(z == 0),
        None => Err(Untold::Reason(Reason::UndecidedCondition)),
    }
}

/// Whether two symbols are the same number, or the same bool.
fn same_symbols(alloc: Global, a: &Symbol, b: &Symbol) -> Result<bool, Untold>
    ensures { Tells result (same_by a.now b.now) }
{
    match (a, b) {
        (Symbol::Untold(_), _) => Err(Untold::Reason(Reason::UndecidedCondition)),
        (_, Symbol::Untold(_)) => Err(Untold::Reason(Reason::UndecidedCondition)),
        (Symbol::Number(a), Symbol::Number(b)) => no_difference(a.minus(alloc, b)?.as_literal()),
        (Symbol::Truth(a), Symbol::Truth(b)) => Ok(*a == *b),
        _ => Ok(false),
    }
}

/// A comparison of two symbols.
fn symbols_compared(alloc: Global, op: Op, a: &Symbol, b: &Symbol) -> Result<bool, Untold>
    ensures { Tells result (symbols_by op a.now b.now) }
{
    match op {
        Op::Eq => same_symbols(alloc, a, b),
        Op::Ne => Ok(!same_symbols(alloc, a, b)?),
        _ => Err(Untold::Reason(Reason::UndecidedCondition)),
    }
}

/// A comparison of a part with a literal behind it.
fn before_literal(alloc: Global, op: Op, part: Part, z: i64) -> Result<bool, Untold>
    ensures { Tells result (before_literal_by op part z) }
{
    match part {
        Part::Digits(x) => Ok(compared(op, i128::from(x), i128::from(z))),
        Part::Minus(x) => Ok(compared(op, i128::from(x), i128::from(z))),
        Part::Length(sequence) => length_compared(op, &sequence, z),
        Part::Other(symbol) => {
            let literal = Symbol::Number(NumForm::literal(alloc, z)?);
            symbols_compared(alloc, op, &symbol, &literal)
        }
    }
}

/// A comparison of a part with a length behind it.
fn before_length(alloc: Global, op: Op, part: Part, sequence: &SeqForm) -> Result<bool, Untold>
    ensures { Tells result (before_length_by op part sequence.now) }
{
    match part {
        Part::Digits(x) => length_compared(turned(op), sequence, x),
        Part::Minus(x) => length_compared(turned(op), sequence, x),
        Part::Length(other) => {
            let first = Symbol::Number(other.len(alloc)?);
            let second = Symbol::Number(sequence.len(alloc)?);
            symbols_compared(alloc, op, &first, &second)
        }
        Part::Other(symbol) => {
            let length = Symbol::Number(sequence.len(alloc)?);
            symbols_compared(alloc, op, &symbol, &length)
        }
    }
}

/// A comparison of two parts.
pub fn parts_compared(alloc: Global, op: Op, a: Part, b: Part) -> Result<bool, Untold>
    ensures { Tells result (parts_by op a b) }
{
    match b {
        Part::Digits(z) => before_literal(alloc, op, a, z),
        Part::Minus(z) => before_literal(alloc, op, a, z),
        Part::Length(sequence) => before_length(alloc, op, a, &sequence),
        Part::Other(symbol) => {
            let first = symbol_of(alloc, a)?;
            symbols_compared(alloc, op, &first, &symbol)
        }
    }
}
