//! Expressions in the canonical text, with parentheses where their place asks for them.

ghost use Rattle.std.specs.Prelude.{◌≡◌, [], ◌∷◌, ◌++◌, OnOk};
ghost use Rattle.seuss_parser.specs.Symbols.{symbol_text};
ghost use Rattle.seuss_print.specs.Items.{text_of};
ghost use Rattle.seuss_print.specs.Expressions.{op_symbol, fun_symbol, truth_symbol, op_level, left_level};
ghost use Rattle.seuss_print.specs.Expressions.{right_level, printed, expression, at_level};

use crate::numbers::push_number;
use seuss_base::{Memory, Text};
use seuss_program::{Expr, Fun, Name, Node, Op};

/// How tightly a minus binds.
const MINUS_LEVEL: u8 = 6;
/// How tightly `not` binds.
const NOT_LEVEL: u8 = 2;
/// How tightly binds what needs no parentheses in any place.
const PRIMARY_LEVEL: u8 = 7;

/// The keyword or sign of an operator.
fn op_text(op: Op) -> &'static [u8]
    ensures { result.now ≡ symbol_text (op_symbol op) }
{
    match op {
        Op::Or => b"or",
        Op::And => b"and",
        Op::Eq => b"=",
        Op::Ne => b"<>",
        Op::Lt => b"<",
        Op::Le => b"<=",
        Op::Gt => b">",
        Op::Ge => b">=",
        Op::Plus => b"+",
        Op::Minus => b"-",
        Op::WrapPlus => b"&+",
        Op::WrapMinus => b"&-",
        Op::Times => b"*",
        Op::Divide => b"/",
        Op::Remainder => b"%",
        Op::At => b"at",
        Op::Add => b"add",
    }
}

/// The keyword of a function.
fn fun_text(fun: Fun) -> &'static [u8]
    ensures { result.now ≡ symbol_text (fun_symbol fun) }
{
    match fun {
        Fun::First => b"first",
        Fun::Last => b"last",
        Fun::Rest => b"rest",
        Fun::Front => b"front",
        Fun::Len => b"len",
    }
}

/// The keyword of a truth value.
pub(crate) fn truth_text(truth: bool) -> &'static [u8]
    ensures { result.now ≡ symbol_text (truth_symbol truth) }
{
    if truth { b"true" } else { b"false" }
}

/// How tightly an operator binds.
fn op_level(op: Op) -> u8
    ensures { result ≡ op_level op }
{
    match op {
        Op::Or => 0,
        Op::And => 1,
        Op::Eq | Op::Ne | Op::Lt | Op::Le | Op::Gt | Op::Ge => 3,
        Op::Plus | Op::Minus | Op::WrapPlus | Op::WrapMinus => 4,
        Op::Times | Op::Divide | Op::Remainder => 5,
        Op::At | Op::Add => PRIMARY_LEVEL,
    }
}

/// How tightly the left part of an operator has to bind. A comparison is no part of a comparison, and
/// all other operators group to the left.
fn left_level(op: Op) -> u8
    ensures { result ≡ left_level op }
{
    match op {
        Op::Eq | Op::Ne | Op::Lt | Op::Le | Op::Gt | Op::Ge => 4,
        Op::Or => 0,
        Op::And => 1,
        Op::Plus | Op::Minus | Op::WrapPlus | Op::WrapMinus => 4,
        Op::Times | Op::Divide | Op::Remainder => 5,
        Op::At | Op::Add => PRIMARY_LEVEL,
    }
}

/// How tightly the right part of an operator has to bind.
fn right_level(op: Op) -> u8
    ensures { result ≡ right_level op }
{
    op_level(op) + 1
}

/// How tightly an expression binds.
#[tactic(auto, unfolding(crate::specs::Expressions::printed))]
fn level(e: &Expr<Name>) -> u8
    ensures { result ≡ (printed e.now).level }
{
    match &e.node {
        Node::Int(_) | Node::Bool(_) | Node::Empty | Node::Name(_) | Node::One(_, _) => {
            PRIMARY_LEVEL
        }
        Node::Neg(_) => MINUS_LEVEL,
        Node::Not(_) => NOT_LEVEL,
        Node::Two(op, _, _) => op_level(*op),
    }
}

/// Puts a word and an opening bracket at the end.
fn push_opening(text: &mut Text, word: &[u8]) -> Result<(), Memory>
    ensures { OnOk result (text.new ≡ text.old ++ word.now ++ 40 ∷ []) }
{
    text.push_all(word)?;
    text.push(b'(')?;
    Ok(())
}

/// Puts a word with a space on each side at the end.
pub(crate) fn push_spaced(text: &mut Text, word: &[u8]) -> Result<(), Memory>
    ensures { OnOk result (text.new ≡ text.old ++ 32 ∷ word.now ++ 32 ∷ []) }
{
    text.push(b' ')?;
    text.push_all(word)?;
    text.push(b' ')?;
    Ok(())
}

/// Puts an expression at the end, in parentheses where it binds less tightly than its place wants.
#[cycle(push)]
fn push_at_level(text: &mut Text, e: &Expr<Name>, wanted: u8) -> Result<(), Memory>
    ensures { OnOk result (text.new ≡ text.old ++ text_of (at_level wanted (printed e.now))) }
{
    if level(e) < wanted {
        text.push(b'(')?;
        push_expression(text, e)?;
        text.push(b')')?;
        return Ok(());
    }
    push_expression(text, e)
}

/// Puts a whole expression at the end.
#[cycle(push)]
#[tactic(auto, unfolding(crate::specs::Expressions::printed))]
pub(crate) fn push_expression(text: &mut Text, e: &Expr<Name>) -> Result<(), Memory>
    ensures { OnOk result (text.new ≡ text.old ++ text_of (expression e.now)) }
{
    match &e.node {
        Node::Int(z) => push_number(text, *z),
        Node::Bool(truth) => text.push_all(truth_text(*truth)),
        Node::Empty => text.push_all(b"[]"),
        Node::Name(name) => text.push_all(name.text.as_bytes()),
        Node::Neg(part) => {
            text.push(b'-')?;
            push_at_level(text, part, MINUS_LEVEL)
        }
        Node::Not(part) => {
            text.push_all(b"not ")?;
            push_at_level(text, part, NOT_LEVEL)
        }
        Node::Two(op, left, right) => {
            if op_level(*op) == PRIMARY_LEVEL {
                push_opening(text, op_text(*op))?;
                push_expression(text, left)?;
                text.push_all(b", ")?;
                push_expression(text, right)?;
                return text.push(b')');
            }
            push_at_level(text, left, left_level(*op))?;
            push_spaced(text, op_text(*op))?;
            push_at_level(text, right, right_level(*op))
        }
        Node::One(fun, part) => {
            push_opening(text, fun_text(*fun))?;
            push_expression(text, part)?;
            text.push(b')')
        }
    }
}
