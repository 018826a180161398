//! One expression, which is read from a token of a text on.

ghost use Rattle.std.specs.Prelude.{◌≡◌, ◌≤◌, ℕ, List, length, drop};
ghost use Rattle.seuss_text.specs.Rows.{AreTokens};
ghost use Rattle.seuss_text.specs.Limits.{AreInLimits};
ghost use Rattle.seuss_parser.specs.Answers.{last_line};
ghost use Rattle.seuss_parser.specs.Words.{words_of};
ghost use Rattle.seuss_parser.specs.SingleExpressions.{ParsesExpression};
ghost use Rattle.seuss_parser.specs.declared.word.Word.{Word as AWord};

use crate::expressions::whole_expression;
use crate::programs::{front_line, refusal};
use crate::spelling::text_words;
use crate::words::Words;
use crate::{ParseRefusal, Word};
use seuss_program::{Expr, Name};
use seuss_text::Tokens;
use std::alloc::Global;
use std::collections::VecDeque;

/// The line of the last token, or 1 where there is none.
fn end_line(tokens: &Tokens) -> u32
    ensures { (text : List ℕ) → result ≡ last_line (words_of text tokens.now.list) }
{
    match tokens.list.as_slice().last() {
        Some(token) => token.line,
        None => 1,
    }
}

/// The expression at the front of the words that are left of so many, and the place behind it. The text
/// ends on this line.
fn words_expression(
    alloc: Global,
    left: VecDeque<Word>,
    count: u64,
    end: u32,
) -> Result<(Expr<Name>, u64), ParseRefusal>
    requires left { length left.items ≤ count }
    ensures { (words : List AWord) (from : ℕ) → left.items ≡ drop from words → from ≤ length words →
        count ≡ length words → end ≡ last_line words → ParsesExpression result words from }
{
    let mut words = Words { left, room: 0 };
    let found = whole_expression(alloc, &mut words);
    let line = front_line(&words.left, end);
    match found {
        Ok(value) => Ok((value, count - words.left.len() as u64)),
        Err(stop) => Err(refusal(stop, line)),
    }
}

/// The expression that the tokens of a text are from this one on, counted from 0, and the number of the
/// token behind it. Tokens are taken as long as some expression begins with all that were taken. `Syntax`
/// stands at the token that ended them, where they are no expression.
pub fn parse_expr(
    alloc: Global,
    text: &[u8],
    tokens: &Tokens,
    from: u64,
) -> Result<(Expr<Name>, u64), ParseRefusal>
    requires tokens { AreTokens text.now tokens.now.list }
    requires limits { AreInLimits text.now tokens.now.list }
    requires from { from ≤ length tokens.now.list }
    ensures { ParsesExpression result (words_of text.now tokens.now.list) from }
{
    let words = text_words(alloc, text, tokens, from)?;
    words_expression(alloc, words, tokens.list.len(), end_line(tokens))
}
