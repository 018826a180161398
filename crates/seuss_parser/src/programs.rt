//! Whole programs: the tree that tokens are, or the line of the first word that fits no program.

ghost use Rattle.std.specs.Prelude.{◌≡◌};
ghost use Rattle.seuss_text.specs.Rows.{AreTokens};
ghost use Rattle.seuss_text.specs.Limits.{AreInLimits};
ghost use Rattle.seuss_parser.specs.Words.{words_of};
ghost use Rattle.seuss_parser.specs.Answers.{Parses, last_line};
ghost use Rattle.seuss_parser.specs.Cursor.{Reads};
ghost use Rattle.seuss_parser.specs.WholeReading.{read_whole_program, front_line, refusal_of};

use crate::declarations::program;
use crate::spelling::text_words;
use crate::stop::Stop;
use crate::words::Words;
use crate::{ParseRefusal, Word};
use seuss_program::Tree;
use seuss_text::Tokens;
use std::alloc::Global;
use std::collections::VecDeque;

/// The line of the last token, or 1 where there is none.
fn last_line(words: &VecDeque<Word>) -> u32
    ensures { result ≡ last_line words.now.items }
{
    match words.back() {
        Some(word) => word.line,
        None => 1,
    }
}

/// The line of the first word, or this one where there is none.
pub(crate) fn front_line(words: &VecDeque<Word>, end: u32) -> u32
    ensures { result ≡ front_line words.now.items end }
{
    match words.front() {
        Some(word) => word.line,
        None => end,
    }
}

/// A program behind which no word is left.
fn whole_program(alloc: Global, words: &mut Words) -> Result<Tree, Stop>
    ensures { Reads result words.old words.new read_whole_program }
{
    let tree = program(alloc, words)?;
    if words.left.is_empty() {
        Ok(tree)
    } else {
        Err(Stop::Unexpected)
    }
}

/// Why reading stopped, with the line where it did.
pub(crate) fn refusal(stop: Stop, line: u32) -> ParseRefusal
    ensures { result ≡ refusal_of stop line }
{
    match stop {
        Stop::Unexpected => ParseRefusal::Syntax(line),
        Stop::TooDeep => ParseRefusal::Nesting(line),
        Stop::Memory => ParseRefusal::Memory,
    }
}

/// The program that the words are. A refusal stands at the first word that is left, or at the end.
fn words_program(alloc: Global, left: VecDeque<Word>) -> Result<Tree, ParseRefusal>
    ensures { Parses result left.items }
{
    let end = last_line(&left);
    let mut words = Words { left, room: 0 };
    let found = whole_program(alloc, &mut words);
    let line = front_line(&words.left, end);
    match found {
        Ok(tree) => Ok(tree),
        Err(stop) => Err(refusal(stop, line)),
    }
}

/// The tree that the tokens of a text are, or why they are no program. Of two faults the first token counts.
pub fn parse(alloc: Global, text: &[u8], tokens: &Tokens) -> Result<Tree, ParseRefusal>
    requires tokens { AreTokens text.now tokens.now.list }
    requires limits { AreInLimits text.now tokens.now.list }
    ensures { Parses result (words_of text.now tokens.now.list) }
{
    let words = text_words(alloc, text, tokens, 0)?;
    words_program(alloc, words)
}
