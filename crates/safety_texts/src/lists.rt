//! Reading lists of properties.
ghost use Rattle.std.specs.Prelude.{◌≡◌, ◌+◌, ◌<◌, ◌≤◌, length, slice_get, IfOk};
ghost use Rattle.seuss_text.specs.Rows.{AreTokens};
ghost use Rattle.seuss_text.specs.Limits.{AreInLimits};
ghost use Rattle.seuss_parser.specs.Words.{as_symbol, as_name, words_of};
ghost use Rattle.safety_texts.specs.Lists.{wanted, head as head_of};
ghost use Rattle.safety_texts.specs.Readings.{Gives, ReadsOne, ReadsList};

use crate::refusal::PropertyRefusal;
use crate::texts::PropertyText;
use seuss_base::{List, Text};
use seuss_parser::{ParseRefusal, Sort, Symbol, Word, parse_expr, text_words};
use seuss_program::Name;
use seuss_text::Tokens;
use std::alloc::Global;
use std::collections::VecDeque;

/// The line of the word at a place, where it is wanted to be this symbol, behind a word on this line.
fn wanted_symbol(
    words: &VecDeque<Word>,
    at: usize,
    symbol: Symbol,
    line: u32,
) -> Result<u32, PropertyRefusal>
    ensures gives { Gives result (wanted (as_symbol symbol) line (slice_get words.now.items at)) }
    ensures within { IfOk result (λ found. at < length words.now.items) }
{
    match words.get(at) {
        Some(word) => {
            if word.is(symbol) {
                Ok(word.line)
            } else {
                Err(PropertyRefusal::Bad(word.line))
            }
        }
        None => Err(PropertyRefusal::Bad(line)),
    }
}

/// The name at a place, where one is wanted, behind a word on this line.
fn wanted_name(
    alloc: Global,
    words: &VecDeque<Word>,
    at: usize,
    line: u32,
) -> Result<Name, PropertyRefusal>
    ensures gives { Gives result (wanted as_name line (slice_get words.now.items at)) }
    ensures within { IfOk result (λ found. at < length words.now.items) }
{
    match words.get(at) {
        Some(word) => match &word.sort {
            Sort::Name(text) => Ok(Name {
                text: Text::from_slice(alloc, text.as_bytes())?,
                line: word.line,
            }),
            Sort::Fixed(_) | Sort::Number(_) => Err(PropertyRefusal::Bad(word.line)),
        },
        None => Err(PropertyRefusal::Bad(line)),
    }
}

/// The name of the cat at the head of a property, which begins at this place.
fn head(alloc: Global, words: &VecDeque<Word>, at: usize) -> Result<Name, PropertyRefusal>
    requires { at < length words.now.items }
    ensures gives { Gives result (head_of words.now.items at) }
    ensures within { IfOk result (λ cat. at + 3 ≤ length words.now.items) }
{
    let line = wanted_symbol(words, at, Symbol::Cat, 1)?;
    let name = wanted_name(alloc, words, at + 1, line)?;
    wanted_symbol(words, at + 2, Symbol::Colon, name.line)?;
    Ok(name)
}

/// The property that begins at a place of the words of a text, and the place behind it.
fn read_one(
    alloc: Global,
    text: &[u8],
    tokens: &Tokens,
    words: &VecDeque<Word>,
    at: usize,
) -> Result<(PropertyText, u64), PropertyRefusal>
    requires tokens { AreTokens text.now tokens.now.list }
    requires limits { AreInLimits text.now tokens.now.list }
    requires words { words.now.items ≡ words_of text.now tokens.now.list }
    requires at { at < length words.now.items }
    ensures { ReadsOne words.now.items at result }
{
    let cat = head(alloc, words, at)?;
    match parse_expr(alloc, text, tokens, at as u64 + 3) {
        Ok((expr, next)) => Ok((PropertyText { cat, expr }, next)),
        Err(ParseRefusal::Syntax(line)) => Err(PropertyRefusal::Bad(line)),
        Err(ParseRefusal::Nesting(line)) => Err(PropertyRefusal::Bad(line)),
        Err(ParseRefusal::Memory) => Err(PropertyRefusal::Memory),
    }
}

/// The properties that tokens spell.
pub(crate) fn read_list(
    alloc: Global,
    text: &[u8],
    tokens: &Tokens,
) -> Result<List<PropertyText>, PropertyRefusal>
    requires tokens { AreTokens text.now tokens.now.list }
    requires limits { AreInLimits text.now tokens.now.list }
    ensures { ReadsList (words_of text.now tokens.now.list) result }
{
    let words = text_words(alloc, text, tokens, 0)?;
    let mut texts = List::new(alloc);
    let mut at = 0u64;
    while at < words.len() as u64 {
        let (one, next) = read_one(alloc, text, tokens, &words, at as usize)?;
        texts.push(one)?;
        at = next;
    }
    Ok(texts)
}
