//! Lists of phrases: any number, at least one, and those with commas between.

ghost use Rattle.std.specs.Prelude.{◌≡◌, ◌<◌, IsTrue, List as Values, Bool, length};
ghost use Rattle.seuss_parser.specs.declared.symbol.Symbol.TheVariants as S;
ghost use Rattle.seuss_parser.specs.declared.word.Word.{Word};
ghost use Rattle.seuss_parser.specs.Fronts.{begins_with};
ghost use Rattle.seuss_parser.specs.Readings.{Reading, many, optional};
ghost use Rattle.seuss_parser.specs.CommonReading.{read_next, read_separated, read_perhaps_separated};
ghost use Rattle.seuss_parser.specs.CommonReading.{read_group, read_perhaps_group, read_arguments};
ghost use Rattle.seuss_parser.specs.Cursor.{Reads, Takes, Keeps, read_items_behind, read_others};

use crate::Symbol;
use crate::stop::Stop;
use crate::words::Words;
use seuss_base::List;
use std::alloc::Global;

/// What is read in one way.
pub(crate) trait Phrase {
    ghost reading: { Reading Self };

    fn read(alloc: Global, words: &mut Words) -> Result<Self, Stop>
        ensures gives { Reads result words.old words.new reading }
        ensures takes { Takes result words.old words.new };
}

/// What stands any number of times, one behind the other.
pub(crate) trait Item: Phrase {
    /// How words begin with one.
    ghost starts: { Values Word → Bool };

    /// The words begin with one.
    fn is_next(words: &Words) -> bool
        ensures value { result ≡ starts words.now.left.items }
        ensures some { IsTrue result → 0 < length words.now.left.items };
}

/// As many items as stand here.
pub(crate) fn items<T: Item + Drop>(alloc: Global, words: &mut Words) -> Result<List<T>, Stop>
    ensures gives { Reads result words.old words.new (many T.starts T.reading) }
    ensures keeps { Keeps result words.old words.new }
{
    let mut items = List::new(alloc);
    while T::is_next(words) {
        items.push(T::read(alloc, words)?)?;
    }
    Ok(items)
}

/// An item that was read, and as many more as stand here.
pub(crate) fn items_behind<T: Item + Drop>(
    alloc: Global,
    first: T,
    words: &mut Words,
) -> Result<List<T>, Stop>
    ensures gives { Reads result words.old words.new (read_items_behind first T.starts T.reading) }
    ensures keeps { Keeps result words.old words.new }
{
    let mut items = List::new(alloc);
    items.push(first)?;
    while T::is_next(words) {
        items.push(T::read(alloc, words)?)?;
    }
    Ok(items)
}

/// A comma, and one more item.
#[tactic(auto, unfolding(crate::specs::CommonReading::read_next))]
fn next<T: Phrase>(alloc: Global, words: &mut Words) -> Result<T, Stop>
    ensures gives { Reads result words.old words.new (read_next T.reading) }
    ensures takes { Takes result words.old words.new }
{
    words.take(Symbol::Comma)?;
    T::read(alloc, words)
}

/// These items, and as many more as stand here behind commas.
fn followed<T: Phrase + Drop>(alloc: Global, first: T, words: &mut Words) -> Result<List<T>, Stop>
    ensures gives { Reads result words.old words.new (read_others first T.reading) }
    ensures keeps { Keeps result words.old words.new }
{
    let mut items = List::new(alloc);
    items.push(first)?;
    while words.is_at(Symbol::Comma) {
        items.push(next(alloc, words)?)?;
    }
    Ok(items)
}

/// One item or more, with commas between them.
#[tactic(auto, unfolding(crate::specs::CommonReading::read_separated))]
fn separated<T: Phrase + Drop>(alloc: Global, words: &mut Words) -> Result<List<T>, Stop>
    ensures gives { Reads result words.old words.new (read_separated T.reading) }
    ensures takes { Takes result words.old words.new }
{
    let first = T::read(alloc, words)?;
    followed(alloc, first, words)
}

/// Items with commas between them, or none, before this closing bracket.
#[tactic(auto, unfolding(crate::specs::CommonReading::read_perhaps_separated))]
pub(crate) fn perhaps_separated<T: Phrase + Drop>(
    alloc: Global,
    closing: Symbol,
    words: &mut Words,
) -> Result<List<T>, Stop>
    ensures gives { Reads result words.old words.new (read_perhaps_separated closing T.reading) }
    ensures keeps { Keeps result words.old words.new }
{
    if words.is_before(closing) {
        separated(alloc, words)
    } else {
        Ok(List::new(alloc))
    }
}

/// Items in brackets.
#[tactic(auto, unfolding(crate::specs::CommonReading::read_group))]
fn group<T: Phrase + Drop>(alloc: Global, words: &mut Words) -> Result<List<T>, Stop>
    ensures gives { Reads result words.old words.new (read_group T.reading) }
    ensures takes { Takes result words.old words.new }
{
    words.take(Symbol::Open)?;
    let items = separated(alloc, words)?;
    words.take(Symbol::Close)?;
    Ok(items)
}

/// Items in brackets, or nothing.
#[tactic(auto, unfolding(crate::specs::CommonReading::read_perhaps_group))]
pub(crate) fn perhaps_group<T: Phrase + Drop>(
    alloc: Global,
    words: &mut Words,
) -> Result<List<T>, Stop>
    ensures gives { Reads result words.old words.new (read_perhaps_group T.reading) }
    ensures keeps { Keeps result words.old words.new }
{
    if words.is_at(Symbol::Open) {
        group(alloc, words)
    } else {
        Ok(List::new(alloc))
    }
}

/// Items or none, in brackets.
#[tactic(auto, unfolding(crate::specs::CommonReading::read_arguments))]
pub(crate) fn arguments<T: Phrase + Drop>(alloc: Global, words: &mut Words) -> Result<List<T>, Stop>
    ensures gives { Reads result words.old words.new (read_arguments T.reading) }
    ensures takes { Takes result words.old words.new }
{
    words.take(Symbol::Open)?;
    let items = perhaps_separated(alloc, Symbol::Close, words)?;
    words.take(Symbol::Close)?;
    Ok(items)
}
