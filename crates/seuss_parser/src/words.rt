//! The words that are left of a text.

ghost use Rattle.std.specs.Prelude.{◌≡◌, ◌<◌, [], ◌∷◌, false, length, OnOk, MatchOption};
ghost use Rattle.seuss_parser.specs.Words.{as_symbol, as_version, marked_as};
ghost use Rattle.seuss_parser.specs.Readings.{one_word, one_mark};
ghost use Rattle.seuss_parser.specs.CommonReading.{read_symbol, read_mark, read_name, read_numeral};
ghost use Rattle.seuss_parser.specs.Fronts.{begins_with, begins_without, begins_with_name};
ghost use Rattle.seuss_parser.specs.Fronts.{begins_with_number, begins_statement, begins_procedure};
ghost use Rattle.seuss_parser.specs.Fronts.{begins_call};
ghost use Rattle.seuss_parser.specs.Cursor.{Reads, Takes, front_symbol, line_if, begins_as_version};

use crate::stop::Stop;
use crate::{Marked, Numeral, Sort, Symbol, Word};
use seuss_program::Name;
use std::collections::VecDeque;

/// The words that are left of a text, with the room for marks in the expression that is read.
#[derive(Drop)]
pub(crate) struct Words {
    pub(crate) left: VecDeque<Word>,
    pub(crate) room: u32,
}

impl Words {
    /// Takes the next word.
    fn next(&mut self) -> Option<Word>
        ensures word { MatchOption result ((self.old.left.items ≡ []) × (self.new.left.items ≡ []))
            (λ word. self.old.left.items ≡ word ∷ self.new.left.items) }
        ensures room { self.new.room ≡ self.old.room }
    {
        self.left.pop_front()
    }

    /// The next word's symbol, or `Other`.
    pub(crate) fn symbol(&self) -> Symbol
        ensures { result ≡ front_symbol self.now.left.items }
    {
        match self.left.front() {
            Some(word) => word.symbol(),
            None => Symbol::Other,
        }
    }

    /// The next word is this symbol.
    pub(crate) fn is_at(&self, symbol: Symbol) -> bool
        ensures { result ≡ begins_with symbol self.now.left.items }
    {
        match self.left.front() {
            Some(word) => word.is(symbol),
            None => false,
        }
    }

    /// There is a next word, and it is another one than this symbol.
    pub(crate) fn is_before(&self, symbol: Symbol) -> bool
        ensures { result ≡ begins_without symbol self.now.left.items }
    {
        match self.left.front() {
            Some(word) => !word.is(symbol),
            None => false,
        }
    }

    /// The next word is a name.
    pub(crate) fn is_at_name(&self) -> bool
        ensures { result ≡ begins_with_name self.now.left.items }
    {
        match self.left.front() {
            Some(word) => word.is_name(),
            None => false,
        }
    }

    /// The next word is a number.
    pub(crate) fn is_at_number(&self) -> bool
        ensures { result ≡ begins_with_number self.now.left.items }
    {
        match self.left.front() {
            Some(word) => word.is_number(),
            None => false,
        }
    }

    /// A statement begins with the next word.
    pub(crate) fn is_at_statement(&self) -> bool
        ensures { result ≡ begins_statement self.now.left.items }
    {
        match self.left.front() {
            Some(word) => word.starts_statement(),
            None => false,
        }
    }

    /// A procedure begins with the next word.
    pub(crate) fn is_at_procedure(&self) -> bool
        ensures { result ≡ begins_procedure self.now.left.items }
    {
        match self.left.front() {
            Some(word) => word.starts_procedure(),
            None => false,
        }
    }

    /// The next words are a name and a point.
    pub(crate) fn is_at_call(&self) -> bool
        ensures { result ≡ begins_call self.now.left.items }
    {
        match (self.left.get(0), self.left.get(1)) {
            (Some(name), Some(sign)) => name.is_name() && sign.is(Symbol::Dot),
            _ => false,
        }
    }

    /// Takes the next word where it is right here and passes no limit, and gives its line.
    fn accept(&mut self, right: bool, passes: bool) -> Result<u32, Stop>
        ensures gives { Reads result self.old self.new (one_word (line_if right) passes) }
        ensures takes { Takes result self.old self.new }
    {
        if self.left.is_empty() || !right {
            return Err(Stop::Unexpected);
        }
        if passes {
            return Err(Stop::TooDeep);
        }
        match self.next() {
            Some(word) => Ok(word.line),
            None => Err(Stop::Unexpected),
        }
    }

    /// The same for a mark, which passes the limit where no room is left.
    fn accept_mark(&mut self, right: bool) -> Result<u32, Stop>
        ensures gives { Reads result self.old self.new (one_mark (line_if right)) }
        ensures takes { Takes result self.old self.new }
    {
        let line = self.accept(right, self.room == 0)?;
        self.room -= 1;
        Ok(line)
    }

    /// Takes this symbol, and gives its line.
    pub(crate) fn take(&mut self, symbol: Symbol) -> Result<u32, Stop>
        ensures gives { Reads result self.old self.new (read_symbol symbol) }
        ensures takes { Takes result self.old self.new }
    {
        let right = self.is_at(symbol);
        self.accept(right, false)
    }

    /// Takes this symbol, which may pass the limit of nesting.
    pub(crate) fn take_within(&mut self, symbol: Symbol, passes: bool) -> Result<u32, Stop>
        ensures gives { Reads result self.old self.new (one_word (as_symbol symbol) passes) }
        ensures takes { Takes result self.old self.new }
        ensures within { OnOk result (passes ≡ false) }
    {
        let right = self.is_at(symbol);
        self.accept(right, passes)
    }

    /// Takes this symbol as a mark.
    pub(crate) fn mark(&mut self, symbol: Symbol) -> Result<u32, Stop>
        ensures gives { Reads result self.old self.new (read_mark symbol) }
        ensures takes { Takes result self.old self.new }
    {
        let right = self.is_at(symbol);
        self.accept_mark(right)
    }

    /// Takes the next word, for which this was found in a table.
    pub(crate) fn found<T: Copy>(&mut self, found: Option<T>) -> Result<Marked<T>, Stop>
        ensures gives { Reads result self.old self.new (one_word (λ word. marked_as word.line found) false) }
        ensures takes { Takes result self.old self.new }
    {
        match found {
            Some(is) => {
                let line = self.accept(true, false)?;
                Ok(Marked { is, line })
            }
            None => Err(Stop::Unexpected),
        }
    }

    /// The same for a mark.
    pub(crate) fn found_mark<T: Copy>(&mut self, found: Option<T>) -> Result<Marked<T>, Stop>
        ensures gives { Reads result self.old self.new (one_mark (λ word. marked_as word.line found)) }
        ensures takes { Takes result self.old self.new }
    {
        match found {
            Some(is) => {
                let line = self.accept_mark(true)?;
                Ok(Marked { is, line })
            }
            None => Err(Stop::Unexpected),
        }
    }

    /// Takes a name.
    pub(crate) fn name(&mut self) -> Result<Name, Stop>
        ensures gives { Reads result self.old self.new read_name }
        ensures takes { Takes result self.old self.new }
    {
        if !self.is_at_name() {
            return Err(Stop::Unexpected);
        }
        match self.next() {
            Some(
                Word {
                    line,
                    sort: Sort::Name(text),
                },
            ) => Ok(Name { text, line }),
            _ => Err(Stop::Unexpected),
        }
    }

    /// Takes a number.
    pub(crate) fn numeral(&mut self) -> Result<Numeral, Stop>
        ensures gives { Reads result self.old self.new read_numeral }
        ensures takes { Takes result self.old self.new }
    {
        if !self.is_at_number() {
            return Err(Stop::Unexpected);
        }
        match self.next() {
            Some(Word { line, sort }) => match sort {
                Sort::Number(value) => Ok(Numeral { value, line }),
                Sort::Fixed(_) => Err(Stop::Unexpected),
                Sort::Name(_text) => Err(Stop::Unexpected),
            },
            None => Err(Stop::Unexpected),
        }
    }

    /// The next word is the number 1.
    fn is_at_version(&self) -> bool
        ensures { result ≡ begins_as_version self.now.left.items }
    {
        match self.left.front() {
            Some(word) => word.is_version(),
            None => false,
        }
    }

    /// Takes the number 1.
    pub(crate) fn version(&mut self) -> Result<(), Stop>
        ensures gives { Reads result self.old self.new (one_word as_version false) }
        ensures takes { Takes result self.old self.new }
    {
        let right = self.is_at_version();
        self.accept(right, false)?;
        Ok(())
    }
}
