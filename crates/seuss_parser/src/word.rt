//! Words of the grammar with their lines, and what is read of them.

ghost use Rattle.std.specs.Prelude.{◌≡◌, is_some};
ghost use Rattle.seuss_parser.specs.Words.{is_symbol, as_version};
ghost use Rattle.seuss_parser.specs.Fronts.{is_name, is_number, starts_statement, starts_procedure};
ghost use Rattle.seuss_parser.specs.Cursor.{symbol_in};

use crate::{Natural, Symbol};
use seuss_base::Text;
use seuss_program::{Expr, Name, Op};

/// What a word of a text is to the grammar.
#[derive(Debug, Drop)]
pub enum Sort {
    Fixed(Symbol),
    Name(Text),
    Number(Natural),
}

/// A word of a text with its line, counted from 1.
#[derive(Debug, Drop)]
pub struct Word {
    pub line: u32,
    pub sort: Sort,
}

impl Word {
    /// The word is this symbol.
    pub fn is(&self, symbol: Symbol) -> bool
        ensures { result ≡ is_symbol symbol self.now.sort }
    {
        match &self.sort {
            Sort::Fixed(found) => *found == symbol,
            Sort::Name(_) | Sort::Number(_) => false,
        }
    }

    /// The symbol that the word is, or `Other`.
    pub(crate) fn symbol(&self) -> Symbol
        ensures { result ≡ symbol_in self.now.sort }
    {
        match &self.sort {
            Sort::Fixed(symbol) => *symbol,
            Sort::Name(_) | Sort::Number(_) => Symbol::Other,
        }
    }

    /// The word is a name.
    pub(crate) fn is_name(&self) -> bool
        ensures { result ≡ is_name self.now.sort }
    {
        matches!(&self.sort, Sort::Name(_))
    }

    /// The word is a number.
    pub(crate) fn is_number(&self) -> bool
        ensures { result ≡ is_number self.now.sort }
    {
        matches!(&self.sort, Sort::Number(_))
    }

    /// The word is the number 1, however it is written.
    pub(crate) fn is_version(&self) -> bool
        ensures { result ≡ is_some (as_version self.now) }
    {
        match &self.sort {
            Sort::Number(number) => number.value() == 1,
            Sort::Fixed(_) | Sort::Name(_) => false,
        }
    }

    /// A statement begins with this word.
    pub(crate) fn starts_statement(&self) -> bool
        ensures { result ≡ starts_statement self.now.sort }
    {
        match &self.sort {
            Sort::Fixed(Symbol::Let | Symbol::If | Symbol::While) | Sort::Name(_) => true,
            Sort::Fixed(_) | Sort::Number(_) => false,
        }
    }

    /// A procedure begins with this word.
    pub(crate) fn starts_procedure(&self) -> bool
        ensures { result ≡ starts_procedure self.now.sort }
    {
        match &self.sort {
            Sort::Fixed(Symbol::Total | Symbol::Partial | Symbol::Action) => true,
            Sort::Fixed(_) | Sort::Name(_) | Sort::Number(_) => false,
        }
    }
}

/// The number that a word is, with the word's line.
#[derive(Debug, Drop)]
pub struct Numeral {
    pub value: Natural,
    pub line: u32,
}

/// What a symbol stands for in some table, with the line of its word.
#[derive(Debug, Drop)]
pub struct Marked<T> {
    pub is: T,
    pub line: u32,
}

/// An operator, and the part behind it.
#[derive(Debug, Drop)]
pub struct Behind {
    pub op: Op,
    pub part: Expr<Name>,
}
