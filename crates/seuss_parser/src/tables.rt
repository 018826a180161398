//! What symbols stand for: operators, functions, truth values, types, arrows and sides.

ghost use Rattle.std.specs.Prelude.{◌≡◌};
ghost use Rattle.seuss_parser.specs.Trees.{disjunction, conjunction, comparison, addition, multiplication};
ghost use Rattle.seuss_parser.specs.Trees.{function, pair_function, truth, small_kind, arrow, side};
ghost use Rattle.seuss_parser.specs.Levels.{operators};
ghost use Rattle.seuss_parser.specs.Fronts.{begins_with_one_of};
ghost use Rattle.seuss_parser.specs.CommonReading.{read_one_of, read_mark_of};
ghost use Rattle.seuss_parser.specs.Cursor.{Reads, Takes};

use crate::stop::Stop;
use crate::words::Words;
use crate::{Level, Marked, Symbol};
use seuss_program::{Fun, Kind, Op};

/// The operator of a level that a symbol is.
pub(crate) fn operator(level: Level, symbol: Symbol) -> Option<Op>
    ensures { result ≡ operators level symbol }
{
    match level {
        Level::Or => disjunction(symbol),
        Level::And => conjunction(symbol),
        Level::Comparison => comparison(symbol),
        Level::Sum => addition(symbol),
        Level::Product => multiplication(symbol),
    }
}

fn disjunction(symbol: Symbol) -> Option<Op>
    ensures { result ≡ disjunction symbol }
{
    match symbol {
        Symbol::Or => Some(Op::Or),
        _ => None,
    }
}

fn conjunction(symbol: Symbol) -> Option<Op>
    ensures { result ≡ conjunction symbol }
{
    match symbol {
        Symbol::And => Some(Op::And),
        _ => None,
    }
}

fn comparison(symbol: Symbol) -> Option<Op>
    ensures { result ≡ comparison symbol }
{
    match symbol {
        Symbol::Equal => Some(Op::Eq),
        Symbol::NotEqual => Some(Op::Ne),
        Symbol::Less => Some(Op::Lt),
        Symbol::LessOrEqual => Some(Op::Le),
        Symbol::Greater => Some(Op::Gt),
        Symbol::GreaterOrEqual => Some(Op::Ge),
        _ => None,
    }
}

fn addition(symbol: Symbol) -> Option<Op>
    ensures { result ≡ addition symbol }
{
    match symbol {
        Symbol::Plus => Some(Op::Plus),
        Symbol::Minus => Some(Op::Minus),
        Symbol::WrapPlus => Some(Op::WrapPlus),
        Symbol::WrapMinus => Some(Op::WrapMinus),
        _ => None,
    }
}

fn multiplication(symbol: Symbol) -> Option<Op>
    ensures { result ≡ multiplication symbol }
{
    match symbol {
        Symbol::Times => Some(Op::Times),
        Symbol::Divide => Some(Op::Divide),
        Symbol::Remainder => Some(Op::Remainder),
        _ => None,
    }
}

/// The function of one part.
pub(crate) fn function(symbol: Symbol) -> Option<Fun>
    ensures { result ≡ function symbol }
{
    match symbol {
        Symbol::First => Some(Fun::First),
        Symbol::Last => Some(Fun::Last),
        Symbol::Rest => Some(Fun::Rest),
        Symbol::Front => Some(Fun::Front),
        Symbol::Len => Some(Fun::Len),
        _ => None,
    }
}

/// The function of two parts.
pub(crate) fn pair_function(symbol: Symbol) -> Option<Op>
    ensures { result ≡ pair_function symbol }
{
    match symbol {
        Symbol::At => Some(Op::At),
        Symbol::Add => Some(Op::Add),
        _ => None,
    }
}

pub(crate) fn truth(symbol: Symbol) -> Option<bool>
    ensures { result ≡ truth symbol }
{
    match symbol {
        Symbol::True => Some(true),
        Symbol::False => Some(false),
        _ => None,
    }
}

/// The type of a parameter or a local.
pub(crate) fn small_kind(symbol: Symbol) -> Option<Kind>
    ensures { result ≡ small_kind symbol }
{
    match symbol {
        Symbol::Int => Some(Kind::Int),
        Symbol::Bool => Some(Kind::Bool),
        _ => None,
    }
}

/// Whether an arrow is that of a positive alternative.
pub(crate) fn arrow(symbol: Symbol) -> Option<bool>
    ensures { result ≡ arrow symbol }
{
    match symbol {
        Symbol::Arrow => Some(true),
        Symbol::NegativeArrow => Some(false),
        _ => None,
    }
}

/// Whether an end of a sequence is its front.
pub(crate) fn side(symbol: Symbol) -> Option<bool>
    ensures { result ≡ side symbol }
{
    match symbol {
        Symbol::Front => Some(true),
        Symbol::Back => Some(false),
        _ => None,
    }
}

impl Words {
    /// The next word is an operator of this level.
    pub(crate) fn is_at_operator(&self, level: Level) -> bool
        ensures { result ≡ begins_with_one_of (operators level) self.now.left.items }
    {
        operator(level, self.symbol()).is_some()
    }

    /// The next word is `true` or `false`.
    pub(crate) fn is_at_truth(&self) -> bool
        ensures { result ≡ begins_with_one_of truth self.now.left.items }
    {
        truth(self.symbol()).is_some()
    }

    /// The next word is a function of one part.
    pub(crate) fn is_at_function(&self) -> bool
        ensures { result ≡ begins_with_one_of function self.now.left.items }
    {
        function(self.symbol()).is_some()
    }

    /// The next word is an end of a sequence.
    pub(crate) fn is_at_side(&self) -> bool
        ensures { result ≡ begins_with_one_of side self.now.left.items }
    {
        side(self.symbol()).is_some()
    }

    /// Takes an operator of this level.
    pub(crate) fn operator(&mut self, level: Level) -> Result<Marked<Op>, Stop>
        ensures gives { Reads result self.old self.new (read_mark_of (operators level)) }
        ensures takes { Takes result self.old self.new }
    {
        let found = operator(level, self.symbol());
        self.found_mark(found)
    }

    /// Takes the word of a function of one part.
    pub(crate) fn function(&mut self) -> Result<Marked<Fun>, Stop>
        ensures gives { Reads result self.old self.new (read_mark_of function) }
        ensures takes { Takes result self.old self.new }
    {
        let found = function(self.symbol());
        self.found_mark(found)
    }

    /// Takes the word of a function of two parts.
    pub(crate) fn pair_function(&mut self) -> Result<Marked<Op>, Stop>
        ensures gives { Reads result self.old self.new (read_mark_of pair_function) }
        ensures takes { Takes result self.old self.new }
    {
        let found = pair_function(self.symbol());
        self.found_mark(found)
    }

    /// Takes `true` or `false`.
    pub(crate) fn truth(&mut self) -> Result<Marked<bool>, Stop>
        ensures gives { Reads result self.old self.new (read_one_of truth) }
        ensures takes { Takes result self.old self.new }
    {
        let found = truth(self.symbol());
        self.found(found)
    }

    /// Takes the type of a parameter or a local.
    pub(crate) fn small_kind(&mut self) -> Result<Marked<Kind>, Stop>
        ensures gives { Reads result self.old self.new (read_one_of small_kind) }
        ensures takes { Takes result self.old self.new }
    {
        let found = small_kind(self.symbol());
        self.found(found)
    }

    /// Takes an arrow.
    pub(crate) fn arrow(&mut self) -> Result<Marked<bool>, Stop>
        ensures gives { Reads result self.old self.new (read_one_of arrow) }
        ensures takes { Takes result self.old self.new }
    {
        let found = arrow(self.symbol());
        self.found(found)
    }

    /// Takes an end of a sequence.
    pub(crate) fn side(&mut self) -> Result<Marked<bool>, Stop>
        ensures gives { Reads result self.old self.new (read_one_of side) }
        ensures takes { Takes result self.old self.new }
    {
        let found = side(self.symbol());
        self.found(found)
    }
}
