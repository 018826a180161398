//! Given boxes, variables, certificates, cats and boxes.

ghost use Rattle.std.specs.Prelude.{◌≡◌, IfOk};
ghost use Rattle.seuss_parser.specs.declared.symbol.Symbol.TheVariants as S;
ghost use Rattle.seuss_parser.specs.Fronts.{begins_with, begins_with_one_of};
ghost use Rattle.seuss_parser.specs.Readings.{one_word, optional};
ghost use Rattle.seuss_parser.specs.CommonReading.{read_symbol, read_name, read_one_of, read_signed};
ghost use Rattle.seuss_parser.specs.DeclarationReading.{read_given, read_start, read_sequence, read_int_of};
ghost use Rattle.seuss_parser.specs.DeclarationReading.{read_bool_of, read_seq_of, read_variable};
ghost use Rattle.seuss_parser.specs.DeclarationReading.{read_hint, read_semi, read_box, read_cat};
ghost use Rattle.seuss_parser.specs.DeclarationReading.{read_program};
ghost use Rattle.seuss_parser.specs.VariableReading.{read_kind_of};
ghost use Rattle.seuss_parser.specs.Trees.{side, truth};
ghost use Rattle.seuss_parser.specs.Cursor.{Reads, Takes, Keeps};

use crate::lists::{Item, Phrase, items, perhaps_group, perhaps_separated};
use crate::stop::Stop;
use crate::words::Words;
use crate::{Marked, Symbol};
use seuss_base::{Ints, List, Memory};
use seuss_program::{BoxDecl, Cat, Given, Hint, Kind, Name, Semi, Tree, Value, Var};
use std::alloc::Global;

/// A cat that a box is given.
impl Phrase for Name {
    ghost reading = { read_name };

    fn read(_alloc: Global, words: &mut Words) -> Result<Name, Stop> {
        words.name()
    }
}

/// A given box with its cat.
#[tactic(auto, unfolding(crate::specs::DeclarationReading::read_given))]
fn given(words: &mut Words) -> Result<Given<Name>, Stop>
    ensures gives { Reads result words.old words.new read_given }
    ensures takes { Takes result words.old words.new }
{
    let name = words.name()?;
    words.take(Symbol::Colon)?;
    let cat = words.name()?;
    Ok(Given { name, cat })
}

impl Phrase for Given<Name> {
    ghost reading = { read_given };

    fn read(_alloc: Global, words: &mut Words) -> Result<Given<Name>, Stop> {
        given(words)
    }
}

/// A minus sign, or nothing.
fn perhaps_minus(words: &mut Words) -> Result<Option<u32>, Stop>
    ensures gives { Reads result words.old words.new (optional (begins_with S.Minus) (read_symbol S.Minus)) }
    ensures keeps { Keeps result words.old words.new }
{
    if words.is_at(Symbol::Minus) {
        let line = words.take(Symbol::Minus)?;
        Ok(Some(line))
    } else {
        Ok(None)
    }
}

/// A number, perhaps with a minus before it.
#[tactic(auto, unfolding(crate::specs::CommonReading::read_signed))]
fn signed(words: &mut Words) -> Result<i64, Stop>
    ensures gives { Reads result words.old words.new read_signed }
    ensures takes { Takes result words.old words.new }
{
    let minus = perhaps_minus(words)?;
    let number = words.numeral()?;
    match minus {
        Some(_) => Ok(number.value.negated()),
        None => Ok(number.value.value()),
    }
}

/// An element of a start value.
impl Phrase for i64 {
    ghost reading = { read_signed };

    fn read(_alloc: Global, words: &mut Words) -> Result<i64, Stop> {
        signed(words)
    }
}

/// The numbers of a list as a sequence.
fn sequence_of(alloc: Global, numbers: &List<i64>) -> Result<Ints, Memory>
    ensures { IfOk result (λ ints. ints ≡ numbers.now) }
{
    let mut ints = Ints::new(alloc);
    for number in numbers.as_slice() {
        ints.push(*number)?;
    }
    Ok(ints)
}

/// A sequence.
#[tactic(auto, unfolding(crate::specs::DeclarationReading::read_sequence))]
fn sequence(alloc: Global, words: &mut Words) -> Result<Ints, Stop>
    ensures gives { Reads result words.old words.new read_sequence }
    ensures takes { Takes result words.old words.new }
{
    words.take(Symbol::OpenSquare)?;
    let numbers = perhaps_separated(alloc, Symbol::CloseSquare, words)?;
    words.take(Symbol::CloseSquare)?;
    let ints = sequence_of(alloc, &numbers)?;
    Ok(ints)
}

impl Phrase for Ints {
    ghost reading = { read_sequence };

    fn read(alloc: Global, words: &mut Words) -> Result<Ints, Stop> {
        sequence(alloc, words)
    }
}

/// `true` or `false` as a start value.
impl Phrase for Marked<bool> {
    ghost reading = { read_one_of truth };

    fn read(_alloc: Global, words: &mut Words) -> Result<Marked<bool>, Stop> {
        words.truth()
    }
}

/// A start value, behind its equals sign.
#[tactic(auto, unfolding(crate::specs::DeclarationReading::read_start))]
fn start<T: Phrase>(alloc: Global, words: &mut Words) -> Result<T, Stop>
    ensures gives { Reads result words.old words.new (read_start T.reading) }
    ensures takes { Takes result words.old words.new }
{
    words.take(Symbol::Equal)?;
    T::read(alloc, words)
}

/// A start value, or none.
fn perhaps_start<T: Phrase>(alloc: Global, words: &mut Words) -> Result<Option<T>, Stop>
    ensures gives { Reads result words.old words.new
        (optional (begins_with S.Equal) (read_start T.reading)) }
    ensures keeps { Keeps result words.old words.new }
{
    if words.is_at(Symbol::Equal) {
        let found = start(alloc, words)?;
        Ok(Some(found))
    } else {
        Ok(None)
    }
}

/// The type `int` and a start value, for the variable of this name.
#[tactic(auto, unfolding(crate::specs::DeclarationReading::read_int_of))]
fn int_of(alloc: Global, name: Name, words: &mut Words) -> Result<Var, Stop>
    ensures gives { Reads result words.old words.new (read_int_of name) }
    ensures takes { Takes result words.old words.new }
{
    words.take(Symbol::Int)?;
    let number = perhaps_start(alloc, words)?;
    Ok(Var {
        name,
        kind: Kind::Int,
        start: Value::Int(number.unwrap_or(0)),
    })
}

/// The type `bool` and a start value, for the variable of this name.
#[tactic(auto, unfolding(crate::specs::DeclarationReading::read_bool_of))]
fn bool_of(alloc: Global, name: Name, words: &mut Words) -> Result<Var, Stop>
    ensures gives { Reads result words.old words.new (read_bool_of name) }
    ensures takes { Takes result words.old words.new }
{
    words.take(Symbol::Bool)?;
    let truth = perhaps_start(alloc, words)?;
    match truth {
        Some(Marked { is, line: _ }) => Ok(Var {
            name,
            kind: Kind::Bool,
            start: Value::Bool(is),
        }),
        None => Ok(Var {
            name,
            kind: Kind::Bool,
            start: Value::Bool(false),
        }),
    }
}

/// The type `seq` and a start value, for the variable of this name.
#[tactic(auto, unfolding(crate::specs::DeclarationReading::read_seq_of))]
fn seq_of(alloc: Global, name: Name, words: &mut Words) -> Result<Var, Stop>
    ensures gives { Reads result words.old words.new (read_seq_of name) }
    ensures takes { Takes result words.old words.new }
{
    words.take(Symbol::Seq)?;
    let numbers = match perhaps_start(alloc, words)? {
        Some(numbers) => numbers,
        None => Ints::new(alloc),
    };
    Ok(Var {
        name,
        kind: Kind::Seq,
        start: Value::Seq(numbers),
    })
}

/// The type and the start value of the variable of this name.
fn kind_of(alloc: Global, name: Name, words: &mut Words) -> Result<Var, Stop>
    ensures gives { Reads result words.old words.new (read_kind_of name) }
    ensures takes { Takes result words.old words.new }
{
    if words.is_at(Symbol::Int) {
        int_of(alloc, name, words)
    } else if words.is_at(Symbol::Bool) {
        bool_of(alloc, name, words)
    } else {
        seq_of(alloc, name, words)
    }
}

/// A variable.
#[tactic(auto, unfolding(crate::specs::DeclarationReading::read_variable))]
fn variable(alloc: Global, words: &mut Words) -> Result<Var, Stop>
    ensures gives { Reads result words.old words.new read_variable }
    ensures takes { Takes result words.old words.new }
{
    words.take(Symbol::Var)?;
    let name = words.name()?;
    words.take(Symbol::Colon)?;
    kind_of(alloc, name, words)
}

impl Phrase for Var {
    ghost reading = { read_variable };

    fn read(alloc: Global, words: &mut Words) -> Result<Var, Stop> {
        variable(alloc, words)
    }
}

impl Item for Var {
    ghost starts = { begins_with S.Var };

    fn is_next(words: &Words) -> bool {
        words.is_at(Symbol::Var)
    }
}

/// A hint of a certificate.
#[tactic(auto, unfolding(crate::specs::DeclarationReading::read_hint))]
fn hint(words: &mut Words) -> Result<Hint<Name>, Stop>
    ensures gives { Reads result words.old words.new read_hint }
    ensures takes { Takes result words.old words.new }
{
    let end = words.side()?;
    let name = words.name()?;
    let depth = words.numeral()?;
    Ok(Hint {
        front: end.is,
        name,
        depth: depth.value.size(),
        line: depth.line,
    })
}

impl Phrase for Hint<Name> {
    ghost reading = { read_hint };

    fn read(_alloc: Global, words: &mut Words) -> Result<Hint<Name>, Stop> {
        hint(words)
    }
}

impl Item for Hint<Name> {
    ghost starts = { begins_with_one_of side };

    fn is_next(words: &Words) -> bool {
        words.is_at_side()
    }
}

/// A certificate.
#[tactic(auto, unfolding(crate::specs::DeclarationReading::read_semi))]
fn semi(alloc: Global, words: &mut Words) -> Result<Semi<Name>, Stop>
    ensures gives { Reads result words.old words.new read_semi }
    ensures takes { Takes result words.old words.new }
{
    let line = words.take(Symbol::Semi)?;
    let first = words.name()?;
    words.take(Symbol::Comma)?;
    let second = words.name()?;
    let hints = items(alloc, words)?;
    Ok(Semi {
        line,
        first,
        second,
        hints,
    })
}

impl Phrase for Semi<Name> {
    ghost reading = { read_semi };

    fn read(alloc: Global, words: &mut Words) -> Result<Semi<Name>, Stop> {
        semi(alloc, words)
    }
}

impl Item for Semi<Name> {
    ghost starts = { begins_with S.Semi };

    fn is_next(words: &Words) -> bool {
        words.is_at(Symbol::Semi)
    }
}

/// A cat.
#[tactic(auto, unfolding(crate::specs::DeclarationReading::read_cat))]
fn cat(alloc: Global, words: &mut Words) -> Result<Cat<Name>, Stop>
    ensures gives { Reads result words.old words.new read_cat }
    ensures takes { Takes result words.old words.new }
{
    words.take(Symbol::Cat)?;
    let name = words.name()?;
    let given = perhaps_group(alloc, words)?;
    let vars = items(alloc, words)?;
    let procs = items(alloc, words)?;
    let semis = items(alloc, words)?;
    words.take(Symbol::End)?;
    Ok(Cat {
        name,
        given,
        vars,
        procs,
        semis,
    })
}

impl Phrase for Cat<Name> {
    ghost reading = { read_cat };

    fn read(alloc: Global, words: &mut Words) -> Result<Cat<Name>, Stop> {
        cat(alloc, words)
    }
}

impl Item for Cat<Name> {
    ghost starts = { begins_with S.Cat };

    fn is_next(words: &Words) -> bool {
        words.is_at(Symbol::Cat)
    }
}

/// A box.
#[tactic(auto, unfolding(crate::specs::DeclarationReading::read_box))]
fn box_declaration(alloc: Global, words: &mut Words) -> Result<BoxDecl, Stop>
    ensures gives { Reads result words.old words.new read_box }
    ensures takes { Takes result words.old words.new }
{
    words.take(Symbol::Box)?;
    let name = words.name()?;
    words.take(Symbol::Colon)?;
    let cat = words.name()?;
    let given = perhaps_group(alloc, words)?;
    Ok(BoxDecl { name, cat, given })
}

impl Phrase for BoxDecl {
    ghost reading = { read_box };

    fn read(alloc: Global, words: &mut Words) -> Result<BoxDecl, Stop> {
        box_declaration(alloc, words)
    }
}

impl Item for BoxDecl {
    ghost starts = { begins_with S.Box };

    fn is_next(words: &Words) -> bool {
        words.is_at(Symbol::Box)
    }
}

/// A program. Whatever stands behind it is left.
#[tactic(auto, unfolding(crate::specs::DeclarationReading::read_program))]
pub(crate) fn program(alloc: Global, words: &mut Words) -> Result<Tree, Stop>
    ensures gives { Reads result words.old words.new read_program }
{
    words.take(Symbol::Seuss)?;
    words.version()?;
    let cats = items(alloc, words)?;
    let boxes = items(alloc, words)?;
    Ok(Tree { cats, boxes })
}
