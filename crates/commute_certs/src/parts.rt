//! Parts of expressions as symbols, numbers, sequences and bools.

ghost use Rattle.std.specs.Prelude.{◌≡◌, IfOk, Result, Ok};
ghost use Rattle.shape_terms.specs.declared.num_form.NumForm.{NumForm as Number};
ghost use Rattle.shape_terms.specs.declared.shape.Shape.{Shape};
ghost use Rattle.shape_terms.specs.declared.refusal.FormRefusal.{FormRefusal as Refusal};
ghost use Rattle.shape_terms.specs.Sequences.{Answers};
ghost use Rattle.commute_certs.specs.Terms.{symbol_of as symbol_by, number_in as number_by};
ghost use Rattle.commute_certs.specs.Terms.{shape_in as shape_by};
ghost use Rattle.commute_certs.specs.Terms.{truth_in as truth_by, number_part as number_told};
ghost use Rattle.commute_certs.specs.Terms.{shape_part as shape_told, named};
ghost use Rattle.commute_certs.specs.Answers.{Tells};

use crate::part::Part;
use crate::why::{Reason, Untold};
use seuss_base::{List, Memory};
use seuss_program::Ref;
use shape_terms::{FormRefusal, NumForm, SeqForm, Symbol};
use std::alloc::Global;

/// The symbol that a part is.
pub fn symbol_of(alloc: Global, part: Part) -> Result<Symbol, Memory>
    ensures { IfOk result (λ symbol. symbol ≡ symbol_by part) }
{
    match part {
        Part::Digits(z) => Ok(Symbol::Number(NumForm::literal(alloc, z)?)),
        Part::Minus(z) => Ok(Symbol::Number(NumForm::literal(alloc, z)?)),
        Part::Length(shape) => Ok(Symbol::Number(shape.len(alloc)?)),
        Part::Other(symbol) => Ok(symbol),
    }
}

/// The number that a symbol is. Any other symbol stands for 0.
pub fn number_in(alloc: Global, symbol: Symbol) -> Result<NumForm, Memory>
    ensures { IfOk result (λ form. form ≡ number_by symbol) }
{
    match symbol {
        Symbol::Number(form) => Ok(form),
        Symbol::Truth(_) | Symbol::Untold(_) | Symbol::Sequence(_) => NumForm::literal(alloc, 0),
    }
}

/// The sequence that a symbol is. Any other symbol stands for the empty one.
pub fn shape_in(alloc: Global, symbol: Symbol) -> SeqForm
    ensures { result ≡ shape_by symbol }
{
    match symbol {
        Symbol::Sequence(shape) => shape,
        Symbol::Number(_) | Symbol::Truth(_) | Symbol::Untold(_) => SeqForm::exact(List::new(
            alloc,
        )),
    }
}

/// The bool that a symbol is, where the case tells it. Any other symbol stands for false.
pub fn truth_in(symbol: &Symbol) -> Result<bool, Untold>
    ensures { Tells result (truth_by symbol.now) }
{
    match symbol {
        Symbol::Truth(b) => Ok(*b),
        Symbol::Untold(_) => Err(Untold::Reason(Reason::UndecidedCondition)),
        Symbol::Number(_) | Symbol::Sequence(_) => Ok(false),
    }
}

/// What a part is as a number.
pub fn part_number(alloc: Global, part: Part) -> Result<NumForm, Memory>
    ensures { IfOk result (λ form. form ≡ number_by (symbol_by part)) }
{
    number_in(alloc, symbol_of(alloc, part)?)
}

/// What a part is as a sequence.
pub fn part_shape(alloc: Global, part: Part) -> Result<SeqForm, Memory>
    ensures { IfOk result (λ shape. shape ≡ shape_by (symbol_by part)) }
{
    Ok(shape_in(alloc, symbol_of(alloc, part)?))
}

/// What a part is as a bool, where the case tells it.
pub fn part_truth(part: &Part) -> Result<bool, Untold>
    ensures { Tells result (truth_by (symbol_by part.now)) }
{
    match part {
        Part::Digits(_) | Part::Minus(_) | Part::Length(_) => Ok(false),
        Part::Other(symbol) => truth_in(symbol),
    }
}

/// What was taken from a sequence, as a part.
pub fn number_part(taken: Result<NumForm, FormRefusal>) -> Result<Part, Untold>
    ensures { (said : Result Number Refusal) → Answers taken said → Tells result (number_told said) }
{
    match taken {
        Ok(form) => Ok(Part::Other(Symbol::Number(form))),
        Err(FormRefusal::MayBeEmpty) => Err(Untold::Reason(Reason::MayTrap)),
        Err(FormRefusal::NotShown) => Err(Untold::Reason(Reason::NotShown)),
        Err(FormRefusal::Memory) => Err(Untold::Memory),
    }
}

/// What is left of a sequence, as a part.
pub fn shape_part(taken: Result<SeqForm, FormRefusal>) -> Result<Part, Untold>
    ensures { (said : Result Shape Refusal) → Answers taken said → Tells result (shape_told said) }
{
    match taken {
        Ok(shape) => Ok(Part::Other(Symbol::Sequence(shape))),
        Err(FormRefusal::MayBeEmpty) => Err(Untold::Reason(Reason::MayTrap)),
        Err(FormRefusal::NotShown) => Err(Untold::Reason(Reason::NotShown)),
        Err(FormRefusal::Memory) => Err(Untold::Memory),
    }
}

/// What a name stands for: a variable of the box or a slot of the procedure.
pub fn lookup(alloc: Global, name: Ref, vars: &[Symbol], slots: &[Symbol]) -> Result<Symbol, Memory>
    ensures { IfOk result (λ symbol. symbol ≡ named name vars.now slots.now) }
{
    let place = match name {
        Ref::Var(at) => vars.get(at as usize),
        Ref::Slot(at) => slots.get(at as usize),
        Ref::Given(_) | Ref::Method(_) | Ref::Cat(_) => None,
    };
    match place {
        Some(symbol) => symbol.copy(alloc),
        None => Ok(Symbol::Number(NumForm::literal(alloc, 0)?)),
    }
}
