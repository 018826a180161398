//! What a variable, a slot or an expression is in a case.

ghost use Rattle.std.specs.Prelude.{◌≡◌, IfOk};
ghost use Rattle.shape_terms.specs.Points.{TellsApart, point_of};
ghost use Rattle.shape_terms.specs.Symbols.{value_at};

use crate::apart::Apart;
use crate::num_form::NumForm;
use crate::seq_form::SeqForm;
use crate::{symbols, values};
use seuss_base::Memory;
use seuss_program::Value;
use std::alloc::Global;

/// What a variable, a slot or an expression is in a case.
#[derive(Debug, Drop)]
pub enum Symbol {
    Number(NumForm),
    Truth(bool),
    /// A bool that the case doesn't tell, by its place.
    Untold(u32),
    Sequence(SeqForm),
}

impl Symbol {
    /// An equal symbol of its own.
    pub fn copy(&self, alloc: Global) -> Result<Symbol, Memory>
        ensures { IfOk result (λ symbol. symbol ≡ self.now) }
    {
        match self {
            Symbol::Number(form) => Ok(Symbol::Number(form.copy(alloc)?)),
            Symbol::Truth(truth) => Ok(Symbol::Truth(*truth)),
            Symbol::Untold(place) => Ok(Symbol::Untold(*place)),
            Symbol::Sequence(form) => Ok(Symbol::Sequence(form.copy(alloc)?)),
        }
    }

    /// Where the symbols differ, if they do anywhere.
    pub fn tell_apart(&self, other: &Symbol) -> Option<Apart>
        ensures { TellsApart (value_at self.now) (value_at other.now) result }
    {
        match self {
            Symbol::Number(form) => symbols::number_apart(form, other),
            Symbol::Truth(truth) => symbols::truth_apart(*truth, other),
            Symbol::Untold(place) => symbols::untold_apart(*place, other),
            Symbol::Sequence(form) => symbols::sequence_apart(form, other),
        }
    }

    /// What the symbol stands for where symbols are told apart.
    pub fn value(&self, alloc: Global, at: &Apart) -> Result<Value, Memory>
        ensures { IfOk result (λ value. value ≡ value_at self.now (point_of at.now)) }
    {
        match self {
            Symbol::Number(form) => Ok(Value::Int(form.value_at(at))),
            Symbol::Truth(truth) => Ok(Value::Bool(*truth)),
            Symbol::Untold(place) => Ok(Value::Bool(at.truth(*place))),
            Symbol::Sequence(form) => Ok(Value::Seq(values::value_at(alloc, form, at)?)),
        }
    }
}
