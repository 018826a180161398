//! Values, and the variables of all boxes.

ghost use Rattle.std.specs.Prelude.{◌≡◌, IfOk};

use seuss_base::{Ints, List, Memory};
use std::alloc::Global;

/// The value of a variable, a parameter or a local.
#[derive(Debug, Drop)]
pub enum Value {
    Int(i64),
    Bool(bool),
    Seq(Ints),
}

impl Value {
    /// An equal value of its own.
    pub fn copy(&self, alloc: Global) -> Result<Value, Memory>
        ensures { IfOk result (λ value. value ≡ self.now) }
    {
        match self {
            Value::Int(x) => Ok(Value::Int(*x)),
            Value::Bool(b) => Ok(Value::Bool(*b)),
            Value::Seq(xs) => Ok(Value::Seq(xs.copy(alloc)?)),
        }
    }
}

/// The values of one box's variables, in the order of its cat.
#[derive(Debug, Drop)]
pub struct Vars {
    pub values: List<Value>,
}

impl Vars {
    /// Equal variables of their own.
    pub fn copy(&self, alloc: Global) -> Result<Vars, Memory>
        ensures { IfOk result (λ vars. vars ≡ self.now) }
    {
        let mut values = List::new(alloc);
        for value in self.values.as_slice() {
            values.push(value.copy(alloc)?)?;
        }
        Ok(Vars { values })
    }
}

/// The variables of every box, in order of declaration.
#[derive(Debug, Drop)]
pub struct State {
    pub boxes: List<Vars>,
}

impl State {
    /// An equal state of its own.
    pub fn copy(&self, alloc: Global) -> Result<State, Memory>
        ensures { IfOk result (λ state. state ≡ self.now) }
    {
        let mut boxes = List::new(alloc);
        for vars in self.boxes.as_slice() {
            boxes.push(vars.copy(alloc)?)?;
        }
        Ok(State { boxes })
    }
}
