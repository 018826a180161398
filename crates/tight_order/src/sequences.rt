//! Functions of sequences, lent or owned, with their traps.

ghost use Rattle.std.specs.Prelude.{◌≡◌, [], ◌∷◌, ◌++◌, Ok};
ghost use Rattle.seuss_program.specs.Values.{seq_of, element, measure, exact_length};
ghost use Rattle.seuss_program.specs.declared.state.Value.TheVariants.{Seq};
ghost use Rattle.tight_order.specs.Answers.{Evaluates};

use crate::stop::Stop;
use seuss_base::{Ints, Trap};
use seuss_program::{Fun, Value};
use std::alloc::Global;

/// The sequence that a value is. Any other value stands for the empty one.
pub fn sequence(alloc: Global, v: Value) -> Ints
    ensures { result ≡ seq_of v }
{
    match v {
        Value::Seq(zs) => zs,
        Value::Int(_) | Value::Bool(_) => Ints::new(alloc),
    }
}

/// The element at a place, counted from 0.
pub fn element_at(zs: &Ints, at: i64) -> Result<Value, Stop>
    ensures { Evaluates result (element zs.now at) }
{
    if at < 0 {
        return Err(Stop::Trapped(Trap::OutOfRange));
    }
    match zs.get(at as u64) {
        Some(z) => Ok(Value::Int(z)),
        None => Err(Stop::Trapped(Trap::OutOfRange)),
    }
}

/// A number put at the back of a sequence.
pub fn added(mut zs: Ints, z: i64) -> Result<Value, Stop>
    ensures { Evaluates result (Ok (Seq (zs ++ z ∷ []))) }
{
    zs.push(z)?;
    Ok(Value::Seq(zs))
}

/// The first number.
fn first(zs: &Ints) -> Result<Value, Stop>
    ensures { Evaluates result (measure Fun.First zs.now) }
{
    match zs.get(0) {
        Some(z) => Ok(Value::Int(z)),
        None => Err(Stop::Trapped(Trap::EmptySequence)),
    }
}

/// The last number.
fn last(zs: &Ints) -> Result<Value, Stop>
    ensures { Evaluates result (measure Fun.Last zs.now) }
{
    let many = zs.len();
    if many == 0 {
        return Err(Stop::Trapped(Trap::EmptySequence));
    }
    match zs.get(many - 1) {
        Some(z) => Ok(Value::Int(z)),
        None => Err(Stop::Trapped(Trap::EmptySequence)),
    }
}

/// All but the first number.
fn rest(mut zs: Ints) -> Result<Value, Stop>
    ensures { Evaluates result (measure Fun.Rest zs) }
{
    match zs.remove_first() {
        Some(_) => Ok(Value::Seq(zs)),
        None => Err(Stop::Trapped(Trap::EmptySequence)),
    }
}

/// All but the last number.
fn front(mut zs: Ints) -> Result<Value, Stop>
    ensures { Evaluates result (measure Fun.Front zs) }
{
    match zs.remove_last() {
        Some(_) => Ok(Value::Seq(zs)),
        None => Err(Stop::Trapped(Trap::EmptySequence)),
    }
}

/// A function of one sequence.
pub fn of_sequence(fun: Fun, zs: Ints) -> Result<Value, Stop>
    ensures value { Evaluates result (measure fun zs) }
    ensures beside { Evaluates result (exact_length fun zs) }
{
    match fun {
        Fun::First => first(&zs),
        Fun::Last => last(&zs),
        Fun::Rest => rest(zs),
        Fun::Front => front(zs),
        Fun::Len => Ok(Value::Int(zs.len() as i64)),
    }
}

/// A function of a sequence that is lent. It is copied only where most of it is the answer.
pub fn of_lent(alloc: Global, fun: Fun, zs: &Ints) -> Result<Value, Stop>
    ensures value { Evaluates result (measure fun zs.now) }
    ensures beside { Evaluates result (exact_length fun zs.now) }
{
    match fun {
        Fun::First => first(zs),
        Fun::Last => last(zs),
        Fun::Rest => rest(zs.copy(alloc)?),
        Fun::Front => front(zs.copy(alloc)?),
        Fun::Len => Ok(Value::Int(zs.len() as i64)),
    }
}
