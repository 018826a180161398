//! The state in which a program starts.

ghost use Rattle.std.specs.Prelude.{◌≡◌, map, IfOk};
ghost use Rattle.seuss_program.specs.Initials.{initial, initial_boxes, starts_in, starts_of, with_input};

use crate::{BoxInfo, Cat, Program, Ref, State, Value, Var, Vars};
use seuss_base::{Ints, List, Memory};
use std::alloc::Global;

/// The cat whose first box starts with the input.
const INPUT_CAT: u32 = 0;

/// The start values of variables.
fn start_values(alloc: Global, vars: &[Var]) -> Result<List<Value>, Memory>
    ensures { IfOk result (λ values. values ≡ map (λ v. v.start) vars.now) }
{
    let mut values = List::new(alloc);
    for var in vars {
        values.push(var.start.copy(alloc)?)?;
    }
    Ok(values)
}

/// The start values of a box's variables.
fn starts(alloc: Global, cats: &List<Cat<Ref>>, info: &BoxInfo) -> Result<Vars, Memory>
    ensures { IfOk result (λ vars. vars ≡ starts_of cats.now info.now) }
{
    match cats.get(u64::from(info.cat)) {
        Some(cat) => Ok(Vars {
            values: start_values(alloc, cat.vars.as_slice())?,
        }),
        None => Ok(Vars {
            values: List::new(alloc),
        }),
    }
}

/// The variables of a box that has the input in its first variable.
fn given(alloc: Global, input: &Ints, vars: Vars) -> Result<Vars, Memory>
    ensures { IfOk result (λ given. given ≡ with_input input.now vars) }
{
    let Vars { mut values } = vars;
    if values.len() > 0 {
        values.set(0, Value::Seq(input.copy(alloc)?));
    }
    Ok(Vars { values })
}

/// The state in which a program starts: each variable has its start value, and the first box of the
/// cat `Input` has the input.
pub fn initial_state(alloc: Global, program: &Program, input: &Ints) -> Result<State, Memory>
    ensures { IfOk result (λ state. state ≡ initial program.now input.now) }
{
    let mut boxes = List::new(alloc);
    let mut is_given = false;
    for info in program.boxes.as_slice() {
        let vars = starts(alloc, &program.cats, info)?;
        if !is_given && info.cat == INPUT_CAT {
            is_given = true;
            boxes.push(given(alloc, input, vars)?)?;
        } else {
            boxes.push(vars)?;
        }
    }
    Ok(State { boxes })
}
