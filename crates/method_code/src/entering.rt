//! The frames in which procedures begin.

ghost use Rattle.std.specs.Prelude.{◌≡◌, ◌++◌, IfOk, OnOk};
ghost use Rattle.method_code.specs.Steps.{entry as entry_of};

use crate::code::Code;
use crate::frame::Frame;
use seuss_base::{List, Memory};
use seuss_program::Value;
use std::alloc::Global;

/// Adds equal values of their own.
fn add_copies(alloc: Global, values: &[Value], slots: &mut List<Value>) -> Result<(), Memory>
    ensures { OnOk result (slots.new ≡ slots.old ++ values.now) }
{
    for value in values {
        slots.push(value.copy(alloc)?)?;
    }
    Ok(())
}

/// The frame in which a method begins, by its number over all cats: at place 0, with the arguments as
/// its first slots, and the result and the locals at 0 or false after them.
pub fn entry(alloc: Global, code: &Code, method: u32, args: List<Value>) -> Result<Frame, Memory>
    ensures { IfOk result (λ frame. frame ≡ entry_of code.now method args) }
{
    let mut slots = args;
    if let Some(found) = code.methods.get(method as u64) {
        add_copies(alloc, found.locals.as_slice(), &mut slots)?;
    }
    Ok(Frame {
        method,
        place: 0,
        slots,
    })
}
