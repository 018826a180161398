//! The line of a program that is accepted.

ghost use Rattle.std.specs.Prelude.{◌≡◌, IfOk};
ghost use Rattle.report_text.specs.CheckTexts.{check_text as counts_of};

use crate::numbers::push_number;
use seuss_base::{Memory, Text};
use seuss_program::Program;
use std::alloc::Global;

/// How many cats are built in: they stand before those that a program declares.
const BUILT_IN: u64 = 2;

/// The line of an accepted program: how many cats, boxes and actions it has. The built-in cats aren't
/// counted. Want of memory is the only error.
pub fn check_text(alloc: Global, program: &Program) -> Result<Text, Memory>
    ensures { IfOk result (λ text. text ≡ counts_of program.now) }
{
    let mut text = Text::from_slice(alloc, b"accepted cats ")?;
    push_number(&mut text, program.cats.len().saturating_sub(BUILT_IN))?;
    text.push_all(b" boxes ")?;
    push_number(&mut text, program.boxes.len())?;
    text.push_all(b" actions ")?;
    push_number(&mut text, program.actions.len())?;
    text.push(b'\n')?;
    Ok(text)
}
