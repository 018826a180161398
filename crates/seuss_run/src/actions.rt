//! The numbers of actions that words name.

ghost use Rattle.std.specs.Prelude.{◌≡◌, ◌≤◌, length, IfOk};
ghost use Rattle.seuss_run.specs.Commands.{action_word};
ghost use Rattle.seuss_run.specs.Verdicts.{action_number as number_in};
ghost use Rattle.seuss_run.specs.Loadings.{NamesActions};

use crate::halt::Halt;
use report_text::{Refused, action_text};
use seuss_base::{List, Memory, Text};
use seuss_program::Program;
use std::alloc::Global;

/// The names of a box and of its action as one word.
fn joined(alloc: Global, names: &(Text, Text)) -> Result<Text, Memory>
    ensures { IfOk result (λ word. word ≡ action_word names.now) }
{
    let mut word = names.0.copy(alloc)?;
    word.push_all(b".")?;
    word.push_all(names.1.as_bytes())?;
    Ok(word)
}

/// The number of the action that is printed so, or None where the program has none.
fn action_number(alloc: Global, program: &Program, word: &[u8]) -> Result<Option<u32>, Memory>
    requires few { length program.now.actions ≤ 256 }
    ensures { IfOk result (λ found. found ≡ number_in program.now word.now) }
{
    for at in 0..program.actions.len() as u32 {
        if action_text(alloc, program, at)?.as_bytes() == word {
            return Ok(Some(at));
        }
    }
    Ok(None)
}

/// The numbers of the named actions. A name that the program doesn't have is refused.
pub(crate) fn action_numbers(
    alloc: Global,
    program: &Program,
    names: &[(Text, Text)],
) -> Result<List<u32>, Halt>
    requires few { length program.now.actions ≤ 256 }
    ensures { NamesActions program.now names.now result }
{
    let mut numbers = List::new(alloc);
    for pair in names {
        match action_number(alloc, program, joined(alloc, pair)?.as_bytes())? {
            Some(number) => numbers.push(number)?,
            None => return Err(Halt::Refused(Refused::Action)),
        }
    }
    Ok(numbers)
}
