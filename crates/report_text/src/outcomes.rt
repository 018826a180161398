//! How attempts ended, as it is printed.

ghost use Rattle.std.specs.Prelude.{◌≡◌, ◌++◌, OnOk};
ghost use Rattle.seuss_program.specs.Reports.{name_of_action, outcome_line, outcome_text, trap_text};

use crate::names::push_action;
use seuss_base::{Memory, Outcome, Text, Trap};
use seuss_program::Program;

/// The word of a trap.
fn trap_word(trap: Trap) -> &'static [u8]
    ensures { result.now ≡ trap_text trap }
{
    match trap {
        Trap::Overflow => b"overflow",
        Trap::ZeroDivisor => b"zero_divisor",
        Trap::EmptySequence => b"empty_sequence",
        Trap::OutOfRange => b"out_of_range",
    }
}

/// Puts the word of a trap at the end.
pub fn push_trap(text: &mut Text, trap: Trap) -> Result<(), Memory>
    ensures { OnOk result (text.new ≡ text.old ++ trap_text trap) }
{
    text.push_all(trap_word(trap))?;
    Ok(())
}

/// Puts how an attempt ended at the end.
fn push_outcome(text: &mut Text, outcome: Outcome) -> Result<(), Memory>
    ensures { OnOk result (text.new ≡ text.old ++ outcome_text outcome) }
{
    match outcome {
        Outcome::Accepted => text.push_all(b"accepted"),
        Outcome::Rejected => text.push_all(b"rejected"),
        Outcome::Spent => text.push_all(b"spent"),
        Outcome::Trapped(trap) => {
            text.push_all(b"trapped ")?;
            push_trap(text, trap)
        }
    }
}

/// Puts the line of an attempt of an action, with how it ended, at the end.
pub fn push_attempt(
    text: &mut Text,
    program: &Program,
    action: u32,
    outcome: Outcome,
) -> Result<(), Memory>
    ensures { OnOk result (text.new ≡ text.old ++ outcome_line (name_of_action program.now action) outcome) }
{
    push_action(text, program, action)?;
    text.push(b' ')?;
    push_outcome(text, outcome)?;
    text.push(b'\n')?;
    Ok(())
}
