//! The report of actions that are attempted one after the other.

ghost use Rattle.std.specs.Prelude.{◌≡◌, ◌++◌, length, IfOk, OnOk};
ghost use Rattle.report_text.specs.TightReports.{tight_end as end_of, tight_lines, tight_report};

use crate::ends::{push_last, push_state};
use crate::outcomes::push_attempt;
use seuss_base::{Memory, Outcome, Text};
use seuss_program::{LastLine, Outcomes, Program, State};
use std::alloc::Global;

/// Puts the lines of attempts at the end.
fn push_attempts(
    text: &mut Text,
    program: &Program,
    actions: &[u32],
    outcomes: &[Outcome],
) -> Result<(), Memory>
    ensures { OnOk result (text.new ≡ text.old ++ tight_lines program.now actions.now outcomes.now) }
{
    for (action, outcome) in actions.iter().zip(outcomes) {
        push_attempt(text, program, *action, *outcome)?;
    }
    Ok(())
}

/// How attempts end, by the first one that trapped or was spent.
pub fn tight_end(actions: &[u32], outcomes: &[Outcome]) -> LastLine
    ensures { result ≡ end_of actions.now outcomes.now }
{
    for (action, outcome) in actions.iter().zip(outcomes) {
        match *outcome {
            Outcome::Accepted | Outcome::Rejected => {}
            Outcome::Trapped(trap) => return LastLine::Trapped(*action, trap),
            Outcome::Spent => return LastLine::Spent(*action),
        }
    }
    LastLine::Done
}

/// The report of actions that were attempted one after the other: a line for each attempt, the values of
/// all variables in this last state, and the first attempt that trapped or was spent. Want of memory is
/// the only error.
pub fn tight_text(
    alloc: Global,
    program: &Program,
    actions: &[u32],
    outcomes: &Outcomes,
    state: &State,
) -> Result<Text, Memory>
    requires { length actions.now ≡ length outcomes.now.list }
    ensures { IfOk result (λ text.
        text ≡ tight_report program.now actions.now outcomes.now.list state.now) }
{
    let outcomes = outcomes.list.as_slice();
    let mut text = Text::new(alloc);
    push_attempts(&mut text, program, actions, outcomes)?;
    push_state(&mut text, program, state)?;
    let last = tight_end(actions, outcomes);
    push_last(&mut text, program, &last)?;
    Ok(text)
}
