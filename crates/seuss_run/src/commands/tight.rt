//! The command `tight`.

ghost use Rattle.std.specs.Prelude.{◌≡◌, ◌≤◌, length, IfOk};
ghost use Rattle.seuss_run.specs.Answers.{IsTightReport};
ghost use Rattle.seuss_run.specs.Loadings.{Performs};
ghost use Rattle.seuss_run.specs.Stages.{◌>=>◌};
ghost use Rattle.seuss_run.specs.Verdicts.{is_loaded, are_actions};
ghost use Rattle.seuss_run.specs.declared.reading.TheConstants.{MOST_BYTES};

use crate::actions::action_numbers;
use crate::answer::Answer;
use crate::ends::status_of;
use crate::halt::Halt;
use crate::loading::{Job, load};
use crate::words::{Command, DEFAULT_BUDGET};
use report_text::{tight_end, tight_text};
use seuss_base::{List, Memory, Text};
use seuss_program::initial_state;
use std::alloc::Global;
use tight_order::tight;

/// Attempts actions one after the other, and answers the report of them.
fn attempt_actions(alloc: Global, job: &Job, actions: &[u32]) -> Result<Answer, Memory>
    ensures { IfOk result (λ a. IsTightReport (job.now.program, job.now.input) actions.now a.status a.text) }
{
    let program = &job.program;
    let mut state = initial_state(alloc, program, &job.input)?;
    let outcomes = tight(
        alloc,
        program,
        &mut state,
        actions,
        u64::from(DEFAULT_BUDGET),
    )?;
    let last = tight_end(actions, outcomes.list.as_slice());
    Ok(Answer {
        status: status_of(last),
        text: tight_text(alloc, program, actions, &outcomes, &state)?,
    })
}

/// Attempts the named actions.
fn attempt_names(alloc: Global, names: &List<(Text, Text)>, job: &Job) -> Result<Answer, Halt>
    requires { length job.now.program.actions ≤ 256 }
    ensures { Performs (Command.Tight names.now) (are_actions names.now) (job.now.program, job.now.input)
        result }
{
    let actions = action_numbers(alloc, &job.program, names.as_slice())?;
    Ok(attempt_actions(alloc, job, actions.as_slice())?)
}

/// What the command does with the bytes that were read.
pub(crate) fn perform(
    alloc: Global,
    names: &List<(Text, Text)>,
    bytes: &[u8],
) -> Result<Answer, Halt>
    requires { length bytes.now ≤ MOST_BYTES }
    ensures { Performs (Command.Tight names.now) (is_loaded >=> are_actions names.now) bytes.now result }
{
    let job = load(alloc, bytes)?;
    attempt_names(alloc, names, &job)
}
