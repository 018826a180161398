//! The command `check`.

ghost use Rattle.std.specs.Prelude.{◌≤◌, length};
ghost use Rattle.seuss_run.specs.Loadings.{Performs};
ghost use Rattle.seuss_run.specs.Stages.{◌>=>◌, makes};
ghost use Rattle.seuss_run.specs.Verdicts.{is_loaded, Checking};
ghost use Rattle.seuss_run.specs.declared.reading.TheConstants.{MOST_BYTES};

use crate::answer::Answer;
use crate::halt::Halt;
use crate::loading::{Job, load};
use crate::words::Command;
use report_text::check_text;
use std::alloc::Global;

/// Counts the cats, boxes and actions of a program.
fn count(alloc: Global, job: &Job) -> Result<Answer, Halt>
    ensures { Performs Command.Check (makes Checking) (job.now.program, job.now.input) result }
{
    Ok(Answer {
        status: 0,
        text: check_text(alloc, &job.program)?,
    })
}

/// What the command does with the bytes that were read.
pub(crate) fn perform(alloc: Global, bytes: &[u8]) -> Result<Answer, Halt>
    requires { length bytes.now ≤ MOST_BYTES }
    ensures { Performs Command.Check (is_loaded >=> makes Checking) bytes.now result }
{
    let job = load(alloc, bytes)?;
    count(alloc, &job)
}
