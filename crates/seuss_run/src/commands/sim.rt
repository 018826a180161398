//! The command `sim`: a run by the turns of virtual workers.

ghost use Rattle.std.specs.Prelude.{◌≡◌, ◌<◌, ◌≤◌, ◌*◌, All, IsTrue, IfOk, length};
ghost use Rattle.compat_matrix.specs.Certificates.{AreCertificates};
ghost use Rattle.loose_records.specs.LooseRecords.{IsLoose};
ghost use Rattle.loose_records.specs.Turns.{IsRecordOfTurns};
ghost use Rattle.seuss_program.specs.Initials.{initial};
ghost use Rattle.seuss_program.specs.Keeping.{Keeps};
ghost use Rattle.seuss_program.specs.Values.{fits};
ghost use Rattle.seuss_run.specs.Commands.{AreTurnLimits};
ghost use Rattle.seuss_run.specs.Loadings.{Performs};
ghost use Rattle.seuss_run.specs.Preparations.{IsPrepared};
ghost use Rattle.seuss_run.specs.Simulations.{IsSimulated};
ghost use Rattle.seuss_run.specs.Stages.{◌>=>◌};
ghost use Rattle.seuss_run.specs.Verdicts.{is_loaded, is_short};
ghost use Rattle.seuss_run.specs.declared.reading.TheConstants.{MOST_BYTES};
ghost use Rattle.loose_records.specs.Settings.{setting_of};

use crate::answer::Answer;
use crate::ends::{is_too_long, report_record};
use crate::halt::Halt;
use crate::loading::{Job, load};
use crate::preparing::{Prepared, prepare};
use crate::words::Command;
use loose_records::Record;
use loose_records::laws::record_of_turns_is_loose;
use meaning_laws::forms::starts_in_form;
use report_text::Refused;
use seuss_base::{List, Memory};
use seuss_program::initial_state;
use std::alloc::Global;
use still_turns::run_on_engine;

/// The record of a run by turns.
fn record_turns(
    alloc: Global,
    rounds: u32,
    width: u32,
    turns: &[u8],
    budget: u64,
    prepared: &Prepared,
) -> Result<Record, Memory>
    requires prepared { IsPrepared prepared.now }
    requires limits { AreTurnLimits rounds width turns.now budget }
    requires few { rounds * length prepared.now.job.program.actions ≤ 10000000 }
    requires input { All (λ z. IsTrue (fits z)) prepared.now.job.input }
    ensures by_turns { IfOk result (IsRecordOfTurns
        (setting_of prepared.now.job.program prepared.now.rows rounds budget)
        (initial prepared.now.job.program prepared.now.job.input) width turns.now) }
    ensures first { IfOk result
        (λ made. made.first ≡ initial prepared.now.job.program prepared.now.job.input) }
    ensures loose { IfOk result
        (IsLoose (setting_of prepared.now.job.program prepared.now.rows rounds budget)) }
{
    starts_in_form();
    record_of_turns_is_loose();
    let job = &prepared.job;
    let rows = prepared.rows.copy(alloc)?;
    let state = initial_state(alloc, &job.program, &job.input)?;
    run_on_engine(
        alloc,
        &job.program,
        &prepared.code,
        &prepared.plan,
        rows,
        state,
        rounds,
        budget,
        width,
        turns,
    )
}

/// Prints the commit order of a run by turns.
fn report_turns(
    alloc: Global,
    rounds: u32,
    width: u32,
    turns: &[u8],
    budget: u64,
    prepared: &Prepared,
) -> Result<Answer, Memory>
    requires prepared { IsPrepared prepared.now }
    requires limits { AreTurnLimits rounds width turns.now budget }
    requires few { rounds * length prepared.now.job.program.actions ≤ 10000000 }
    requires input { All (λ z. IsTrue (fits z)) prepared.now.job.input }
    ensures { IfOk result (λ a. IsSimulated (prepared.now.job.program, prepared.now.job.input) rounds width
        turns.now budget a.status a.text) }
{
    let made = record_turns(alloc, rounds, width, turns, budget, prepared)?;
    report_record(alloc, rounds, budget, prepared, &made)
}

/// Runs a program by turns where its run isn't too long.
fn run_short(
    alloc: Global,
    rounds: u32,
    width: u32,
    turns: &List<u8>,
    budget: u64,
    job: Job,
) -> Result<Answer, Halt>
    requires limits { AreTurnLimits rounds width turns.now budget }
    requires keeps { Keeps job.program }
    requires few { length job.program.actions ≤ 256 }
    requires input { All (λ z. IsTrue (fits z)) job.input }
    requires certified { AreCertificates job.program job.certificates }
    ensures { Performs (Command.Sim rounds width turns.now budget) (is_short rounds)
        (job.program, job.input) result }
{
    if is_too_long(&job.program, rounds) {
        return Err(Halt::Refused(Refused::Attempts));
    }
    let prepared = prepare(alloc, job)?;
    let answer = report_turns(alloc, rounds, width, turns.as_slice(), budget, &prepared)?;
    Ok(answer)
}

/// What the command does with the bytes that were read.
pub(crate) fn perform(
    alloc: Global,
    rounds: u32,
    width: u32,
    turns: &List<u8>,
    budget: u64,
    bytes: &[u8],
) -> Result<Answer, Halt>
    requires short { length bytes.now ≤ MOST_BYTES }
    requires limits { AreTurnLimits rounds width turns.now budget }
    ensures { Performs (Command.Sim rounds width turns.now budget) (is_loaded >=> is_short rounds) bytes.now
        result }
{
    let job = load(alloc, bytes)?;
    run_short(alloc, rounds, width, turns, budget, job)
}
