//! The command `run`: a run by workers, each in a thread of its own.

ghost use Rattle.std.specs.Prelude.{◌≡◌, ◌≤◌, ◌*◌, All, IsTrue, IfOk, length};
ghost use Rattle.compat_matrix.specs.Certificates.{AreCertificates};
ghost use Rattle.loose_records.specs.LooseRecords.{IsLoose};
ghost use Rattle.loose_records.specs.Settings.{setting_of};
ghost use Rattle.seuss_program.specs.Initials.{initial};
ghost use Rattle.seuss_program.specs.Keeping.{Keeps};
ghost use Rattle.seuss_program.specs.Values.{fits};
ghost use Rattle.seuss_run.specs.Commands.{AreRunLimits};
ghost use Rattle.seuss_run.specs.Loadings.{Performs};
ghost use Rattle.seuss_run.specs.Preparations.{IsPrepared};
ghost use Rattle.seuss_run.specs.Runs.{IsReport};
ghost use Rattle.seuss_run.specs.Stages.{◌>=>◌};
ghost use Rattle.seuss_run.specs.Verdicts.{is_loaded, is_short};
ghost use Rattle.seuss_run.specs.declared.reading.TheConstants.{MOST_BYTES};

use crate::answer::Answer;
use crate::ends::{is_too_long, report_record};
use crate::halt::Halt;
use crate::loading::{Job, load};
use crate::preparing::{Prepared, prepare};
use crate::words::Command;
use loose_records::Record;
use meaning_laws::forms::starts_in_form;
use report_text::Refused;
use seuss_base::{Gate, Memory};
use seuss_program::initial_state;
use std::alloc::Global;
use std::sync::Wait;
use std::thread::Threads;
use worker_runs::run_by_workers;

/// The record of a run by workers.
fn record_run<H: Threads + Wait + Sync, G: Gate + Sync>(
    rt: &H,
    alloc: Global,
    rounds: u32,
    workers: u32,
    budget: u64,
    prepared: &Prepared,
    gate: &G,
) -> Result<Record, Memory>
    requires prepared { IsPrepared prepared.now }
    requires limits { AreRunLimits rounds workers budget }
    requires few { rounds * length prepared.now.job.program.actions ≤ 10000000 }
    requires input { All (λ z. IsTrue (fits z)) prepared.now.job.input }
    ensures first { IfOk result
        (λ made. made.first ≡ initial prepared.now.job.program prepared.now.job.input) }
    ensures loose { IfOk result
        (IsLoose (setting_of prepared.now.job.program prepared.now.rows rounds budget)) }
{
    starts_in_form();
    let job = &prepared.job;
    let rows = prepared.rows.copy(alloc)?;
    let state = initial_state(alloc, &job.program, &job.input)?;
    run_by_workers(
        rt,
        alloc,
        &job.program,
        &prepared.code,
        &prepared.plan,
        rows,
        state,
        rounds,
        budget,
        workers,
        gate,
    )
}

/// Runs a program with its input by workers, and prints the commit order of their record.
fn report_run<H: Threads + Wait + Sync, G: Gate + Sync>(
    rt: &H,
    alloc: Global,
    rounds: u32,
    workers: u32,
    budget: u64,
    prepared: &Prepared,
    gate: &G,
) -> Result<Answer, Memory>
    requires prepared { IsPrepared prepared.now }
    requires limits { AreRunLimits rounds workers budget }
    requires few { rounds * length prepared.now.job.program.actions ≤ 10000000 }
    requires input { All (λ z. IsTrue (fits z)) prepared.now.job.input }
    ensures { IfOk result
        (λ a. IsReport prepared.now.job.program prepared.now.job.input rounds budget a.status a.text) }
{
    let made = record_run(rt, alloc, rounds, workers, budget, prepared, gate)?;
    report_record(alloc, rounds, budget, prepared, &made)
}

/// Runs a program by workers where its run isn't too long.
fn run_short<H: Threads + Wait + Sync, G: Gate + Sync>(
    rt: &H,
    alloc: Global,
    rounds: u32,
    workers: u32,
    budget: u64,
    job: Job,
    gate: &G,
) -> Result<Answer, Halt>
    requires limits { AreRunLimits rounds workers budget }
    requires keeps { Keeps job.program }
    requires few { length job.program.actions ≤ 256 }
    requires input { All (λ z. IsTrue (fits z)) job.input }
    requires certified { AreCertificates job.program job.certificates }
    ensures { Performs (Command.Run rounds workers budget) (is_short rounds) (job.program, job.input) result }
{
    if is_too_long(&job.program, rounds) {
        return Err(Halt::Refused(Refused::Attempts));
    }
    let prepared = prepare(alloc, job)?;
    let answer = report_run(rt, alloc, rounds, workers, budget, &prepared, gate)?;
    Ok(answer)
}

/// What the command does with the bytes that were read.
pub(crate) fn perform<H: Threads + Wait + Sync, G: Gate + Sync>(
    rt: &H,
    alloc: Global,
    rounds: u32,
    workers: u32,
    budget: u64,
    bytes: &[u8],
    gate: &G,
) -> Result<Answer, Halt>
    requires short { length bytes.now ≤ MOST_BYTES }
    requires limits { AreRunLimits rounds workers budget }
    ensures { Performs (Command.Run rounds workers budget) (is_loaded >=> is_short rounds) bytes.now
        result }
{
    let job = load(alloc, bytes)?;
    run_short(rt, alloc, rounds, workers, budget, job, gate)
}
