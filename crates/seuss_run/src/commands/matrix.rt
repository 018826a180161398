//! The command `matrix`.

ghost use Rattle.std.specs.Prelude.{◌≡◌, ◌≤◌, length, map, IfOk};
ghost use Rattle.compat_matrix.specs.declared.certificate.Certificate.{Certificate as CertificateOf};
ghost use Rattle.seuss_run.specs.Loadings.{Performs};
ghost use Rattle.seuss_run.specs.Preparations.{IsPrepared};
ghost use Rattle.seuss_run.specs.Stages.{◌>=>◌, makes};
ghost use Rattle.seuss_run.specs.Verdicts.{is_loaded, Comparing};
ghost use Rattle.seuss_run.specs.declared.reading.TheConstants.{MOST_BYTES};

use crate::answer::Answer;
use crate::halt::Halt;
use crate::loading::load;
use crate::preparing::{Prepared, prepare};
use crate::words::Command;
use compat_matrix::Certificate;
use report_text::matrix_text;
use seuss_base::{Level, List, Memory};
use std::alloc::Global;

/// The levels of certificates.
fn certified_levels(alloc: Global, certificates: &[Certificate]) -> Result<List<Level>, Memory>
    ensures { IfOk result (λ levels. levels ≡ map (λ (e : CertificateOf). e.level) certificates.now) }
{
    let mut levels = List::new(alloc);
    for certificate in certificates {
        levels.push(certificate.level)?;
    }
    Ok(levels)
}

/// Prints at which level each certificate of a program holds, and how far each action is safe beside each
/// other one.
fn compare(alloc: Global, prepared: &Prepared) -> Result<Answer, Halt>
    requires { IsPrepared prepared.now }
    ensures { Performs Command.Matrix (makes Comparing) (prepared.now.job.program, prepared.now.job.input)
        result }
{
    let job = &prepared.job;
    let levels = certified_levels(alloc, job.certificates.as_slice())?;
    Ok(Answer {
        status: 0,
        text: matrix_text(alloc, &job.program, &prepared.rows, &levels)?,
    })
}

/// What the command does with the bytes that were read.
pub(crate) fn perform(alloc: Global, bytes: &[u8]) -> Result<Answer, Halt>
    requires { length bytes.now ≤ MOST_BYTES }
    ensures { Performs Command.Matrix (is_loaded >=> makes Comparing) bytes.now result }
{
    let job = load(alloc, bytes)?;
    let prepared = prepare(alloc, job)?;
    compare(alloc, &prepared)
}
