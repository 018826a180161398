//! What is made of a loaded program once: its code, the plan of its calls, and the levels of its actions.

ghost use Rattle.std.specs.Prelude.{◌≡◌, IfOk};
ghost use Rattle.compat_matrix.specs.Certificates.{AreCertificates};
ghost use Rattle.seuss_program.specs.Keeping.{Keeps};
ghost use Rattle.seuss_run.specs.Preparations.{IsPrepared};

use crate::loading::Job;
use compat_matrix::matrix_of;
use loose_settings::laws::levels_make_a_setting;
use method_code::{Code, Plan, compile};
use seuss_base::{CompatRows, Memory};
use std::alloc::Global;

/// A program with its input and certificates, and what is made of it once: its code, the plan of its calls,
/// and the levels of its actions.
#[derive(Debug, Drop)]
pub(crate) struct Prepared {
    pub job: Job,
    pub code: Code,
    pub plan: Plan,
    pub rows: CompatRows,
}

/// What is made of a program once.
pub(crate) fn prepare(alloc: Global, job: Job) -> Result<Prepared, Memory>
    requires keeps { Keeps job.program }
    requires certified { AreCertificates job.program job.certificates }
    ensures same { IfOk result (λ prepared. prepared.job ≡ job) }
    ensures prepared { IfOk result IsPrepared }
{
    levels_make_a_setting();
    let code = compile(alloc, &job.program)?;
    let plan = Plan::of(alloc, &job.program)?;
    let rows = matrix_of(alloc, &job.program, &code, job.certificates.as_slice())?;
    Ok(Prepared {
        job,
        code,
        plan,
        rows,
    })
}
