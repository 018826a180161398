//! The certificates of a program, decided one after the other.

ghost use Rattle.std.specs.Prelude.{◌≡◌, ℕ, ◌+◌, ◌≤◌, List as ListOf, length, drop, slice_get, Some, OnOk};
ghost use Rattle.std.specs.Prelude.{IfOk};
ghost use Rattle.std.specs.Prelude.{IfErr};
ghost use Rattle.seuss_program.specs.declared.tree.Ref.{Ref as RefOf};
ghost use Rattle.seuss_program.specs.declared.tree.Cat.{Cat as CatOf};
ghost use Rattle.seuss_program.specs.declared.tree.Ref.TheVariants.{Method};
ghost use Rattle.seuss_program.specs.Keeping.{Keeps};
ghost use Rattle.method_code.specs.Codes.{compiled};
ghost use Rattle.compat_matrix.specs.declared.certificate.Certificate.{Certificate as CertificateOf};
ghost use Rattle.compat_matrix.specs.Certificates.{written_from, AreCertificates, AreLevels, Refuses};
ghost use Rattle.compat_matrix.specs.Deciding.{Answers, SoFar};

use crate::certificate::Certificate;
use crate::levels::matrix_of;
use crate::refusal::MatrixRefusal;
use commute_certs::{Verdict, decide};
use method_code::Code;
use seuss_base::{CompatRows, List};
use seuss_program::{Cat, Program, Ref, Semi};
use std::alloc::Global;

/// The number of a method.
fn number(name: Ref) -> u32
    ensures { (n : ℕ) → name ≡ Method n → result ≡ n }
{
    match name {
        Ref::Method(number) => number,
        Ref::Var(_) => 0,
        Ref::Slot(_) => 0,
        Ref::Given(_) => 0,
        Ref::Cat(_) => 0,
    }
}

/// Decides one certificate of a cat, by its number.
fn certificate(
    alloc: Global,
    program: &Program,
    cat: u32,
    at: u32,
    semi: &Semi<Ref>,
) -> Result<Certificate, MatrixRefusal>
    requires { Keeps program.now }
    ensures { (own : CatOf RefOf) → slice_get program.now.cats cat ≡ Some own →
        slice_get own.semis at ≡ Some semi.now →
        Answers (cat, (own, semi.now)) result }
{
    commute_certs::laws::one_verdict();
    match decide(alloc, program, cat, at)? {
        Verdict::Yes(level) => Ok(Certificate {
            cat,
            first: number(semi.first),
            second: number(semi.second),
            level,
        }),
        Verdict::No {
            vars,
            first,
            second,
        } => Err(MatrixRefusal::No {
            line: semi.line,
            vars,
            first,
            second,
        }),
        Verdict::Unclear(why) => Err(MatrixRefusal::Unclear {
            line: semi.line,
            why,
        }),
    }
}

/// Adds the certificates of a cat.
fn add_of_cat(
    alloc: Global,
    program: &Program,
    cat: u32,
    own: &Cat<Ref>,
    certificates: &mut List<Certificate>,
) -> Result<(), MatrixRefusal>
    requires keeps { Keeps program.now }
    requires there { slice_get program.now.cats cat ≡ Some own.now }
    requires few { length own.now.semis ≤ 64 }
    requires before { SoFar program.now (written_from cat (drop cat program.now.cats)) certificates.old }
    ensures ok { OnOk result
        (SoFar program.now (written_from (cat + 1) (drop (cat + 1) program.now.cats)) certificates.new) }
    ensures refused { IfErr result (Refuses program.now) }
{
    for at in 0..own.semis.len() as u32 {
        let semi = &own.semis.as_slice()[at as usize];
        certificates.push(certificate(alloc, program, cat, at, semi)?)?;
    }
    Ok(())
}

/// The certificates of a program by numbers, in the order of the text, each with the highest level at which
/// it holds. Refused is the first one in the order of the text that doesn't hold, or of which it isn't told
/// whether it does.
pub fn certificates(alloc: Global, program: &Program) -> Result<List<Certificate>, MatrixRefusal>
    requires { Keeps program.now }
    ensures found { IfOk result (AreCertificates program.now) }
    ensures refused { IfErr result (Refuses program.now) }
{
    let mut certificates = List::new(alloc);
    for cat in 0..program.cats.len() as u32 {
        let own = &program.cats.as_slice()[cat as usize];
        add_of_cat(alloc, program, cat, own, &mut certificates)?;
    }
    Ok(certificates)
}

/// How far each action is safe beside each other one, by the certificates of the program. Refused is the
/// first one in the order of the text that doesn't hold, or of which it isn't told whether it does.
pub fn matrix(alloc: Global, program: &Program, code: &Code) -> Result<CompatRows, MatrixRefusal>
    requires keeps { Keeps program.now }
    requires compiled { code.now ≡ compiled program.now }
    ensures levels { IfOk result (λ rows. (es : ListOf CertificateOf) × AreLevels program.now es rows) }
    ensures refused { IfErr result (Refuses program.now) }
{
    let certificates = certificates(alloc, program)?;
    Ok(matrix_of(alloc, program, code, certificates.as_slice())?)
}
