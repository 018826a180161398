//! What the bytes that were read are: a program, its input and its certificates, or why they are refused.

ghost use Rattle.std.specs.Prelude.{◌≤◌, length, All, IsTrue, IfOk};
ghost use Rattle.seuss_run.specs.Loadings.{Meets};
ghost use Rattle.seuss_run.specs.declared.reading.TheConstants.{MOST_BYTES};
ghost use Rattle.compat_matrix.specs.Certificates.{AreCertificates};
ghost use Rattle.seuss_run.specs.Verdicts.{has_tokens, has_tree, is_spelled, is_resolved, is_ordered};
ghost use Rattle.seuss_run.specs.Verdicts.{has_input};
ghost use Rattle.seuss_run.specs.Verdicts.{is_certified, is_loaded, is_loaded_parts, has_tree_alone};
ghost use Rattle.seuss_run.specs.Stages.{◌>=>◌};
ghost use Rattle.seuss_print.specs.Printable.{IsPrintable};
ghost use Rattle.seuss_program.specs.Keeping.{Keeps};
ghost use Rattle.seuss_program.specs.Values.{fits};
ghost use Rattle.seuss_program.specs.WellFormed.{IsWellFormed};
ghost use Rattle.seuss_text.specs.Rows.{AreTokens};
ghost use Rattle.seuss_text.specs.Limits.{AreInLimits};

use crate::halt::Halt;
use crate::split::split;
use box_types::{CheckRefusal, Resolved, resolve};
use call_order::{OrderRefusal, order};
use compat_matrix::laws::one_refusal;
use compat_matrix::{Certificate, MatrixRefusal, certificates};
use report_text::Refused;
use seuss_base::{Ints, List, Memory};
use seuss_parser::{InputRefusal, ParseRefusal, parse, parse_input};
use seuss_print::parsed_is_printable;
use seuss_program::{Program, Tree};
use seuss_text::{TextRefusal, Tokens, tokens};
use std::alloc::Global;

/// A program with its input, and its certificates, each of which holds.
#[derive(Debug, Drop)]
pub(crate) struct Job {
    pub program: Program,
    pub input: Ints,
    pub certificates: List<Certificate>,
}

/// The tokens of a text.
fn text_tokens(alloc: Global, text: &[u8]) -> Result<Tokens, Halt>
    ensures { Meets has_tokens text.now (λ found. (text.now, found.list)) result }
{
    match tokens(alloc, text) {
        Ok(found) => Ok(found),
        Err(TextRefusal::TooLong) => Err(Halt::Refused(Refused::Long)),
        Err(TextRefusal::BadByte(line)) => Err(Halt::Refused(Refused::Byte(line))),
        Err(TextRefusal::Range(line)) => Err(Halt::Refused(Refused::Range(line))),
        Err(TextRefusal::Memory) => Err(Halt::Memory),
    }
}

/// The tree that tokens spell.
fn tokens_tree(alloc: Global, text: &[u8], tokens: &Tokens) -> Result<Tree, Halt>
    requires tokens { AreTokens text.now tokens.now.list }
    requires limits { AreInLimits text.now tokens.now.list }
    ensures meets { Meets has_tree (text.now, tokens.now.list) (λ tree. tree) result }
    ensures printable { IfOk result IsPrintable }
{
    parsed_is_printable();
    match parse(alloc, text, tokens) {
        Ok(tree) => Ok(tree),
        Err(ParseRefusal::Syntax(line)) => Err(Halt::Refused(Refused::Syntax(line))),
        Err(ParseRefusal::Nesting(line)) => Err(Halt::Refused(Refused::Nesting(line))),
        Err(ParseRefusal::Memory) => Err(Halt::Memory),
    }
}

/// The tree that a text spells.
pub(crate) fn text_tree(alloc: Global, text: &[u8]) -> Result<Tree, Halt>
    ensures meets { Meets is_spelled text.now (λ tree. tree) result }
    ensures printable { IfOk result IsPrintable }
{
    let tokens = text_tokens(alloc, text)?;
    tokens_tree(alloc, text, &tokens)
}

/// A tree whose names, types and counts are right.
fn resolved_tree(alloc: Global, tree: Tree) -> Result<Resolved, Halt>
    requires { IsWellFormed tree }
    ensures { Meets is_resolved tree (λ resolved. resolved) result }
{
    match resolve(alloc, tree) {
        Ok(resolved) => Ok(resolved),
        Err(CheckRefusal::Twice(line)) => Err(Halt::Refused(Refused::Twice(line))),
        Err(CheckRefusal::Unknown(line)) => Err(Halt::Refused(Refused::Unknown(line))),
        Err(CheckRefusal::WrongKind(line)) => Err(Halt::Refused(Refused::WrongKind(line))),
        Err(CheckRefusal::WrongType(line)) => Err(Halt::Refused(Refused::WrongType(line))),
        Err(CheckRefusal::Arguments(line)) => Err(Halt::Refused(Refused::Arguments(line))),
        Err(CheckRefusal::Count(line)) => Err(Halt::Refused(Refused::Count(line))),
        Err(CheckRefusal::Memory) => Err(Halt::Memory),
    }
}

/// The program of a tree whose calls and boxes are in order too.
fn ordered_program(alloc: Global, resolved: Resolved) -> Result<Program, Halt>
    ensures meets { Meets is_ordered resolved (λ program. program) result }
    ensures keeps { IfOk result Keeps }
    ensures few { IfOk result (λ p. length p.actions ≤ 256) }
{
    match order(alloc, resolved) {
        Ok(program) => Ok(program),
        Err(OrderRefusal::PartialCall(line)) => Err(Halt::Refused(Refused::PartialCall(line))),
        Err(OrderRefusal::TotalCall(line)) => Err(Halt::Refused(Refused::TotalCall(line))),
        Err(OrderRefusal::Cycle { line, first: _ }) => Err(Halt::Refused(Refused::Cycle(line))),
        Err(OrderRefusal::Memory) => Err(Halt::Memory),
    }
}

/// The program that a text spells.
pub(crate) fn text_program(alloc: Global, text: &[u8]) -> Result<Program, Halt>
    ensures meets { Meets (is_spelled >=> is_resolved >=> is_ordered) text.now (λ program. program) result }
    ensures keeps { IfOk result Keeps }
    ensures few { IfOk result (λ p. length p.actions ≤ 256) }
{
    let tree = text_tree(alloc, text)?;
    let resolved = resolved_tree(alloc, tree)?;
    ordered_program(alloc, resolved)
}

/// The numbers of an input.
fn text_input(alloc: Global, text: &[u8]) -> Result<Ints, Halt>
    ensures meets { Meets has_input text.now (λ numbers. numbers) result }
    ensures fit { IfOk result (All (λ z. IsTrue (fits z))) }
{
    match parse_input(alloc, text) {
        Ok(numbers) => Ok(numbers),
        Err(InputRefusal::TooLong) => Err(Halt::Refused(Refused::Long)),
        Err(InputRefusal::Bad(line)) => Err(Halt::Refused(Refused::Input(line))),
        Err(InputRefusal::Memory) => Err(Halt::Memory),
    }
}

/// The certificates of a program, each of which holds.
pub(crate) fn held_certificates(alloc: Global, program: &Program) -> Result<List<Certificate>, Halt>
    requires { Keeps program.now }
    ensures meets { Meets is_certified program.now (λ _. program.now) result }
    ensures held { IfOk result (AreCertificates program.now) }
{
    one_refusal();
    match certificates(alloc, program) {
        Ok(held) => Ok(held),
        Err(MatrixRefusal::No { line, .. }) => Err(Halt::Refused(Refused::CertificateNo(line))),
        Err(MatrixRefusal::Unclear { line, .. }) => {
            Err(Halt::Refused(Refused::CertificateUnclear(line)))
        }
        Err(MatrixRefusal::Memory) => Err(Halt::Memory),
    }
}

/// A program with its input, out of the two parts of the bytes.
fn load_parts(alloc: Global, text: &[u8], rest: &[u8]) -> Result<Job, Halt>
    ensures meets { Meets is_loaded_parts (text.now, rest.now) (λ job. (job.program, job.input)) result }
    ensures keeps { IfOk result (λ job. Keeps job.program) }
    ensures few { IfOk result (λ job. length job.program.actions ≤ 256) }
    ensures fit { IfOk result (λ job. All (λ z. IsTrue (fits z)) job.input) }
    ensures certified { IfOk result (λ job. AreCertificates job.program job.certificates) }
{
    let program = text_program(alloc, text)?;
    let input = text_input(alloc, rest)?;
    let certificates = held_certificates(alloc, &program)?;
    Ok(Job {
        program,
        input,
        certificates,
    })
}

/// A program with its input, out of the bytes that were read.
pub(crate) fn load(alloc: Global, bytes: &[u8]) -> Result<Job, Halt>
    requires { length bytes.now ≤ MOST_BYTES }
    ensures meets { Meets is_loaded bytes.now (λ job. (job.program, job.input)) result }
    ensures keeps { IfOk result (λ job. Keeps job.program) }
    ensures few { IfOk result (λ job. length job.program.actions ≤ 256) }
    ensures fit { IfOk result (λ job. All (λ z. IsTrue (fits z)) job.input) }
    ensures certified { IfOk result (λ job. AreCertificates job.program job.certificates) }
{
    let (text, rest) = split(bytes);
    load_parts(alloc, text, rest)
}

/// The tree of the program part of the bytes that were read.
pub(crate) fn load_tree(alloc: Global, bytes: &[u8]) -> Result<Tree, Halt>
    requires { length bytes.now ≤ MOST_BYTES }
    ensures meets { Meets has_tree_alone bytes.now (λ tree. tree) result }
    ensures printable { IfOk result IsPrintable }
{
    let (text, _) = split(bytes);
    text_tree(alloc, text)
}
