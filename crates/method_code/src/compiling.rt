//! Programs compiled to code.

ghost use Rattle.std.specs.Prelude.{◌≡◌, ◌≤◌, [], ◌∷◌, ◌++◌, length, map, All, IfOk, OnOk};
ghost use Rattle.std.specs.List.{flat_map};
ghost use Rattle.method_code.specs.declared.instruction.Instruction.TheVariants.{Reject as Rejects};
ghost use Rattle.method_code.specs.declared.method.Entry.TheVariants.{Partial as MayReject};
ghost use Rattle.method_code.specs.Codes.{early_of, take_code, last_code, alternative_code};
ghost use Rattle.method_code.specs.Codes.{heads as heads_of};
ghost use Rattle.method_code.specs.Codes.{entry_of, form_code, method_code, cats_code, compiled};
ghost use Rattle.method_code.specs.Fits.{Fits, HasStarts};

use crate::code::Code;
use crate::copies::copy_expr;
use crate::emitting::{append, count, emit_body, emit_call, one};
use crate::instruction::{CallCode, Instruction};
use crate::method::{Entry, Head, Method};
use seuss_base::{List, Memory};
use seuss_program::{Alternative, Cat, Form, Pre, Proc, Program, Ref};
use std::alloc::Global;
use tight_order::first_slots;

/// The call of a preprocedure, where there is one.
fn early_call(alloc: Global, pre: &Option<Pre<Ref>>) -> Result<Option<CallCode>, Memory>
    ensures { IfOk result (λ call. call ≡ early_of pre.now) }
{
    match pre {
        None => Ok(None),
        Some(pre) => Ok(Some(emit_call(alloc, &pre.call)?)),
    }
}

/// The code of an alternative: it takes the result of its preprocedure, runs its body, and accepts or
/// rejects.
fn emit_alternative(
    alloc: Global,
    alternative: &Alternative<Ref>,
) -> Result<List<Instruction>, Memory>
    ensures { IfOk result (λ code. code ≡ alternative_code alternative.now) }
{
    let mut code = emit_take(alloc, &alternative.pre)?;
    append(&mut code, emit_body(alloc, alternative.body.as_slice())?)?;
    let last = if alternative.positive {
        Instruction::Return
    } else {
        Instruction::Reject
    };
    code.push(last)?;
    Ok(code)
}

/// The instruction that takes the result of a preprocedure, where there is one.
fn emit_take(alloc: Global, pre: &Option<Pre<Ref>>) -> Result<List<Instruction>, Memory>
    ensures { IfOk result (λ code. code ≡ take_code pre.now) }
{
    match pre {
        None => Ok(List::new(alloc)),
        Some(pre) => one(alloc, Instruction::Take(pre.bind)),
    }
}

/// How an alternative begins, whose code starts at this instruction.
fn head_of(alloc: Global, alternative: &Alternative<Ref>, start: u32) -> Result<Head, Memory>
    ensures { IfOk result
        (λ h. h ≡ record {
          cond = alternative.now.cond;
          early = early_of alternative.now.pre;
          start =
              start;
        }) }
{
    let cond = copy_expr(alloc, &alternative.cond)?;
    let early = early_call(alloc, &alternative.pre)?;
    Ok(Head { cond, early, start })
}

/// The code of alternatives, after a rejection, and how each of them begins.
fn emit_choice(
    alloc: Global,
    alternatives: &[Alternative<Ref>],
) -> Result<(List<Head>, List<Instruction>), Memory>
    ensures heads { IfOk result (λ found. found.0 ≡ heads_of 1 alternatives.now) }
    ensures code { IfOk result (λ found. found.1 ≡ Rejects ∷ flat_map alternative_code alternatives.now) }
    ensures starts { IfOk result (λ found. All (λ h. h.start ≤ 4000000000) found.0) }
{
    let mut heads = List::new(alloc);
    let mut code = one(alloc, Instruction::Reject)?;
    for alternative in alternatives {
        heads.push(head_of(alloc, alternative, count(&code)?)?)?;
        append(&mut code, emit_alternative(alloc, alternative)?)?;
    }
    Ok((heads, code))
}

/// How a procedure of a form begins, and its code.
fn emit_form(alloc: Global, form: &Form<Ref>) -> Result<(Entry, List<Instruction>), Memory>
    ensures entry { IfOk result (λ found. found.0 ≡ entry_of form.now) }
    ensures code { IfOk result (λ found. found.1 ≡ form_code form.now) }
    ensures starts { IfOk result (λ found. HasStarts found.0) }
{
    match form {
        Form::Total(body) => {
            let mut code = emit_body(alloc, body.as_slice())?;
            code.push(Instruction::Return)?;
            Ok((Entry::Total, code))
        }
        Form::Partial(alternatives) => {
            let (heads, code) = emit_choice(alloc, alternatives.as_slice())?;
            Ok((Entry::Partial(heads), code))
        }
        Form::Action(alternatives) => {
            let (heads, code) = emit_choice(alloc, alternatives.as_slice())?;
            Ok((Entry::Partial(heads), code))
        }
    }
}

/// The code of a procedure.
fn compile_procedure(alloc: Global, proc: &Proc<Ref>) -> Result<Method, Memory>
    ensures code { IfOk result (λ m. m ≡ method_code proc.now) }
    ensures fits { IfOk result Fits }
{
    let locals = first_slots(alloc, proc)?;
    let (entry, instructions) = emit_form(alloc, &proc.form)?;
    count(&instructions)?;
    let result = if proc.gives {
        Some(proc.params.len())
    } else {
        None
    };
    Ok(Method {
        entry,
        locals,
        result,
        instructions,
    })
}

/// Adds the code of procedures, in their order.
fn add_procedures(
    alloc: Global,
    procs: &[Proc<Ref>],
    methods: &mut List<Method>,
) -> Result<(), Memory>
    requires { All Fits methods.old }
    ensures code { OnOk result (methods.new ≡ methods.old ++ map method_code procs.now) }
    ensures fits { OnOk result (All Fits methods.new) }
{
    for proc in procs {
        methods.push(compile_procedure(alloc, proc)?)?;
    }
    Ok(())
}

/// The code of all procedures of cats, in their order.
fn compile_cats(alloc: Global, cats: &[Cat<Ref>]) -> Result<List<Method>, Memory>
    ensures code { IfOk result (λ methods. methods ≡ cats_code cats.now) }
    ensures fits { IfOk result (λ methods. All Fits methods) }
{
    let mut methods = List::new(alloc);
    for cat in cats {
        add_procedures(alloc, cat.procs.as_slice(), &mut methods)?;
    }
    Ok(methods)
}

/// Compiles a program. Each procedure becomes code of its own, numbered over all cats in order.
/// `Memory` comes too where a place or a method has no number of 32 bits.
pub fn compile(alloc: Global, program: &Program) -> Result<Code, Memory>
    ensures { IfOk result (λ code. code ≡ compiled program.now) }
{
    let methods = compile_cats(alloc, program.cats.as_slice())?;
    if methods.len() > u32::MAX as u64 {
        return Err(Memory);
    }
    Ok(Code { methods })
}
