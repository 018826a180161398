//! The code of statements.

ghost use Rattle.std.specs.Prelude.{◌≡◌, ◌≤◌, [], ◌∷◌, ◌++◌, length, IfOk, OnOk};
ghost use Rattle.std.specs.List.{flat_map};
ghost use Rattle.method_code.specs.Codes.{given_number as given_of, call_code, if_code as if_of};
ghost use Rattle.method_code.specs.Codes.{while_code as while_of, code_of};
ghost use Rattle.seuss_program.specs.Programs.{method_of};

use crate::copies::{copy_args, copy_expr};
use crate::instruction::{CallCode, Instruction};
use seuss_base::{List, Memory};
use seuss_program::{Call, Expr, Ref, Statement};
use std::alloc::Global;

/// The most instructions that the code of one procedure has.
pub const MOST_PLACES: u32 = 4000000000;

/// How many instructions there are, or `Memory` where they are more than there are places.
pub fn count(code: &List<Instruction>) -> Result<u32, Memory>
    ensures value { IfOk result (λ n. n ≡ length code.now) }
    ensures few { IfOk result (λ n. n ≤ 4000000000) }
{
    let many = code.len();
    if many > MOST_PLACES as u64 {
        return Err(Memory);
    }
    Ok(many as u32)
}

/// Puts instructions after others.
pub fn append(code: &mut List<Instruction>, part: List<Instruction>) -> Result<(), Memory>
    ensures { OnOk result (code.new ≡ code.old ++ part) }
{
    for instruction in part.into_vec() {
        code.push(instruction)?;
    }
    Ok(())
}

/// The number of the given box that a name stands for.
fn given_number(name: Ref) -> u32
    ensures { result ≡ given_of name }
{
    match name {
        Ref::Given(number) => number,
        Ref::Var(_) | Ref::Slot(_) | Ref::Method(_) | Ref::Cat(_) => 0,
    }
}

/// The number of the method that a name stands for.
fn method_number(name: Ref) -> u32
    ensures { result ≡ method_of name }
{
    match name {
        Ref::Method(number) => number,
        Ref::Var(_) | Ref::Slot(_) | Ref::Given(_) | Ref::Cat(_) => 0,
    }
}

/// A call, as the code has it.
pub fn emit_call(alloc: Global, call: &Call<Ref>) -> Result<CallCode, Memory>
    ensures { IfOk result (λ c. c ≡ call_code call.now) }
{
    let args = copy_args(alloc, call.args.as_slice())?;
    Ok(CallCode {
        target: given_number(call.target),
        method: method_number(call.method),
        args,
    })
}

/// The code of a choice, by that of its branches.
fn if_code(
    alloc: Global,
    cond: &Expr<Ref>,
    holds: List<Instruction>,
    fails: List<Instruction>,
) -> Result<List<Instruction>, Memory>
    ensures { IfOk result (λ code. code ≡ if_of cond.now holds fails) }
{
    let mut code = List::new(alloc);
    let cond = copy_expr(alloc, cond)?;
    code.push(Instruction::SkipUnless(cond, count(&holds)? + 1))?;
    append(&mut code, holds)?;
    code.push(Instruction::Skip(count(&fails)?))?;
    append(&mut code, fails)?;
    Ok(code)
}

/// The code of a loop, by that of a turn.
fn while_code(
    alloc: Global,
    cond: &Expr<Ref>,
    turn: List<Instruction>,
) -> Result<List<Instruction>, Memory>
    ensures { IfOk result (λ code. code ≡ while_of cond.now turn) }
{
    let mut code = List::new(alloc);
    let cond = copy_expr(alloc, cond)?;
    let many = count(&turn)?;
    code.push(Instruction::Skip(many))?;
    append(&mut code, turn)?;
    code.push(Instruction::Again(cond, many))?;
    Ok(code)
}

/// The code of one instruction.
pub fn one(alloc: Global, instruction: Instruction) -> Result<List<Instruction>, Memory>
    ensures { IfOk result (λ code. code ≡ instruction ∷ []) }
{
    let mut code = List::new(alloc);
    code.push(instruction)?;
    Ok(code)
}

/// The code of a statement.
#[cycle(emit)]
fn emit_statement(alloc: Global, statement: &Statement<Ref>) -> Result<List<Instruction>, Memory>
    ensures { IfOk result (λ code. code ≡ code_of statement.now) }
{
    match statement {
        Statement::Let { name, value, .. } => {
            one(alloc, Instruction::Set(*name, copy_expr(alloc, value)?))
        }
        Statement::Assign { name, value } => {
            one(alloc, Instruction::Set(*name, copy_expr(alloc, value)?))
        }
        Statement::Call { bind, call } => {
            let mut code = one(alloc, Instruction::Call(emit_call(alloc, call)?))?;
            code.push(Instruction::Take(*bind))?;
            Ok(code)
        }
        Statement::If { cond, yes, no } => {
            let holds = emit_body(alloc, yes.as_slice())?;
            let fails = emit_body(alloc, no.as_slice())?;
            if_code(alloc, cond, holds, fails)
        }
        Statement::While { cond, turn } => {
            let turn = emit_body(alloc, turn.as_slice())?;
            while_code(alloc, cond, turn)
        }
    }
}

/// The code of statements, in the order of the text.
#[cycle(emit)]
pub fn emit_body(alloc: Global, statements: &[Statement<Ref>]) -> Result<List<Instruction>, Memory>
    ensures { IfOk result (λ code. code ≡ flat_map code_of statements.now) }
{
    let mut code = List::new(alloc);
    for statement in statements {
        append(&mut code, emit_statement(alloc, statement)?)?;
    }
    Ok(code)
}
