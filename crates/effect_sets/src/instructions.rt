//! The variables that instructions read and write.

ghost use Rattle.std.specs.Prelude.{◌≡◌};
ghost use Rattle.std.specs.List.{list_any};
ghost use Rattle.effect_sets.specs.Masks.{read_mask, written_mask, add_read, add_written, is_call, is_again};

use crate::mentions::{bound, mentioned, mentioned_in, named};
use method_code::Instruction;

/// The variables that an instruction reads.
fn read_by(instruction: &Instruction) -> u32
    ensures { result ≡ read_mask instruction.now }
{
    match instruction {
        Instruction::Set(_, value) => mentioned(value),
        Instruction::SkipUnless(cond, _) => mentioned(cond),
        Instruction::Again(cond, _) => mentioned(cond),
        Instruction::Call(call) => mentioned_in(call.args.as_slice()),
        Instruction::Skip(_) | Instruction::Take(_) | Instruction::Return | Instruction::Reject =>
            0,
    }
}

/// The variable that an instruction writes.
fn written_by(instruction: &Instruction) -> u32
    ensures { result ≡ written_mask instruction.now }
{
    match instruction {
        Instruction::Set(name, _) => named(*name),
        Instruction::Take(name) => bound(*name),
        Instruction::SkipUnless(_, _)
        | Instruction::Skip(_)
        | Instruction::Again(_, _)
        | Instruction::Call(_)
        | Instruction::Return
        | Instruction::Reject => 0,
    }
}

/// The variables that instructions read.
pub fn read(instructions: &[Instruction]) -> u32
    ensures { result ≡ add_read 0 instructions.now }
{
    let mut set = 0;
    for instruction in instructions {
        set |= read_by(instruction);
    }
    set
}

/// The variables that instructions write.
pub fn written(instructions: &[Instruction]) -> u32
    ensures { result ≡ add_written 0 instructions.now }
{
    let mut set = 0;
    for instruction in instructions {
        set |= written_by(instruction);
    }
    set
}

/// Whether an instruction calls a method.
fn calls(instruction: &Instruction) -> bool
    ensures { result ≡ is_call instruction.now }
{
    matches!(instruction, Instruction::Call(_))
}

/// Whether an instruction ends a loop.
fn loops(instruction: &Instruction) -> bool
    ensures { result ≡ is_again instruction.now }
{
    matches!(instruction, Instruction::Again(_, _))
}

/// Whether some instruction calls a method.
pub fn has_call(instructions: &[Instruction]) -> bool
    ensures { result ≡ list_any is_call instructions.now }
{
    instructions.iter().any(|instruction| calls(instruction))
}

/// Whether some instruction ends a loop.
pub fn has_loop(instructions: &[Instruction]) -> bool
    ensures { result ≡ list_any is_again instructions.now }
{
    instructions.iter().any(|instruction| loops(instruction))
}
