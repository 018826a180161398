//! The procedures of an action, found from box to box downward.

ghost use Rattle.std.specs.Prelude.{◌≡◌, ℕ, ◌+◌, ◌<◌, ◌≤◌, [], ◌∷◌, length, OnOk, IfOk, slice_index_or};
ghost use Rattle.std.specs.Bool.{OnTrue};
ghost use Rattle.seuss_program.specs.declared.program.ActionInfo.{ActionInfo};
ghost use Rattle.seuss_program.specs.declared.tree.Ref.TheVariants.{Given};
ghost use Rattle.seuss_program.specs.Programs.{target_of};
ghost use Rattle.seuss_program.specs.Keeping.{Keeps};
ghost use Rattle.method_code.specs.Codes.{compiled};
ghost use Rattle.compat_matrix.specs.declared.part.Part.TheVariants.{Line};
ghost use Rattle.compat_matrix.specs.Members.{IsAt, Lists, FindsEffects, Adds, IsOne, IsCalled, IsBegun};
ghost use Rattle.compat_matrix.specs.Members.{heads_of, CodeCalls, IsOnTheWay, AreMembers};

use crate::Part;
use crate::member::Member;
use effect_sets::{Effects, effects};
use method_code::{Code, Entry, Head, Instruction, Method, number_of};
use seuss_base::{List, Memory};
use seuss_program::{ActionInfo, BoxInfo, Program};
use std::alloc::Global;

/// A box is of a level of at most 128, and each call goes to a lower one.
const ROUNDS: u32 = 129;

/// The procedures of the line and the tail of an action.
pub(crate) fn members(
    alloc: Global,
    program: &Program,
    code: &Code,
    action: &ActionInfo,
) -> Result<List<Member>, Memory>
    requires keeps { Keeps program.now }
    requires compiled { code.now ≡ compiled program.now }
    ensures { IfOk result (AreMembers program.now action.now) }
{
    let mut members = List::new(alloc);
    add(
        program,
        code,
        &mut members,
        action.box_number,
        action.procedure,
        Part::Line,
    )?;
    let mut start = 0;
    for _ in 0..ROUNDS {
        let end = members.len();
        add_round(program, code, &mut members, start, end)?;
        start = end;
    }
    Ok(members)
}

/// Adds what the members from a place on up to an end call.
fn add_round(
    program: &Program,
    code: &Code,
    members: &mut List<Member>,
    start: u64,
    end: u64,
) -> Result<(), Memory>
    requires keeps { Keeps program.now }
    requires compiled { code.now ≡ compiled program.now }
    requires first { start ≤ end }
    requires within { end ≤ length members.old }
    ensures way { OnOk result ((a : ActionInfo) (round : ℕ) →
        IsOnTheWay program.now a members.old start end round →
        IsOnTheWay program.now a members.new end end round) }
    ensures more { OnOk result (length members.old ≤ length members.new) }
{
    for at in start..end {
        add_below(program, code, members, at)?;
    }
    Ok(())
}

/// Adds what one of the members calls.
fn add_below(
    program: &Program,
    code: &Code,
    members: &mut List<Member>,
    at: u64,
) -> Result<(), Memory>
    requires keeps { Keeps program.now }
    requires compiled { code.now ≡ compiled program.now }
    requires within { at < length members.old }
    ensures way { OnOk result ((a : ActionInfo) (end round : ℕ) → at < end →
        IsOnTheWay program.now a members.old at end round →
        IsOnTheWay program.now a members.new (at + 1) end round) }
    ensures more { OnOk result (length members.old ≤ length members.new) }
{
    let member = &members.as_slice()[at as usize];
    let box_number = member.box_number;
    let part = member.part;
    let number = number_of(code, program, box_number, member.procedure);
    match code.method(number) {
        Some(method) => add_called(program, code, members, box_number, part, method),
        None => Ok(()),
    }
}

/// Adds what the code of a procedure of a box calls; its preprocedures where it stands in the line.
fn add_called(
    program: &Program,
    code: &Code,
    members: &mut List<Member>,
    box_number: u32,
    part: Part,
    method: &Method,
) -> Result<(), Memory>
    requires { code.now ≡ compiled program.now }
    ensures { OnOk result
        (Adds program.now members.old members.new (CodeCalls program.now box_number part method.now)) }
{
    let instructions = method.instructions.as_slice();
    match part {
        Part::Line => {
            add_early(program, code, members, box_number, &method.entry)?;
            add_calls(program, code, members, box_number, instructions)
        }
        Part::Tail => add_calls(program, code, members, box_number, instructions),
    }
}

/// Adds the preprocedures that a procedure of a box calls.
fn add_early(
    program: &Program,
    code: &Code,
    members: &mut List<Member>,
    box_number: u32,
    entry: &Entry,
) -> Result<(), Memory>
    requires { code.now ≡ compiled program.now }
    ensures { OnOk result
        (Adds program.now members.old members.new (IsBegun program.now box_number (heads_of entry.now))) }
{
    match entry {
        Entry::Total => Ok(()),
        Entry::Partial(heads) => add_heads(program, code, members, box_number, heads.as_slice()),
    }
}

fn add_heads(
    program: &Program,
    code: &Code,
    members: &mut List<Member>,
    box_number: u32,
    heads: &[Head],
) -> Result<(), Memory>
    requires { code.now ≡ compiled program.now }
    ensures { OnOk result
        (Adds program.now members.old members.new (IsBegun program.now box_number heads.now)) }
{
    for head in heads {
        add_head(program, code, members, box_number, head)?;
    }
    Ok(())
}

fn add_head(
    program: &Program,
    code: &Code,
    members: &mut List<Member>,
    box_number: u32,
    head: &Head,
) -> Result<(), Memory>
    requires { code.now ≡ compiled program.now }
    ensures { OnOk result
        (Adds program.now members.old members.new (IsBegun program.now box_number (head.now ∷ []))) }
{
    match &head.early {
        Some(call) => {
            let below = target(program, box_number, call.target);
            add(program, code, members, below, call.method, Part::Line)
        }
        None => Ok(()),
    }
}

/// Adds the methods that instructions of a procedure of a box call.
fn add_calls(
    program: &Program,
    code: &Code,
    members: &mut List<Member>,
    box_number: u32,
    instructions: &[Instruction],
) -> Result<(), Memory>
    requires { code.now ≡ compiled program.now }
    ensures { OnOk result
        (Adds program.now members.old members.new (IsCalled program.now box_number instructions.now)) }
{
    for instruction in instructions {
        add_call(program, code, members, box_number, instruction)?;
    }
    Ok(())
}

fn add_call(
    program: &Program,
    code: &Code,
    members: &mut List<Member>,
    box_number: u32,
    instruction: &Instruction,
) -> Result<(), Memory>
    requires { code.now ≡ compiled program.now }
    ensures { OnOk result
        (Adds program.now members.old members.new (IsCalled program.now box_number (instruction.now ∷ []))) }
{
    match instruction {
        Instruction::Call(call) => {
            let below = target(program, box_number, call.target);
            add(program, code, members, below, call.method, Part::Tail)
        }
        Instruction::Set(_, _)
        | Instruction::SkipUnless(_, _)
        | Instruction::Skip(_)
        | Instruction::Again(_, _)
        | Instruction::Take(_)
        | Instruction::Return
        | Instruction::Reject => Ok(()),
    }
}

/// The box that the number of a given box stands for, as a box sees it.
fn target(program: &Program, box_number: u32, given: u32) -> u32
    ensures { result ≡ target_of program.now box_number (Given given) }
{
    match program.boxes.get(box_number as u64) {
        Some(info) => given_box(info, given),
        None => 0,
    }
}

fn given_box(info: &BoxInfo, given: u32) -> u32
    ensures { result ≡ slice_index_or info.now.given given 0 }
{
    match info.given.as_slice().get(given as usize) {
        Some(number) => *number,
        None => 0,
    }
}

/// Adds a procedure of a box, where it is there and not listed yet.
fn add(
    program: &Program,
    code: &Code,
    members: &mut List<Member>,
    box_number: u32,
    procedure: u32,
    part: Part,
) -> Result<(), Memory>
    requires { code.now ≡ compiled program.now }
    ensures { OnOk result (Adds program.now members.old members.new (IsOne box_number procedure part)) }
{
    if is_listed(members.as_slice(), box_number, procedure, part) {
        return Ok(());
    }
    match effects_at(program, code, box_number, procedure) {
        Some(effects) => members.push(Member {
            box_number,
            procedure,
            part,
            effects,
        }),
        None => Ok(()),
    }
}

/// The effects of a procedure of a box, where it is there.
fn effects_at(program: &Program, code: &Code, box_number: u32, procedure: u32) -> Option<Effects>
    requires { code.now ≡ compiled program.now }
    ensures { FindsEffects program.now box_number procedure result }
{
    let number = number_of(code, program, box_number, procedure);
    match code.method(number) {
        Some(_) => Some(effects(code, number)),
        None => None,
    }
}

/// Whether a list has a procedure of a box.
fn is_listed(members: &[Member], box_number: u32, procedure: u32, part: Part) -> bool
    ensures { OnTrue result (Lists members.now box_number procedure part) }
{
    for member in members {
        if is_at(member, box_number, procedure, part) {
            return true;
        }
    }
    false
}

fn is_at(member: &Member, box_number: u32, procedure: u32, part: Part) -> bool
    ensures { OnTrue result (IsAt member.now box_number procedure part) }
{
    member.box_number == box_number && member.procedure == procedure && member.part == part
}
