//! What each command does with the bytes that were read.

ghost use Rattle.std.specs.Prelude.{◌≤◌, length};
ghost use Rattle.seuss_run.specs.Commands.{HasLimits};
ghost use Rattle.seuss_run.specs.Loadings.{Performs};
ghost use Rattle.seuss_run.specs.Served.{IsStill};
ghost use Rattle.seuss_run.specs.Verdicts.{IsVerdict};
ghost use Rattle.seuss_run.specs.declared.reading.TheConstants.{MOST_BYTES};

use crate::answer::Answer;
use crate::commands::{check, matrix, print, prove, run, sim, tight};
use crate::halt::Halt;
use crate::words::Command;
use seuss_base::Gate;
use std::alloc::Global;
use std::sync::Wait;
use std::thread::Threads;

/// What a command that waits for no other thread does with the bytes that were read, or why they are refused.
#[tactic(auto, unfolding(crate::specs::Verdicts::IsVerdict))]
pub(crate) fn perform_still(alloc: Global, command: &Command, bytes: &[u8]) -> Result<Answer, Halt>
    requires still { IsStill command.now }
    requires limits { HasLimits command.now }
    requires short { length bytes.now ≤ MOST_BYTES }
    ensures { Performs command.now (IsVerdict command.now) bytes.now result }
{
    match command {
        Command::Run { .. } => unreachable!(),
        Command::Sim {
            rounds,
            width,
            turns,
            budget,
        } => sim::perform(alloc, *rounds, *width, turns, *budget, bytes),
        Command::Tight { actions } => tight::perform(alloc, actions, bytes),
        Command::Matrix => matrix::perform(alloc, bytes),
        Command::Check => check::perform(alloc, bytes),
        Command::Print => print::perform(alloc, bytes),
        Command::Prove => prove::perform(alloc, bytes),
    }
}

/// What a command does with the bytes that were read, or why they are refused. The workers of a run go by threads of
/// this runtime, and tell this gate of each step ahead of it.
#[tactic(auto, unfolding(crate::specs::Verdicts::IsVerdict))]
pub(crate) fn perform<H: Threads + Wait + Sync, G: Gate + Sync>(
    rt: &H,
    alloc: Global,
    command: &Command,
    bytes: &[u8],
    gate: &G,
) -> Result<Answer, Halt>
    requires limits { HasLimits command.now }
    requires short { length bytes.now ≤ MOST_BYTES }
    ensures { Performs command.now (IsVerdict command.now) bytes.now result }
{
    match command {
        Command::Run {
            rounds,
            workers,
            budget,
        } => run::perform(rt, alloc, *rounds, *workers, *budget, bytes, gate),
        _ => perform_still(alloc, command, bytes),
    }
}
