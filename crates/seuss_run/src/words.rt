//! The commands, and the words of each.

ghost use Rattle.std.specs.Prelude.{◌≡◌, ◌<◌, ◌≤◌, ◌↔◌, All, map, string_bytes, IfOk, IfSome, IsTrue};
ghost use Rattle.seuss_run.specs.Commands.{number_in, budget_in, run_of, sim_of, tight_of, worker_in};
ghost use Rattle.seuss_run.specs.declared.words.TheConstants.{MOST_BUDGET};
ghost use Rattle.seuss_run.specs.Commands.{turns_in, action_in, alone, command_of, HasLimits};

use itoa::Buffer;
use seuss_base::{List as Items, Memory, Text};
use seuss_text::is_name;
use std::alloc::Global;

/// What the words after the program's name ask for.
#[derive(Debug, Drop)]
pub enum Command {
    /// Runs a number of rounds on a number of workers, where each attempt has a budget.
    Run {
        rounds: u32,
        workers: u32,
        budget: u64,
    },
    /// Runs a number of rounds by the turns of virtual workers, of which the first ones are told.
    Sim {
        rounds: u32,
        width: u32,
        turns: Items<u8>,
        budget: u64,
    },
    /// Attempts actions one after the other, each named by its box and its name.
    Tight {
        actions: Items<(Text, Text)>,
    },
    /// Prints how far each action is safe beside each other one.
    Matrix,
    /// Counts the cats, boxes and actions of an accepted program.
    Check,
    /// Prints the canonical text of a program.
    Print,
    /// Tells of each of some properties of a program whether it is safe.
    Prove,
}

/// The most rounds of a run.
pub const MOST_ROUNDS: u32 = 10_000_000;

/// The most virtual workers.
pub const MOST_WIDTH: u32 = 16;

/// The most turns that words tell.
pub const MOST_TURNS: usize = 4096;

/// The greatest budget of an attempt, and the one where the words name none.
pub const MOST_BUDGET: u32 = 1_000_000;

pub const DEFAULT_BUDGET: u32 = 10_000;

/// The most workers.
pub const MOST_WORKERS: u32 = 16;

/// The most actions that `tight` attempts.
pub const MOST_ACTIONS: usize = 10_000;

/// The number whose decimal text a word is, where it is one from the least to the most.
fn number(least: u32, most: u32, word: &str) -> Option<u32>
    ensures is { result ≡ number_in least most word.now }
    ensures within { IfSome result (λ n. (least ≤ n) × (n ≤ most)) }
{
    let Ok(n) = word.parse::<u32>() else {
        return None;
    };
    if Buffer::new().format(n) == word && least <= n && n <= most {
        Some(n)
    } else {
        None
    }
}

/// The budget that the last words of a command are.
fn budget(words: &[String]) -> Option<u64>
    ensures is { result ≡ budget_in (map string_bytes words.now) }
    ensures within { IfSome result (λ n. (1 ≤ n) × (n ≤ MOST_BUDGET)) }
{
    match words {
        [] => Some(u64::from(DEFAULT_BUDGET)),
        [budget] => Some(u64::from(number(1, MOST_BUDGET, budget.as_str())?)),
        _ => None,
    }
}

/// The command `run` with these words after it.
fn run_command(words: &[String]) -> Option<Command>
    ensures is { result ≡ run_of (map string_bytes words.now) }
    ensures within { IfSome result HasLimits }
{
    let [rounds, workers, others @ ..] = words else {
        return None;
    };
    Some(Command::Run {
        rounds: number(1, MOST_ROUNDS, rounds.as_str())?,
        workers: number(1, MOST_WORKERS, workers.as_str())?,
        budget: budget(others)?,
    })
}

/// The worker of a turn, by its digit.
fn worker(width: u32, byte: u8) -> Option<u8>
    ensures is { result ≡ worker_in width byte }
    ensures within { IfSome result (λ w. w < width) }
{
    let worker = match byte {
        b'0'..=b'9' => byte - b'0',
        b'a'..=b'f' => byte - b'a' + 10,
        _ => return None,
    };
    if u32::from(worker) < width {
        Some(worker)
    } else {
        None
    }
}

/// The workers of the turns that a word tells, where it tells their number and each of them.
fn turns(alloc: Global, width: u32, word: &str) -> Result<Option<Items<u8>>, Memory>
    ensures are { IfOk result (λ o. o ≡ turns_in width word.now) }
    ensures within { IfOk result (λ o. IfSome o (All (λ w. w < width))) }
{
    let mut turns = Items::new(alloc);
    if word == "-" {
        return Ok(Some(turns));
    }
    if word.is_empty() || word.len() > MOST_TURNS {
        return Ok(None);
    }
    let bytes = word.as_bytes();
    for byte in bytes {
        match worker(width, *byte) {
            Some(worker) => turns.push(worker)?,
            None => return Ok(None),
        }
    }
    Ok(Some(turns))
}

/// The names of a box and of its action, where a word is these with a point between.
fn action_names(alloc: Global, word: &str) -> Result<Option<(Text, Text)>, Memory>
    ensures { IfOk result (λ o. o ≡ action_in word.now) }
{
    let Some((owner, action)) = word.split_once('.') else {
        return Ok(None);
    };
    if !is_name(owner.as_bytes()) || !is_name(action.as_bytes()) {
        return Ok(None);
    }
    let owner = Text::from_slice(alloc, owner.as_bytes())?;
    let action = Text::from_slice(alloc, action.as_bytes())?;
    Ok(Some((owner, action)))
}

/// The command `sim` with these words after it.
fn sim_command(alloc: Global, words: &[String]) -> Result<Option<Command>, Memory>
    ensures is { IfOk result (λ o. o ≡ sim_of (map string_bytes words.now)) }
    ensures within { IfOk result (λ o. IfSome o HasLimits) }
{
    let [rounds, width, told, others @ ..] = words else {
        return Ok(None);
    };
    let Some(rounds) = number(1, MOST_ROUNDS, rounds.as_str()) else {
        return Ok(None);
    };
    let Some(width) = number(1, MOST_WIDTH, width.as_str()) else {
        return Ok(None);
    };
    let Some(turns) = turns(alloc, width, told.as_str())? else {
        return Ok(None);
    };
    let Some(budget) = budget(others) else {
        return Ok(None);
    };
    Ok(Some(Command::Sim {
        rounds,
        width,
        turns,
        budget,
    }))
}

/// The command `tight` with these words after it.
fn tight_command(alloc: Global, words: &[String]) -> Result<Option<Command>, Memory>
    ensures is { IfOk result (λ o. o ≡ tight_of (map string_bytes words.now)) }
    ensures within { IfOk result (λ o. IfSome o HasLimits) }
{
    if words.len() > MOST_ACTIONS {
        return Ok(None);
    }
    let mut actions = Items::new(alloc);
    for word in words {
        match action_names(alloc, word.as_str())? {
            Some(names) => actions.push(names)?,
            None => return Ok(None),
        }
    }
    Ok(Some(Command::Tight { actions }))
}

/// The command, where no words stand after it.
fn alone(command: Command, words: &[String]) -> Option<Command>
    requires { HasLimits command }
    ensures is { result ≡ alone command (map string_bytes words.now) }
    ensures within { IfSome result HasLimits }
{
    if words.is_empty() {
        Some(command)
    } else {
        None
    }
}

/// The command that the words are, or None where they are none.
#[tactic(auto, unfolding(crate::specs::Commands::command_of))]
pub fn read_words(alloc: Global, words: &[String]) -> Result<Option<Command>, Memory>
    ensures is { IfOk result (λ o. o ≡ command_of (map string_bytes words.now)) }
    ensures within { IfOk result (λ o. IfSome o HasLimits) }
{
    let Some((name, others)) = words.split_first() else {
        return Ok(None);
    };
    match name.as_str() {
        "run" => Ok(run_command(others)),
        "sim" => sim_command(alloc, others),
        "tight" => tight_command(alloc, others),
        "matrix" => Ok(alone(Command::Matrix, others)),
        "check" => Ok(alone(Command::Check, others)),
        "print" => Ok(alone(Command::Print, others)),
        "prove" => Ok(alone(Command::Prove, others)),
        _ => Ok(None),
    }
}
