//! What the program does for the words after its name.

ghost use Rattle.std.specs.Prelude.{◌≡◌, ℕ, ◌≤◌, List, map, string_bytes, IfOk, IsErrOf, IsTrue, ◌↔◌};
ghost use Rattle.seuss_base.specs.Faults.{Rose};
ghost use Rattle.seuss_run.specs.Answers.{Answers, usage};
ghost use Rattle.seuss_run.specs.Loadings.{Performs};
ghost use Rattle.seuss_run.specs.Commands.{HasLimits};
ghost use Rattle.seuss_run.specs.Promises.{Done, Complete, RefusedSo, RefusedExactly, ToldUsage};
ghost use Rattle.seuss_run.specs.Promises.{UsageExactly, ReadFailed, WriteFailed, AfterMemory};
ghost use Rattle.seuss_run.specs.Served.{AnswersWords, HasNoCommand, IsAny, IsStill, Knows};
ghost use Rattle.seuss_run.specs.Askings.{HasRead, IsAsked, IsLineOf, IsTold};
ghost use Rattle.seuss_run.specs.Verdicts.{IsVerdict};

use crate::answer::{Answer, refused};
use crate::halt::Halt;
use crate::laws::one_verdict;
use crate::performing::{perform, perform_still};
use crate::reading::{ReadRefusal, read_all};
use crate::words::{Command, read_words};
use crate::writing::write_all;
use report_text::Refused;
use seuss_base::{Gate, List, Memory, Sink, Source, Text};
use std::alloc::Global;
use std::sync::Wait;
use std::thread::Threads;

/// Why there is nothing to write.
#[derive(Clone, Copy, Debug, PartialEq, Eq)]
enum Stop {
    /// A read failed.
    Fault,
    Memory,
}

impl From<Memory> for Stop {
    ghost use Rattle.std.specs.Prelude.{◌≡◌};
    ghost use Rattle.seuss_run.specs.declared.top.Stop.TheVariants.{Memory as Wanting};

    ghost from_gives = { λ _ e. e ≡ Wanting };

    fn from(_refused: Memory) -> Stop {
        Stop::Memory
    }
}

/// The answer where the words are no command.
fn usage_answer(alloc: Global) -> Result<Answer, Memory>
    ensures status { IfOk result (λ a. a.status ≡ 4) }
    ensures text { IfOk result (λ a. a.text ≡ usage) }
{
    Ok(Answer {
        status: 4,
        text: Text::from_slice(alloc, b"usage\n")?,
    })
}

/// Which commands a call serves.
#[derive(Clone, Copy, Debug, PartialEq, Eq)]
pub(crate) enum Served {
    All,
    /// Those that wait for no other thread.
    Still,
}

/// What the words and the source ask for.
#[derive(Drop)]
pub(crate) enum Asked {
    /// Nothing is left to do but to write the answer: the words are no command that is served, or more bytes came
    /// than are read.
    Told(Answer),
    /// A command, with the bytes that were read for it.
    Read(Command, List<u8>),
}

/// Reads the bytes of a command.
fn read_for<R: Source>(alloc: Global, command: Command, source: &mut R) -> Result<Asked, Stop>
    requires { HasLimits command }
    ensures read { IfOk result (HasRead command (R.left source.old) (R.left source.new)) }
    ensures fault { IsErrOf result Stop.Fault → Rose (R.faults source.old) (R.faults source.new) }
{
    match read_all(alloc, source) {
        Ok(bytes) => Ok(Asked::Read(command, bytes)),
        Err(ReadRefusal::TooLong) => Ok(Asked::Told(refused(alloc, Refused::Long)?)),
        Err(ReadRefusal::Fault) => Err(Stop::Fault),
        Err(ReadRefusal::Memory) => Err(Stop::Memory),
    }
}

/// The command is one of those that are served.
fn is_known(command: &Command, served: Served) -> bool
    ensures { IsTrue result ↔ Knows served command.now }
{
    match command {
        Command::Run { .. } => matches!(served, Served::All),
        Command::Sim { .. }
        | Command::Tight { .. }
        | Command::Matrix
        | Command::Check
        | Command::Print
        | Command::Prove => true,
    }
}

/// What the words and the source ask for. Where the words are no command that is served, nothing is read.
fn ask<R: Source>(
    alloc: Global,
    words: &[String],
    served: Served,
    source: &mut R,
) -> Result<Asked, Stop>
    ensures asked { IfOk result
        (IsAsked (Knows served) (map string_bytes words.now) (R.left source.old) (R.left source.new)) }
    ensures untouched { IfOk result (λ a. IsTold 4 a → source.new ≡ source.old) }
    ensures fault { IsErrOf result Stop.Fault → Rose (R.faults source.old) (R.faults source.new) }
    ensures command { IsErrOf result Stop.Fault →
        HasNoCommand (Knows served) (map string_bytes words.now) → ⊥ }
{
    match read_words(alloc, words)? {
        Some(command) if is_known(&command, served) => read_for(alloc, command, source),
        _ => Ok(Asked::Told(usage_answer(alloc)?)),
    }
}

/// The answer where a command halted: the line of a refusal.
fn halted(alloc: Global, halt: Halt) -> Result<Answer, Stop>
    ensures line { IfOk result (IsLineOf halt) }
    ensures memory { IsErrOf result Stop.Fault → ⊥ }
{
    match halt {
        Halt::Refused(reason) => Ok(refused(alloc, reason)?),
        Halt::Memory => Err(Stop::Memory),
    }
}

/// The answer of a command to the bytes that were read, by what it did with them, or why they are refused.
fn answer_of(
    alloc: Global,
    command: &Command,
    bytes: &[u8],
    performed: Result<Answer, Halt>,
) -> Result<Answer, Stop>
    requires { Performs command.now (IsVerdict command.now) bytes.now performed }
    ensures answers { IfOk result (λ a. Answers command.now bytes.now a.status a.text) }
    ensures memory { IsErrOf result Stop.Fault → ⊥ }
{
    match performed {
        Ok(answer) => Ok(answer),
        Err(halt) => halted(alloc, halt),
    }
}

/// What the words and the source answer, where the command waits for no other thread: a status below 5, and the whole
/// text that is written with it.
#[tactic(auto, unfolding(crate::specs::Answers::Answers))]
fn answer_still<R: Source>(alloc: Global, words: &[String], source: &mut R) -> Result<Answer, Stop>
    ensures ends { IfOk result (λ a. AnswersWords IsStill (map string_bytes words.now) (R.left source.old)
        (R.left source.new) a.status a.text) }
    ensures untouched { IfOk result (λ a. a.status ≡ 4 → source.new ≡ source.old) }
    ensures fault { IsErrOf result Stop.Fault → Rose (R.faults source.old) (R.faults source.new) }
    ensures command { IsErrOf result Stop.Fault → HasNoCommand IsStill (map string_bytes words.now) → ⊥ }
{
    match ask(alloc, words, Served::Still, source)? {
        Asked::Told(answer) => Ok(answer),
        Asked::Read(command, bytes) => {
            let performed = perform_still(alloc, &command, bytes.as_slice());
            answer_of(alloc, &command, bytes.as_slice(), performed)
        }
    }
}

/// What the words and the source answer, whatever the command: a status below 5, and the whole text that is written
/// with it.
#[tactic(auto, unfolding(crate::specs::Answers::Answers))]
fn answer<H: Threads + Wait + Sync, R: Source, G: Gate + Sync>(
    rt: &H,
    alloc: Global,
    words: &[String],
    source: &mut R,
    gate: &G,
) -> Result<Answer, Stop>
    ensures ends { IfOk result (λ a. AnswersWords IsAny (map string_bytes words.now) (R.left source.old)
        (R.left source.new) a.status a.text) }
    ensures untouched { IfOk result (λ a. a.status ≡ 4 → source.new ≡ source.old) }
    ensures fault { IsErrOf result Stop.Fault → Rose (R.faults source.old) (R.faults source.new) }
    ensures command { IsErrOf result Stop.Fault → HasNoCommand IsAny (map string_bytes words.now) → ⊥ }
{
    match ask(alloc, words, Served::All, source)? {
        Asked::Told(answer) => Ok(answer),
        Asked::Read(command, bytes) => {
            let performed = perform(rt, alloc, &command, bytes.as_slice(), gate);
            answer_of(alloc, &command, bytes.as_slice(), performed)
        }
    }
}

/// Does what the words after the program's name ask for, where that is `sim`, `tight`, `matrix`, `check`,
/// `print` or `prove`: reads the source, writes the whole text to the sink, and answers the status of the program. It
/// waits for no other thread, and returns.
///
/// 0: the command is done; 1, 2: an attempt trapped, or was spent, before any other one that stopped; 3: the
/// bytes are refused; 4: the words are none of these commands; 5: a read failed; 6: a write failed; 7: want
/// of memory.
pub fn seuss_still<R: Source, W: Sink>(
    alloc: Global,
    words: &[String],
    source: &mut R,
    sink: &mut W,
) -> u8
    ensures within { result ≤ 7 }

    // What was written is the whole text of the command.
    ensures done { result ≤ 2 → Done IsStill (map string_bytes words.now)
        (R.left source.old) (R.left source.new) (W.written sink.old) (W.written sink.new) result }
    ensures complete { Complete IsStill (map string_bytes words.now) (R.left source.old) result }

    // The bytes are refused at the first check that fails, and the line of the refusal was written.
    ensures refused { result ≡ 3 → RefusedSo IsStill (map string_bytes words.now)
        (R.left source.old) (R.left source.new) (W.written sink.old) (W.written sink.new) }
    ensures refused_exactly { RefusedExactly IsStill (map string_bytes words.now) (R.left source.old) result }

    // The words are none of these commands: nothing was read.
    ensures usage { result ≡ 4 → ToldUsage IsStill (map string_bytes words.now)
        source.old source.new (W.written sink.old) (W.written sink.new) }
    ensures usage_exactly { UsageExactly IsStill (map string_bytes words.now) result }

    // A fault is answered only where its count rose. Nothing was written, or a front of the text.
    ensures read_fault { result ≡ 5 → ReadFailed IsStill (map string_bytes words.now)
        (R.faults source.old) (R.faults source.new) sink.old sink.new }
    ensures write_fault { result ≡ 6 → WriteFailed IsStill (map string_bytes words.now)
        (W.faults sink.old) (W.faults sink.new)
        (R.left source.old) (R.left source.new) (W.written sink.old) (W.written sink.new) }
    ensures memory { result ≡ 7 → AfterMemory IsStill (map string_bytes words.now) sink.old sink.new
        (R.left source.old) (R.left source.new) (W.written sink.old) (W.written sink.new) }
{
    one_verdict();
    let answer = match answer_still(alloc, words, source) {
        Ok(answer) => answer,
        Err(Stop::Fault) => return 5,
        Err(Stop::Memory) => return 7,
    };
    match write_all(sink, answer.text.as_bytes()) {
        Ok(()) => answer.status,
        Err(_) => 6,
    }
}

/// Does what the words after the program's name ask for: reads the source, writes the whole text to the
/// sink, and answers the status of the program.
///
/// 0: the command is done; 1, 2: an attempt trapped, or was spent, before any other one that stopped; 3: the
/// bytes are refused; 4: the words are no command; 5: a read failed; 6: a write failed; 7: want of memory.
pub fn seuss<H: Threads + Wait + Sync, R: Source, W: Sink, G: Gate + Sync>(
    rt: &H,
    alloc: Global,
    words: &[String],
    source: &mut R,
    sink: &mut W,
    gate: &G,
) -> u8
    ensures within { result ≤ 7 }

    // The headline: what a run wrote is the report of a lawful order of attempts, whose actions, executed
    // one at a time in that order, give the printed outcomes and leave exactly the printed boxes.
    ensures done { result ≤ 2 → Done IsAny (map string_bytes words.now)
        (R.left source.old) (R.left source.new) (W.written sink.old) (W.written sink.new) result }
    ensures complete { Complete IsAny (map string_bytes words.now) (R.left source.old) result }

    // The bytes are refused at the first check that fails, and the line of the refusal was written.
    ensures refused { result ≡ 3 → RefusedSo IsAny (map string_bytes words.now)
        (R.left source.old) (R.left source.new) (W.written sink.old) (W.written sink.new) }
    ensures refused_exactly { RefusedExactly IsAny (map string_bytes words.now) (R.left source.old) result }

    // The words are no command: nothing was read.
    ensures usage { result ≡ 4 → ToldUsage IsAny (map string_bytes words.now)
        source.old source.new (W.written sink.old) (W.written sink.new) }
    ensures usage_exactly { UsageExactly IsAny (map string_bytes words.now) result }

    // A fault is answered only where its count rose. Nothing was written, or a front of the text.
    ensures read_fault { result ≡ 5 → ReadFailed IsAny (map string_bytes words.now)
        (R.faults source.old) (R.faults source.new) sink.old sink.new }
    ensures write_fault { result ≡ 6 → WriteFailed IsAny (map string_bytes words.now)
        (W.faults sink.old) (W.faults sink.new)
        (R.left source.old) (R.left source.new) (W.written sink.old) (W.written sink.new) }
    ensures memory { result ≡ 7 → AfterMemory IsAny (map string_bytes words.now) sink.old sink.new
        (R.left source.old) (R.left source.new) (W.written sink.old) (W.written sink.new) }
{
    one_verdict();
    let answer = match answer(rt, alloc, words, source, gate) {
        Ok(answer) => answer,
        Err(Stop::Fault) => return 5,
        Err(Stop::Memory) => return 7,
    };
    match write_all(sink, answer.text.as_bytes()) {
        Ok(()) => answer.status,
        Err(_) => 6,
    }
}
