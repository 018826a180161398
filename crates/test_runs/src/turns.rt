//! Every short word of turns: the order of commits, executed one at a time by the plain interpreter.

ghost use Rattle.std.specs.Prelude.{◌≡◌, ◌<◌, ◌≤◌, All, IfOk, length, List as ListOf};
ghost use Rattle.compat_matrix.specs.Certificates.{AreLevels};
ghost use Rattle.compat_matrix.specs.declared.certificate.Certificate.{Certificate as CertificateOf};
ghost use Rattle.loose_records.specs.LooseRecords.{IsLoose};
ghost use Rattle.loose_records.specs.Settings.{IsSetting, setting_of};
ghost use Rattle.method_code.specs.Plans.{AreMadeFrom};
ghost use Rattle.seuss_program.specs.Keeping.{Keeps};

use compat_matrix::{MatrixRefusal, matrix};
use compat_scheduler::FinishVerdict;
use loose_core::commit_order;
use loose_core::laws::reduction;
use loose_records::laws::record_of_turns_is_loose;
use loose_records::{Record, SchedEntry};
use loose_settings::laws::levels_make_a_setting;
use meaning_laws::forms::starts_in_form;
use method_code::{Code, Plan, compile};
use report_text::end_text;
use run_records::record_text;
use seuss_base::{CompatRows, Ints, List, Memory, Outcome};
use seuss_program::{LastLine, Order, Program, State, initial_state};
use std::alloc::Global;
use std::test::Fail;
use still_turns::run_on_engine;
use test_texts::program_of;
use tight_order::tight;

/// A channel whose calls of `get` and `put` commute from a number on, two who put and one who takes.
const CHANNEL: &str = "seuss 1 cat Channel var q : seq \
     total put(x : int) is q := add(q, x) end \
     partial get() : int when len(q) > 0 -> result := first(q) q := rest(q) end \
     semi get, put front q 1 end \
     cat Putter(c : Channel) var n : int action put when true -> n := n + 1 c.put(n) end end \
     cat Taker(c : Channel) var sum : int action take when true ; v := c.get() -> sum := sum + v end end \
     box c : Channel box p : Putter(c) box r : Putter(c) box t : Taker(c)";

/// One who commits two calls below, one who commits at once, and a third who shares a box with the first. The third
/// call below is rejected there.
const LEVELS: &str = "seuss 1 cat Low var n : int \
     partial take() : int when n < 2 -> n := n + 1 result := n end end \
     cat Mid(l : Low) var kept : int partial take() : int when true ; v := l.take() -> kept := v result := v end end \
     cat Top(m : Mid) var got : int action go when got < 2 ; v := m.take() -> got := v + got \
     when got > 1 ~> got := got - 1 end end \
     cat Plain var n : int action tick when true -> n := n + 1 end end \
     box l : Low box m : Mid(l) box x : Top(m) box y : Plain box z : Top(m)";

/// Three counters, of which the second one traps in its second round.
const TRAP: &str = "seuss 1 cat Counter var n : int = 1 action tick when n > 0 -> n := n - 1 \
     when n = 0 -> n := 1 / n end end \
     cat Slow var n : int action tick when true -> n := n + 1 n := n * 2 end end \
     box a : Slow box b : Counter box c : Slow";

/// The budget of each attempt.
const BUDGET: u64 = 1_000;

/// How many rounds are run.
const ROUNDS: u32 = 2;

/// The length of the longest words.
const LONGEST: u32 = 8;

/// A program, and what is made of it once.
#[derive(Drop)]
struct Prepared {
    program: Program,
    code: Code,
    plan: Plan,
    rows: CompatRows,
}

/// In how many records the order of commits isn't that of the starts, isn't that of the finishes, a pass was made
/// again, an attempt was rejected, and a stop has ended the run.
#[derive(Clone, Copy, Debug, PartialEq, Eq)]
struct Seen {
    starts: u32,
    finishes: u32,
    voids: u32,
    rejections: u32,
    stops: u32,
}

/// The program that a text spells, and what is made of it once.
fn prepare(alloc: Global, text: &str) -> Result<Prepared, Fail>
    ensures keeps { IfOk result (λ p. Keeps p.program) }
    ensures made { IfOk result (λ p. AreMadeFrom p.program p.code p.plan) }
    ensures levels { IfOk result (λ p. (es : ListOf CertificateOf) × AreLevels p.program es p.rows) }
    ensures few { IfOk result (λ p. length p.program.actions ≤ 256) }
{
    let program = program_of(alloc, text.as_bytes())?;
    if program.actions.len() > 256 {
        return Err(Fail::from("few actions"));
    }
    let code = compile(alloc, &program)?;
    let plan = Plan::of(alloc, &program)?;
    let Ok(rows) = matrix(alloc, &program, &code) else {
        return Err(Fail::from("certificates that hold"));
    };
    Ok(Prepared {
        program,
        code,
        plan,
        rows,
    })
}

/// The record of a word of turns, made by the engine for one thread.
fn record_of(
    alloc: Global,
    prepared: &Prepared,
    width: u32,
    digits: &[u8],
) -> Result<Record, Memory>
    requires keeps { Keeps prepared.now.program }
    requires made { AreMadeFrom prepared.now.program prepared.now.code prepared.now.plan }
    requires levels { (es : ListOf CertificateOf) × AreLevels prepared.now.program es prepared.now.rows }
    requires few { length prepared.now.program.actions ≤ 256 }
    requires workers { 0 < width }
    requires narrow { width ≤ 16 }
    requires digits { All (λ d. d < width) digits.now }
    ensures { IfOk result (IsLoose (setting_of prepared.now.program prepared.now.rows ROUNDS BUDGET)) }
{
    starts_in_form();
    record_of_turns_is_loose();
    let state = initial_state(alloc, &prepared.program, &Ints::new(alloc))?;
    let rows = prepared.rows.copy(alloc)?;
    run_on_engine(
        alloc,
        &prepared.program,
        &prepared.code,
        &prepared.plan,
        rows,
        state,
        ROUNDS,
        BUDGET,
        width,
        digits,
    )
}

/// The actions of an order.
fn actions_of(alloc: Global, order: &Order) -> Result<Vec<u32>, Memory> {
    let mut actions = Vec::new(alloc);
    for placed in order.list.as_slice().iter() {
        actions.push(placed.action)?;
    }
    Ok(actions)
}

/// Whether these are the outcomes of an order.
fn are_outcomes(order: &Order, outcomes: &List<Outcome>) -> bool {
    if order.list.len() != outcomes.len() {
        return false;
    }
    for (placed, outcome) in order.list.as_slice().iter().zip(outcomes.as_slice().iter()) {
        if placed.outcome != *outcome {
            return false;
        }
    }
    true
}

/// Whether the actions of an order, executed one at a time, have its outcomes and leave the last state of a record.
fn is_serial(
    alloc: Global,
    program: &Program,
    order: &Order,
    made: &Record,
) -> Result<bool, Memory> {
    let mut state = initial_state(alloc, program, &Ints::new(alloc))?;
    let actions = actions_of(alloc, order)?;
    let told = tight(alloc, program, &mut state, actions.as_slice(), BUDGET)?;
    let left = end_text(alloc, program, &LastLine::Done, &state)?;
    let last = end_text(alloc, program, &LastLine::Done, &made.last)?;
    Ok(are_outcomes(order, &told.list) && left.as_bytes() == last.as_bytes())
}

/// Whether an order is that of the kept passes by their starts.
fn is_by_starts(order: &Order, made: &Record) -> bool {
    let mut at = 0;
    for pass in made.passes.as_slice().iter() {
        if pass.verdict == FinishVerdict::Kept {
            if order.list.get(at).map(|placed| placed.attempt) != Some(pass.ticket.attempt) {
                return false;
            }
            at = at.saturating_add(1);
        }
    }
    true
}

/// The attempt whose finish is kept by an entry.
fn finished(entry: &SchedEntry) -> Option<u64> {
    match entry {
        SchedEntry::Finish {
            ticket,
            verdict: FinishVerdict::Kept,
            ..
        } => Some(ticket.attempt),
        _ => None,
    }
}

/// Whether an order is that of the kept passes by their finishes.
fn is_by_finishes(order: &Order, made: &Record) -> bool {
    let mut at = 0;
    for entry in made.sched.as_slice().iter() {
        if let Some(attempt) = finished(entry) {
            if order.list.get(at).map(|placed| placed.attempt) != Some(attempt) {
                return false;
            }
            at = at.saturating_add(1);
        }
    }
    true
}

/// Whether a pass was made again.
fn has_void(made: &Record) -> bool {
    made.passes
        .as_slice()
        .iter()
        .any(|pass| pass.verdict == FinishVerdict::Void)
}

/// Whether an attempt was rejected.
fn has_rejection(order: &Order) -> bool {
    order
        .list
        .as_slice()
        .iter()
        .any(|placed| placed.outcome == Outcome::Rejected)
}

/// Whether a run was stopped by a trap.
fn has_stop(order: &Order) -> bool {
    order
        .list
        .as_slice()
        .iter()
        .any(|placed| matches!(placed.outcome, Outcome::Trapped(_)))
}

impl Seen {
    /// Counts one where it holds.
    fn count(at: u32, holds: bool) -> u32 {
        if holds { at.saturating_add(1) } else { at }
    }

    /// What was seen, with one record more.
    fn with(self, order: &Order, made: &Record) -> Seen {
        Seen {
            starts: Seen::count(self.starts, !is_by_starts(order, made)),
            finishes: Seen::count(self.finishes, !is_by_finishes(order, made)),
            voids: Seen::count(self.voids, has_void(made)),
            rejections: Seen::count(self.rejections, has_rejection(order)),
            stops: Seen::count(self.stops, has_stop(order)),
        }
    }
}

/// Runs a word of turns, and executes the order of its commits one at a time.
fn replay(
    alloc: Global,
    prepared: &Prepared,
    width: u32,
    digits: &[u8],
    seen: Seen,
) -> Result<Seen, Fail>
    requires keeps { Keeps prepared.now.program }
    requires made { AreMadeFrom prepared.now.program prepared.now.code prepared.now.plan }
    requires levels { (es : ListOf CertificateOf) × AreLevels prepared.now.program es prepared.now.rows }
    requires few { length prepared.now.program.actions ≤ 256 }
    requires workers { 0 < width }
    requires narrow { width ≤ 16 }
    requires digits { All (λ d. d < width) digits.now }
{
    levels_make_a_setting();
    reduction();
    let made = record_of(alloc, prepared, width, digits)?;
    let order = commit_order(&made)?;
    let serial = is_serial(alloc, &prepared.program, &order, &made)?;
    if !serial {
        return Err(Fail::from("one at a time, the same outcomes and the same boxes"));
    }
    Ok(seen.with(&order, &made))
}

/// The word of this length that has this number among the words of so many workers.
fn word(alloc: Global, width: u32, long: u32, number: u32) -> Result<List<u8>, Memory>
    requires workers { 0 < width }
    requires narrow { width ≤ 16 }
    ensures { IfOk result (All (λ d. d < width)) }
{
    let mut digits = List::new(alloc);
    let mut rest = number;
    for _ in 0..long {
        digits.push((rest % width) as u8)?;
        rest /= width;
    }
    Ok(digits)
}

/// Replays every word of one length.
fn replay_length(
    alloc: Global,
    prepared: &Prepared,
    width: u32,
    long: u32,
    seen: Seen,
) -> Result<Seen, Fail>
    requires keeps { Keeps prepared.now.program }
    requires made { AreMadeFrom prepared.now.program prepared.now.code prepared.now.plan }
    requires levels { (es : ListOf CertificateOf) × AreLevels prepared.now.program es prepared.now.rows }
    requires few { length prepared.now.program.actions ≤ 256 }
    requires workers { 0 < width }
    requires narrow { width ≤ 16 }
{
    let mut now = seen;
    for number in 0..width.saturating_pow(long) {
        let digits = word(alloc, width, long, number)?;
        now = replay(alloc, prepared, width, digits.as_slice(), now)?;
    }
    Ok(now)
}

/// Replays every word of turns up to the longest, of so many workers, and answers what was seen.
fn replay_words(alloc: Global, text: &str, width: u32) -> Result<Seen, Fail>
    requires workers { 0 < width }
    requires narrow { width ≤ 16 }
{
    let prepared = prepare(alloc, text)?;
    let mut seen = Seen {
        starts: 0,
        finishes: 0,
        voids: 0,
        rejections: 0,
        stops: 0,
    };
    for long in 0..=LONGEST {
        seen = replay_length(alloc, &prepared, width, long, seen)?;
    }
    Ok(seen)
}

/// By two workers who take a number while the next one is put, some words make a pass again, and commits come in
/// another order than finishes.
#[test]
fn channel_by_two(rt: HostRuntime) -> Result<(), Fail> {
    let seen = replay_words(rt.alloc(), CHANNEL, 2)?;
    assert!(rt; seen.starts > 0 && seen.finishes > 0 && seen.voids > 0 && seen.stops == 0);
    Ok(())
}

/// The same by three.
#[test]
fn channel_by_three(rt: HostRuntime) -> Result<(), Fail> {
    let seen = replay_words(rt.alloc(), CHANNEL, 3)?;
    assert!(rt; seen.starts > 0 && seen.finishes > 0 && seen.voids > 0 && seen.stops == 0);
    Ok(())
}

/// Passes of three levels by two workers, of which some are rejected two calls below: commits come in another order
/// than starts and than finishes.
#[test]
fn levels_by_two(rt: HostRuntime) -> Result<(), Fail> {
    let seen = replay_words(rt.alloc(), LEVELS, 2)?;
    assert!(rt; seen.starts > 0 && seen.finishes > 0 && seen.rejections > 0 && seen.stops == 0);
    Ok(())
}

/// The same by three.
#[test]
fn levels_by_three(rt: HostRuntime) -> Result<(), Fail> {
    let seen = replay_words(rt.alloc(), LEVELS, 3)?;
    assert!(rt; seen.starts > 0 && seen.finishes > 0 && seen.rejections > 0 && seen.stops == 0);
    Ok(())
}

/// Every word of two workers, of which there are 511, ends by the trap, whatever order the others come in.
#[test]
fn trap_by_two(rt: HostRuntime) -> Result<(), Fail> {
    let seen = replay_words(rt.alloc(), TRAP, 2)?;
    assert!(rt; seen.finishes > 0 && seen.stops == 511);
    Ok(())
}

/// The same by three, of whose words there are 9,841.
#[test]
fn trap_by_three(rt: HostRuntime) -> Result<(), Fail> {
    let seen = replay_words(rt.alloc(), TRAP, 3)?;
    assert!(rt; seen.finishes > 0 && seen.stops == 9841);
    Ok(())
}

/// A counter.
const COUNTER: &str =
    "seuss 1 cat Counter var n : int action tick when true -> n := n + 1 end end box a : Counter";

/// The text of a record has the entries of the scheduler, and then those of each box, with the stamps by which they
/// follow one another.
#[test]
fn a_record_is_spelled(rt: HostRuntime) -> Result<(), Fail> {
    let alloc = rt.alloc();
    let prepared = prepare(alloc, COUNTER)?;
    let made = record_of(alloc, &prepared, 1, &[])?;
    let text = record_text(alloc, &Ints::new(alloc), ROUNDS, BUDGET, &made)?;
    let spelled =
        "record 2 1000\ninput\nstart 0 loose 1\nfinish 0 accepted kept 3\nstart 1 loose 4\n\
        finish 1 accepted kept 6\nbox 0\nstep 0 2\nstep 1 5\nend\n";
    assert_eq!(rt; text.as_bytes(), spelled.as_bytes());
    Ok(())
}
