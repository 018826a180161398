//! The rounds of a report.

ghost use Rattle.std.specs.Prelude.{◌≡◌, ◌++◌, ◌+◌, ◌*◌, ◌/◌, ◌^◌, ◌<◌, ◌≤◌, ◌==◌, All, codes, length};
ghost use Rattle.std.specs.Prelude.{decimal};
ghost use Rattle.std.specs.Prelude.{IfOk, OnOk};
ghost use Rattle.std.specs.List.{flat_map, prefix_len};
ghost use Rattle.seuss_program.specs.declared.order.Placed.{Placed};
ghost use Rattle.seuss_program.specs.Orders.{IsLawful, slots_of, stops};
ghost use Rattle.seuss_program.specs.Reports.{attempt_line, line};
ghost use Rattle.seuss_program.specs.Reports.{rounds_shown as shown_rounds, rounds_text as rounds_of};

use crate::numbers::push_number;
use crate::outcomes::push_attempt;
use seuss_base::{Memory, Outcome, Text};
use seuss_program::{Order, Placed, Program};
use std::alloc::Global;

/// How many slots a round has: each action of the program has one.
fn slots(program: &Program) -> u64
    ensures { result ≡ length (slots_of program.now) }
{
    program.actions.len()
}

/// The round of an attempt, from 0, by the number of slots.
fn round_of(entry: &Placed, slots: u64) -> u64
    ensures { result ≡ entry.now.attempt / slots }
{
    entry.attempt.checked_div(slots).unwrap_or(0)
}

/// Whether an outcome stops a run.
fn is_stop(outcome: Outcome) -> bool
    ensures { result ≡ stops outcome }
{
    matches!(outcome, Outcome::Trapped(_) | Outcome::Spent)
}

/// How many rounds are printed: all of them, or those up to the round of the first attempt that
/// stopped the run.
fn rounds_shown(order: &[Placed], slots: u64, rounds: u32) -> u32
    requires { All (λ (e : Placed). e.attempt < rounds * slots) order.now }
    ensures shown { result ≡ shown_rounds slots rounds order.now }
    ensures within { result ≤ rounds }
{
    for entry in order {
        if is_stop(entry.outcome) {
            return round_of(entry, slots) as u32 + 1;
        }
    }
    rounds
}

/// How many entries at the front are of this round.
fn run_of_round(order: &[Placed], slots: u64, round: u32) -> usize
    ensures run { result ≡ prefix_len (λ (e : Placed). e.attempt / slots == round) order.now }
    ensures within { result ≤ length order.now }
{
    for (at, entry) in order.iter().enumerate() {
        if round_of(entry, slots) != round as u64 {
            return at;
        }
    }
    order.len()
}

/// Puts the lines of attempts at the end.
fn push_attempts(text: &mut Text, program: &Program, entries: &[Placed]) -> Result<(), Memory>
    ensures { OnOk result (text.new ≡ text.old ++ flat_map (attempt_line program.now) entries.now) }
{
    for entry in entries {
        push_attempt(text, program, entry.action, entry.outcome)?;
    }
    Ok(())
}

/// Puts the line at the head of a round at the end.
fn push_head(text: &mut Text, number: u32) -> Result<(), Memory>
    ensures { OnOk result (text.new ≡ text.old ++ line (codes "round " ++ decimal number)) }
{
    text.push_all(b"round ")?;
    push_number(text, number as u64)?;
    text.push(b'\n')?;
    Ok(())
}

/// The rounds of a report, of which the first one is printed with the number `first_round`. Rounds
/// after one that stopped the run are not printed. Want of memory is the only error.
pub fn rounds_text(
    alloc: Global,
    program: &Program,
    order: &Order,
    first_round: u32,
    rounds: u32,
) -> Result<Text, Memory>
    requires lawful { IsLawful (slots_of program.now) rounds order.now.list }
    requires small { first_round + rounds < 2 ^ 32 }
    ensures { IfOk result (λ text. text ≡ rounds_of program.now order.now.list first_round rounds) }
{
    let mut text = Text::new(alloc);
    let slots = slots(program);
    let mut rest = order.list.as_slice();
    for round in 0..rounds_shown(rest, slots, rounds) {
        let (now, later) = rest.split_at(run_of_round(rest, slots, round));
        push_head(&mut text, first_round + round)?;
        push_attempts(&mut text, program, now)?;
        rest = later;
    }
    Ok(text)
}
