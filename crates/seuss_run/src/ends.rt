//! How long runs are, how they end, and what is printed of them.

ghost use Rattle.std.specs.Prelude.{◌≡◌, ◌≤◌, ◌<◌, ◌↔◌, length, IsTrue, IfOk};
ghost use Rattle.seuss_program.specs.Orders.{IsLawful, slots_of};
ghost use Rattle.seuss_program.specs.Reports.{last_line as last_line_of, report as report_of};
ghost use Rattle.loose_records.specs.LooseRecords.{IsLoose};
ghost use Rattle.loose_records.specs.Orders.{commit_order as commit_order_of};
ghost use Rattle.loose_records.specs.Settings.{setting_of};
ghost use Rattle.seuss_program.specs.Initials.{initial};
ghost use Rattle.seuss_run.specs.Preparations.{IsPrepared};
ghost use Rattle.seuss_run.specs.Runs.{Reports, status_of as status_after};
ghost use Rattle.seuss_run.specs.Verdicts.{attempts_in};
ghost use Rattle.seuss_run.specs.declared.ends.TheConstants.{MOST_ATTEMPTS};
ghost use Rattle.seuss_run.specs.declared.words.TheConstants.{MOST_BUDGET, MOST_ROUNDS};

use crate::answer::Answer;
use crate::preparing::Prepared;
use loose_core::commit_order;
use loose_core::laws::reduction;
use loose_records::Record;
use report_text::{end_text, rounds_text};
use seuss_base::{Memory, Outcome};
use seuss_program::{LastLine, Order, Placed, Program, State};
use std::alloc::Global;

/// The most attempts of a run.
pub const MOST_ATTEMPTS: u64 = 100_000;

/// Whether a run of so many rounds has more attempts than the limit.
pub(crate) fn is_too_long(program: &Program, rounds: u32) -> bool
    requires { length program.now.actions ≤ 256 }
    ensures { IsTrue result ↔ (MOST_ATTEMPTS < attempts_in rounds program.now) }
{
    u64::from(rounds) * program.actions.len().max(1) > MOST_ATTEMPTS
}

/// How a run ends, by the first attempt that stopped it.
pub(crate) fn last_line(order: &[Placed]) -> LastLine
    ensures { result ≡ last_line_of order.now }
{
    for placed in order {
        match placed.outcome {
            Outcome::Accepted | Outcome::Rejected => {}
            Outcome::Trapped(trap) => return LastLine::Trapped(placed.action, trap),
            Outcome::Spent => return LastLine::Spent(placed.action),
        }
    }
    LastLine::Done
}

/// The status that a run ends with.
pub(crate) fn status_of(last: LastLine) -> u8
    ensures { result ≡ status_after last }
{
    match last {
        LastLine::Done => 0,
        LastLine::Trapped(_, _) => 1,
        LastLine::Spent(_) => 2,
    }
}

/// The report of a run, and the status that the run ends with.
fn report(
    alloc: Global,
    program: &Program,
    rounds: u32,
    order: &Order,
    state: &State,
) -> Result<Answer, Memory>
    requires lawful { IsLawful (slots_of program.now) rounds order.now.list }
    requires few { rounds ≤ MOST_ROUNDS }
    ensures printed { IfOk result (λ a. a.text ≡ report_of program.now rounds order.now.list state.now) }
    ensures ended { IfOk result (λ a. a.status ≡ status_after (last_line_of order.now.list)) }
{
    let last = last_line(order.list.as_slice());
    let mut text = rounds_text(alloc, program, order, 1, rounds)?;
    text.push_all(end_text(alloc, program, &last, state)?.as_bytes())?;
    Ok(Answer {
        status: status_of(last),
        text,
    })
}

/// The report of the commit order of a record, and the status that the run ends with.
pub(crate) fn report_record(
    alloc: Global,
    rounds: u32,
    budget: u64,
    prepared: &Prepared,
    made: &Record,
) -> Result<Answer, Memory>
    requires prepared { IsPrepared prepared.now }
    requires rounds { rounds ≤ MOST_ROUNDS }
    requires budget { (1 ≤ budget) × (budget ≤ MOST_BUDGET) }
    requires loose { IsLoose (setting_of prepared.now.job.program prepared.now.rows rounds budget) made.now }
    requires first { made.now.first ≡ initial prepared.now.job.program prepared.now.job.input }
    ensures { IfOk result (λ a. Reports prepared.now.job.program prepared.now.job.input rounds budget
        (commit_order_of made.now) made.now.last a.status a.text) }
{
    reduction();
    let order = commit_order(made)?;
    report(alloc, &prepared.job.program, rounds, &order, &made.last)
}
