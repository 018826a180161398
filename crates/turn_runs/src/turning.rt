//! Turns of virtual workers, from the beginning to the end of a run.

ghost use Rattle.std.specs.Prelude.{◌≡◌, ◌<◌, ◌≤◌, ◌*◌, All, IfOk, None, length, replicate};
ghost use Rattle.seuss_program.specs.Keeping.{HasForm, Keeps};
ghost use Rattle.method_code.specs.Plans.{AreMadeFrom};
ghost use Rattle.loose_records.specs.Growing.{empty_record as begun_from};
ghost use Rattle.loose_records.specs.Turns.{IsRecordOfTurns, worker_of as worker_for};
ghost use Rattle.loose_records.specs.Settings.{setting_of};

use crate::hand::Hand;
use crate::keeping::turns_go_on;
use crate::run::Run;
use compat_scheduler::SchedCore;
use loose_records::Record;
use method_code::{Code, Plan};
use seuss_base::{CompatRows, List, Memory};
use seuss_program::{Program, State};
use std::alloc::Global;

/// The record of the turns of so many virtual workers on one thread: the first turns are those of the workers
/// that the digits name, and after them the workers take turns. Each action has one slot in each round, and
/// each pass has this budget. It returns; want of memory is all that can be refused.
pub fn run_by_turns(
    alloc: Global,
    program: &Program,
    code: &Code,
    plan: &Plan,
    rows: CompatRows,
    state: State,
    rounds: u32,
    budget: u64,
    width: u32,
    digits: &[u8],
) -> Result<Record, Memory>
    requires keeps { Keeps program.now }
    requires made { AreMadeFrom program.now code.now plan.now }
    requires rows { rows.count ≡ length program.now.actions }
    requires form { HasForm program.now state }
    requires some { 1 ≤ budget }
    requires small { budget ≤ 1000000 }
    requires few { rounds * length program.now.actions ≤ 10000000 }
    requires workers { 0 < width }
    requires narrow { width ≤ 16 }
    requires digits { All (λ d. d < width) digits.now }
    ensures made { IfOk result (IsRecordOfTurns (setting_of program.now rows rounds budget) state width
        digits.now) }
{
    turns_go_on();
    let actions = program.actions.len() as u32;
    let core = SchedCore::new(alloc, rows, actions, rounds)?;
    let made = empty_record(alloc, state)?;
    let mut run = Run { core, made };
    let mut hands = no_hands(alloc, width)?;
    for turn in 0..u64::MAX {
        let over = run.is_over();
        if over {
            return Ok(run.made);
        }
        let worker = worker_of(width, digits, turn);
        run.turn_of(alloc, code, plan, budget, &mut hands, worker)?;
    }
    unreachable!()
}

/// The record at the beginning.
fn empty_record(alloc: Global, state: State) -> Result<Record, Memory>
    ensures { IfOk result (λ made. made ≡ begun_from state) }
{
    let last = state.copy(alloc)?;
    let mut boxes = List::new(alloc);
    for _ in 0..state.boxes.len() {
        boxes.push(List::new(alloc))?;
    }
    Ok(Record {
        first: state,
        last,
        boxes,
        sched: List::new(alloc),
        passes: List::new(alloc),
    })
}

/// So many workers with nothing in hand.
fn no_hands(alloc: Global, width: u32) -> Result<List<Option<Hand>>, Memory>
    ensures { IfOk result (λ hands. hands ≡ replicate width None) }
{
    let mut hands = List::new(alloc);
    for _ in 0..width {
        hands.push(None)?;
    }
    Ok(hands)
}

/// The worker of a turn: by the digits, and then in turn.
pub fn worker_of(width: u32, digits: &[u8], turn: u64) -> u64
    requires workers { 0 < width }
    requires digits { All (λ d. d < width) digits.now }
    ensures value { result ≡ worker_for width digits.now turn }
    ensures within { result < width }
{
    let named = digits.len() as u64;
    if turn < named {
        digits[turn as usize] as u64
    } else {
        (turn - named) % width as u64
    }
}
