//! Runs of virtual workers by turns, on the engine for one thread.

ghost use Rattle.std.specs.Prelude.{◌≡◌, ◌<◌, ◌≤◌, ◌*◌, All, IfOk, length, replicate};
ghost use Rattle.seuss_program.specs.Keeping.{HasForm, Keeps};
ghost use Rattle.seuss_program.specs.Programs.{vars_of};
ghost use Rattle.method_code.specs.Plans.{AreMadeFrom};
ghost use Rattle.loose_records.specs.Turns.{IsRecordOfTurns};
ghost use Rattle.pass_seats.specs.Opening.{names_of};
ghost use Rattle.pass_engine.specs.Beginnings.{AreNewWorkers, IsNewEngine};
ghost use Rattle.turn_runs.specs.RunStates.{IsTurnSetting};
ghost use Rattle.loose_records.specs.Settings.{setting_of};
ghost use Rattle.still_turns.specs.declared.hand.InHand.TheVariants.{Nothing};

use crate::closing::close;
use crate::hand::InHand;
use crate::showing::{workers_go_on, workers_made_the_record};
use crate::working::{has_ended, work_of};
use loose_records::Record;
use method_code::{Code, Plan};
use pass_engine::{StillEngine, WorkerSeat};
use pass_seats::{EngineBlank, EngineNames};
use seuss_base::{CompatRows, List, Memory};
use seuss_program::{Program, State};
use std::alloc::Global;
use std::marker::Brand;
use turn_runs::worker_of;

/// The record of the turns of so many virtual workers, made by the engine for one thread: the first turns are
/// those of the workers that the digits name, and after them the workers take turns. Each action has one slot in
/// each round, and each pass has this budget. It returns; want of memory is all that can be refused.
pub fn run_on_engine(
    alloc: Global,
    program: &Program,
    code: &Code,
    plan: &Plan,
    rows: CompatRows,
    state: State,
    rounds: u32,
    budget: u64,
    width: u32,
    digits: &[u8],
) -> Result<Record, Memory>
    requires keeps { Keeps program.now }
    requires made { AreMadeFrom program.now code.now plan.now }
    requires rows { rows.count ≡ length program.now.actions }
    requires form { HasForm program.now state }
    requires some { 1 ≤ budget }
    requires small { budget ≤ 1000000 }
    requires few { rounds * length program.now.actions ≤ 10000000 }
    requires workers { 0 < width }
    requires narrow { width ≤ 16 }
    requires digits { All (λ d. d < width) digits.now }
    ensures made { IfOk result (IsRecordOfTurns (setting_of program.now rows rounds budget) state width
        digits.now) }
{
    let boxes = program.boxes.len() as u32;
    let blank = EngineBlank::new(alloc, boxes, width)?;
    run_named::<Brand>(
        alloc, program, code, plan, rows, state, rounds, budget, width, digits, blank,
    )
}

/// The record of the turns of workers at an engine over these tables.
fn run_named<N: EngineNames>(
    alloc: Global,
    program: &Program,
    code: &Code,
    plan: &Plan,
    rows: CompatRows,
    state: State,
    rounds: u32,
    budget: u64,
    width: u32,
    digits: &[u8],
    blank: EngineBlank,
) -> Result<Record, Memory>
    requires keeps { Keeps program.now }
    requires made { AreMadeFrom program.now code.now plan.now }
    requires rows { rows.count ≡ length program.now.actions }
    requires form { HasForm program.now state }
    requires small { budget ≤ 1000000 }
    requires few { rounds * length program.now.actions ≤ 10000000 }
    requires workers { (0 < width) × (width ≤ 16) }
    requires digits { All (λ d. d < width) digits.now }
    requires code { code.now ≡ N.code }
    requires first { N.first ≡ vars_of state }
    requires tables { length blank.boxes ≡ length program.now.boxes }
    requires names { N.names ≡ names_of blank width (setting_of program.now rows rounds budget) state }
    requires ledger { (blank.ledger ≡ N.name) × (blank.parts ≡ N.parts) × (blank.parts ≡ width) }
    ensures made { IfOk result (IsRecordOfTurns (setting_of program.now rows rounds budget) state width
        digits.now) }
{
    let (engine, seats) = StillEngine::<N>::new(
        alloc, program, code, plan, rows, state, rounds, budget, width, blank,
    )?;
    take_turns(alloc, engine, seats, width, digits)
}

/// The record of the turns of the workers of a new engine.
fn take_turns<'a, N: EngineNames>(
    alloc: Global,
    engine: StillEngine<'a, N>,
    seats: List<WorkerSeat<N>>,
    width: u32,
    digits: &[u8],
) -> Result<Record, Memory>
    requires setting { IsTurnSetting N.names.setting }
    requires seats { (N.names.seats ≡ width) × (N.parts ≡ width) }
    requires fresh { IsNewEngine N.names engine × AreNewWorkers width seats }
    requires workers { 0 < width }
    requires narrow { width ≤ 16 }
    requires digits { All (λ d. d < width) digits.now }
    ensures { IfOk result (IsRecordOfTurns N.names.setting N.names.first width digits.now) }
{
    workers_go_on();
    workers_made_the_record();
    engine.facts();
    let mut engine = engine;
    let mut seats = seats.into_vec();
    let mut hands = no_hands(alloc, width)?;
    for turn in 0..u64::MAX {
        let worker = worker_of(width, digits, turn);
        let over = has_ended(&mut engine, &mut seats, worker);
        if over {
            return close(alloc, engine, seats);
        }
        work_of(alloc, &mut engine, &mut seats, &mut hands, worker)?;
    }
    unreachable!()
}

/// So many workers with nothing in hand.
fn no_hands(alloc: Global, width: u32) -> Result<List<InHand>, Memory>
    ensures { IfOk result (λ hands. hands ≡ replicate width Nothing) }
{
    let mut hands = List::new(alloc);
    for _ in 0..width {
        hands.push(InHand::Nothing)?;
    }
    Ok(hands)
}
