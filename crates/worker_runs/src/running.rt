//! Runs by workers at the engine for several threads.

ghost use Rattle.std.specs.Prelude.{◌≡◌, ◌<◌, ◌≤◌, ◌*◌, All, IfOk, None, OnOk, length, map};
ghost use Rattle.seuss_program.specs.Keeping.{HasForm, Keeps};
ghost use Rattle.seuss_program.specs.Programs.{vars_of};
ghost use Rattle.method_code.specs.Plans.{AreMadeFrom};
ghost use Rattle.loose_records.specs.LooseRecords.{IsLoose};
ghost use Rattle.loose_records.specs.Settings.{setting_of};
ghost use Rattle.pass_seats.specs.Opening.{names_of};
ghost use Rattle.shared_engine.specs.Beginnings.{AreSeats};

use engine_gather::gather;
use engine_gather::laws::an_answer_shows_the_end;
use engine_work::{WorkerRecord, work_all};
use loose_records::Record;
use method_code::{Code, Plan};
use pass_seats::{EngineBlank, EngineNames};
use seuss_base::{CompatRows, Gate, List, Memory};
use seuss_program::{Program, State};
use shared_engine::Engine;
use std::alloc::Global;
use std::marker::Brand;
use std::sync::Wait;
use std::thread::Threads;
use worker_seats::WorkerSeat;

/// The record of a run by so many workers, each in a thread of its own; the caller works itself where no thread can
/// be made. Each action has one slot in each round, and each pass has this budget. The gate is told of each step ahead
/// of it. Want of memory is all that can be refused: that of the caller, or of a worker.
pub fn run_by_workers<H: Threads + Wait + Sync, G: Gate + Sync>(
    rt: &H,
    alloc: Global,
    program: &Program,
    code: &Code,
    plan: &Plan,
    rows: CompatRows,
    state: State,
    rounds: u32,
    budget: u64,
    workers: u32,
    gate: &G,
) -> Result<Record, Memory>
    requires keeps { Keeps program.now }
    requires made { AreMadeFrom program.now code.now plan.now }
    requires rows { rows.count ≡ length program.now.actions }
    requires form { HasForm program.now state }
    requires small { budget ≤ 1000000 }
    requires few { rounds * length program.now.actions ≤ 10000000 }
    requires workers { 0 < workers }
    ensures loose { IfOk result (IsLoose (setting_of program.now rows rounds budget)) }
    ensures first { IfOk result (λ r. r.first ≡ state) }
{
    let boxes = program.boxes.len() as u32;
    let blank = EngineBlank::new(alloc, boxes, workers)?;
    run_named::<Brand, H, G>(
        rt, alloc, program, code, plan, rows, state, rounds, budget, workers, gate, blank,
    )
}

/// The record of a run by workers at an engine over these tables.
fn run_named<N: EngineNames + Send + Sync, H: Threads + Wait + Sync, G: Gate + Sync>(
    rt: &H,
    alloc: Global,
    program: &Program,
    code: &Code,
    plan: &Plan,
    rows: CompatRows,
    state: State,
    rounds: u32,
    budget: u64,
    workers: u32,
    gate: &G,
    blank: EngineBlank,
) -> Result<Record, Memory>
    requires keeps { Keeps program.now }
    requires made { AreMadeFrom program.now code.now plan.now }
    requires rows { rows.count ≡ length program.now.actions }
    requires form { HasForm program.now state }
    requires small { budget ≤ 1000000 }
    requires few { rounds * length program.now.actions ≤ 10000000 }
    requires workers { 0 < workers }
    requires code { code.now ≡ N.code }
    requires first { N.first ≡ vars_of state }
    requires tables { length blank.boxes ≡ length program.now.boxes }
    requires names { N.names ≡ names_of blank workers (setting_of program.now rows rounds budget) state }
    requires ledger { (blank.ledger ≡ N.name) × (blank.parts ≡ N.parts) × (blank.parts ≡ workers) }
    ensures loose { IfOk result (IsLoose (setting_of program.now rows rounds budget)) }
    ensures first { IfOk result (λ r. r.first ≡ state) }
{
    let (engine, seats) = Engine::<N>::new(
        rt, alloc, program, code, plan, rows, state, rounds, budget, workers, blank,
    )?;
    run_engine(rt, alloc, engine, seats, gate)
}

/// The record of the work of all workers at a new engine.
fn run_engine<'a, N: EngineNames + Send + Sync, H: Threads + Wait + Sync, G: Gate + Sync>(
    rt: &H,
    alloc: Global,
    engine: Engine<'a, N>,
    seats: List<WorkerSeat<N>>,
    gate: &G,
) -> Result<Record, Memory>
    requires some { 0 < N.names.seats }
    requires seats { AreSeats N.names engine seats }
    ensures loose { IfOk result (IsLoose N.names.setting) }
    ensures first { IfOk result (λ r. r.first ≡ N.names.first) }
{
    an_answer_shows_the_end();
    let left = work_all(rt, alloc, &engine, seats, gate)?;
    let back = seats_back(alloc, left)?;
    gather(rt, alloc, engine, back)
}

/// The seats that workers left, none of which was refused.
fn seats_back<N: EngineNames>(
    alloc: Global,
    left: List<WorkerRecord<N>>,
) -> Result<List<WorkerSeat<N>>, Memory>
    ensures seats { IfOk result (λ seats. seats ≡ map (λ r. r.seat) left) }
    ensures none { OnOk result (All (λ r. r.refusal ≡ None) left) }
{
    let mut seats = List::new(alloc);
    for record in left.into_vec() {
        let WorkerRecord { seat, refusal } = record;
        if refusal.is_some() {
            return Err(Memory);
        }
        seats.push(seat)?;
    }
    Ok(seats)
}
