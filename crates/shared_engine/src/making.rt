//! How an engine is made.

ghost use Rattle.std.specs.Prelude.{◌≡◌, ℕ, [], ◌*◌, ◌≤◌, ◌<◌, ◌+◌, length, false, IfOk, OnOk, None};
ghost use Rattle.seuss_program.specs.Keeping.{HasForm, Keeps};
ghost use Rattle.seuss_program.specs.Programs.{vars_of};
ghost use Rattle.method_code.specs.Plans.{AreMadeFrom};
ghost use Rattle.loose_records.specs.Settings.{setting_of};
ghost use Rattle.ready_queue.specs.Rules.{new_row};
ghost use Rattle.pass_seats.specs.Names.{AreNames};
ghost use Rattle.pass_seats.specs.Opening.{IsFresh, names_of, fresh_sched, AreNewSeats as AreNewCores};
ghost use Rattle.worker_seats.specs.Workers.{Ring};
ghost use Rattle.shared_engine.specs.Rings.{ring_with, AreTurns};
ghost use Rattle.shared_engine.specs.Beginnings.{IsNewSeat, AreNewSeats, AreSeats};

use crate::Engine;
use crate::engine::Running;
use crate::open_turn::{OpenTurn, deal_turns, open_turns, turns_alone};
use compat_scheduler::SchedCore;
use method_code::{Code, Plan};
use pass_seats::{EngineBlank, EngineNames, SchedDesk, SeatCore, Workshop};
use quit_word::QuitWord;
use ready_queue::{FirstSeat, ReadyQueue};
use seuss_base::{CompatRows, List, Memory};
use seuss_program::{Program, State};
use std::alloc::Global;
use std::sync::{Mutex, Wait};
use worker_seats::{ReadyItem, WorkerSeat};

/// The seat of a worker over a core, with a seat at each turn and at the queue.
fn seat_one<N: EngineNames>(
    alloc: Global,
    core: SeatCore<N>,
    turns: &mut Vec<OpenTurn<N>>,
    queue: &ReadyQueue<ReadyItem<N>>,
    line: &mut FirstSeat<ReadyItem<N>>,
) -> Result<WorkerSeat<N>, Memory>
    requires core { IsFresh core.number core }
    requires turns { AreTurns N.names turns.old.items }
    requires many { length turns.old.items ≡ length N.names.boxes }
    requires queue { line.old.queue ≡ queue.now }
    requires number { core.number ≡ line.old.given }
    ensures turns { OnOk result (turns.new.items ≡ turns.old.items) }
    ensures line { OnOk result (line.new ≡ record line.old { given = line.old.given + 1 }) }
    ensures seat { IfOk result (IsNewSeat (ring_with turns.old.items queue.now) core.number) }
{
    let dealt = deal_turns(alloc, turns)?;
    let ready = queue.seat(line, core.number());
    Ok(WorkerSeat::new(core, dealt, ready))
}

/// The seats of workers over all cores.
fn seat_all<N: EngineNames>(
    alloc: Global,
    cores: Vec<SeatCore<N>>,
    turns: &mut Vec<OpenTurn<N>>,
    queue: &ReadyQueue<ReadyItem<N>>,
    line: &mut FirstSeat<ReadyItem<N>>,
) -> Result<Vec<WorkerSeat<N>>, Memory>
    requires cores { AreNewCores cores.items }
    requires turns { AreTurns N.names turns.old.items }
    requires many { length turns.old.items ≡ length N.names.boxes }
    requires line { line.old ≡ record { queue = queue.now; rows = []; given = 0 } }
    ensures turns { OnOk result (turns.new.items ≡ turns.old.items) }
    ensures line { OnOk result
        (line.new ≡ record { queue = queue.now; rows = []; given = length cores.items }) }
    ensures seats { IfOk result (λ seats. AreNewSeats (ring_with turns.old.items queue.now) seats.items) }
    ensures many { IfOk result (λ seats. length seats.items ≡ length cores.items) }
{
    let mut seats = Vec::new(alloc);
    for core in cores {
        seats.push(seat_one(alloc, core, turns, queue, line)?)?;
    }
    Ok(seats)
}

/// The first seat keeps the first view of the queue, starts all passes that can start, and pushes each.
fn begin<N: EngineNames, R: Wait>(
    rt: &R,
    desk: &mut SchedDesk<N>,
    queue: &ReadyQueue<ReadyItem<N>>,
    quit: &QuitWord,
    line: FirstSeat<ReadyItem<N>>,
    seats: &mut Vec<WorkerSeat<N>>,
) -> Result<(), Memory>
    requires named { AreNames N.names N.code N.first }
    requires quit { quit.now ≡ N.names.quit }
    requires desk { desk.old.cell ≡ fresh_sched N.names.sched N.names.setting.scheduler N.names.seats }
    requires some { 0 < N.names.seats }
    requires many { length seats.old.items ≡ N.names.seats }
    requires new { (ring : Ring) × (ring.queue ≡ queue.now) × AreNewSeats ring seats.old.items }
    requires line { line ≡ record { queue = queue.now; rows = []; given = N.names.seats } }
    ensures { OnOk result
        ((ring : Ring) → AreNewSeats ring seats.old.items → AreSeats N.names ring seats.new.items) }
{
    let seat = &mut seats[0];
    seat.keep(line);
    match seat.start_all(rt, desk, queue, quit) {
        Ok(()) => Ok(()),
        Err(_) => Err(Memory),
    }
}

impl<'a, N: EngineNames> Engine<'a, N> {
    /// An engine for a program and its code, over these tables, from this state, with one slot for each action in each
    /// round, so many rounds, this budget of each pass, and so many seats, at least one. The first seat has started
    /// all passes that can start and has pushed them. Want of memory is all that can be refused.
    pub fn new<R: Wait>(
        rt: &R,
        alloc: Global,
        program: &Program,
        code: &'a Code,
        plan: &'a Plan,
        rows: CompatRows,
        state: State,
        rounds: u32,
        budget: u64,
        seats: u32,
        blank: EngineBlank,
    ) -> Result<(Engine<'a, N>, List<WorkerSeat<N>>), Memory>
        requires some { 0 < seats }
        requires keeps { Keeps program.now }
        requires made { AreMadeFrom program.now code.now plan.now }
        requires rows { rows.count ≡ length program.now.actions }
        requires form { HasForm program.now state }
        requires small { budget ≤ 1000000 }
        requires few { rounds * length program.now.actions ≤ 10000000 }
        requires code { code.now ≡ N.code }
        requires first { N.first ≡ vars_of state }
        requires tables { length blank.boxes ≡ length program.now.boxes }
        requires names { N.names ≡ names_of blank seats (setting_of program.now rows rounds budget) state }
        requires ledger { (blank.ledger ≡ N.name) × (blank.parts ≡ N.parts) × (blank.parts ≡ seats) }
        ensures seats { IfOk result (λ r. AreSeats N.names r.0 r.1) }
    {
        let actions = program.actions.len() as u32;
        let core = SchedCore::new(alloc, rows, actions, rounds)?;
        let shop = Workshop::open(alloc, core, &state, seats, blank)?;
        let Workshop {
            boxes,
            sched: mut desk,
            quit,
            seats: cores,
        } = shop;
        let mut turns = open_turns(alloc, boxes, seats)?;
        let (queue, mut line) = ReadyQueue::open(alloc)?;
        let mut workers = seat_all(alloc, cores, &mut turns, &queue, &mut line)?;
        begin(rt, &mut desk, &queue, &quit, line, &mut workers)?;
        let running = Running {
            code,
            plan,
            first: state,
            budget,
        };
        let engine = Engine {
            running,
            boxes: turns_alone(alloc, turns)?,
            queue,
            sched: Mutex::new(desk),
            quit,
        };
        Ok((engine, List::from_vec(workers)))
    }
}
