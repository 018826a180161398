//! The engine for one thread. It takes no lock, and each of its calls returns.

ghost use Rattle.std.specs.Prelude.{◌≡◌, ℕ, ◌*◌, ◌≤◌, length, Some, slice_get, IfOk, IfSome};
ghost use Rattle.std.specs.Prelude.{MatchOption, MatchResult};
ghost use Rattle.seuss_program.specs.Keeping.{HasForm, Keeps};
ghost use Rattle.seuss_program.specs.Programs.{vars_of};
ghost use Rattle.method_code.specs.Plans.{AreMadeFrom};
ghost use Rattle.pass_seats.specs.Names.{AreNames};
ghost use Rattle.pass_seats.specs.Seats.{SeatState};
ghost use Rattle.pass_seats.specs.Opening.{AreNewSeats, IsFresh, names_of};
ghost use Rattle.pass_seats.specs.Slots.{HasStep, MayGoOn};
ghost use Rattle.pass_seats.specs.Finishes.{IsOver};
ghost use Rattle.pass_engine.specs.Engines.{IsEngine, IsSeatOf, StaysGivenUp};
ghost use Rattle.loose_records.specs.Settings.{setting_of};
ghost use Rattle.pass_engine.specs.Beginnings.{AreNewWorkers, IsNewEngine};
ghost use Rattle.pass_engine.specs.Calls.{Started, NoneStarted, StartRefused, StepMade, StepRefused};
ghost use Rattle.pass_engine.specs.Calls.{FinishMade, FinishRefused, StandingTold, StandingRefused, GaveUp};

use crate::WorkerSeat;
use crate::going::first_of;
use compat_scheduler::{FinishVerdict, SchedCore};
use method_code::{Code, Plan};
use pass_seats::laws::passes_go_on;
use pass_seats::{
    BoxDesk, EngineBlank, EngineNames, EngineRefusal, Pass, Progress, SchedDesk, SeatCore, Workshop,
};
use quit_word::QuitWord;
use round_ledger::Standing;
use seuss_base::{CompatRows, List, Memory};
use seuss_program::{Program, State};
use std::alloc::Global;
use std::marker::Model;

/// The engine for one thread: the desks of its boxes and of its scheduler, the quit word, and which seat
/// gave it up first, if one did. Contracts see its cells.
#[derive(Drop)]
pub struct StillEngine<'a, N: EngineNames> {
    pub(crate) code: &'a Code,
    pub(crate) plan: &'a Plan,
    pub(crate) first: State,
    pub(crate) boxes: Vec<BoxDesk<N>>,
    pub(crate) sched: SchedDesk<N>,
    pub(crate) quit: QuitWord,
    pub(crate) budget: u64,
    pub(crate) given_up: Option<u32>,
}

impl<'a, N: EngineNames> Model for StillEngine<'a, N> {
    ghost use Rattle.pass_engine.specs.Engines.{EngineState, engine_of, IsEngine, IsSetUp};

    ghost Value = { EngineState };

    ghost view = { λ e. engine_of e.boxes.items e.sched e.given_up };

    ghost invariant = { λ e.
        IsSetUp N.names N.code N.first N.parts e.code.now e.plan.now e.first e.budget e.quit
        × IsEngine N.names (engine_of e.boxes.items e.sched e.given_up) };
}

impl<'a, N: EngineNames> StillEngine<'a, N> {
    /// An engine for a program and its code, over these tables, from this state, with one slot for each
    /// action in each round, so many rounds, this budget of each pass, and so many seats. Want of memory is
    /// all that can be refused.
    pub fn new(
        alloc: Global,
        program: &Program,
        code: &'a Code,
        plan: &'a Plan,
        rows: CompatRows,
        state: State,
        rounds: u32,
        budget: u64,
        seats: u32,
        blank: EngineBlank,
    ) -> Result<(StillEngine<'a, N>, List<WorkerSeat<N>>), Memory>
        requires keeps { Keeps program.now }
        requires made { AreMadeFrom program.now code.now plan.now }
        requires rows { rows.count ≡ length program.now.actions }
        requires form { HasForm program.now state }
        requires small { budget ≤ 1000000 }
        requires few { rounds * length program.now.actions ≤ 10000000 }
        requires code { code.now ≡ N.code }
        requires first { N.first ≡ vars_of state }
        requires tables { length blank.boxes ≡ length program.now.boxes }
        requires names { N.names ≡ names_of blank seats (setting_of program.now rows rounds budget) state }
        requires ledger { (blank.ledger ≡ N.name) × (blank.parts ≡ N.parts) × (blank.parts ≡ seats) }
        ensures engine { IfOk result (λ r. IsNewEngine N.names r.0) }
        ensures seats { IfOk result (λ r. AreNewWorkers seats r.1) }
        ensures of { IfOk result
            (λ r. (w : ℕ) (s : SeatState) → slice_get r.1 w ≡ Some s → IsSeatOf r.0 s) }
    {
        let actions = program.actions.len() as u32;
        let core = SchedCore::new(alloc, rows, actions, rounds)?;
        let shop = Workshop::open(alloc, core, &state, seats, blank)?;
        let Workshop {
            boxes,
            sched,
            quit,
            seats: cores,
        } = shop;
        let workers = seat_all(alloc, cores)?;
        let engine = StillEngine {
            code,
            plan,
            first: state,
            boxes,
            sched,
            quit,
            budget,
            given_up: None,
        };
        Ok((engine, workers))
    }

    /// Which seat gave the engine up first, if one did.
    pub fn given_up(&self) -> Option<u32>
        ensures { result ≡ self.now.given_up }
    {
        self.given_up
    }

    /// What the engine keeps.
    pub fn facts(&self)
        ensures kept { IsEngine N.names self.now }
        ensures named { AreNames N.names N.code N.first }
    {
        let _budget = &self.budget;
    }

    /// Starts the next pass and gives it to a seat, which has then seen the scheduler's whole list. The pass
    /// has a next step. None comes where no pass can start. `GivenUp` comes where the engine was given up before, `Memory` where
    /// memory was refused in this call, which gives the engine up, and `Worn` where the stamp of the start
    /// would be 2^63.
    pub fn start(
        &mut self,
        alloc: Global,
        seat: &mut WorkerSeat<N>,
    ) -> Result<Option<Pass>, EngineRefusal>
        requires { IsSeatOf self.old seat.old }
        ensures some { IfOk result (λ r. IfSome r (Started N.names self.old self.new seat.old seat.new)) }
        ensures none { IfOk result
            (λ r. MatchOption r (NoneStarted self.old self.new seat.old seat.new) (λ _. ℕ)) }
        ensures open { IfOk result (λ r. IfSome r (λ pass. HasStep seat.new pass.slot)) }
        ensures refused { MatchResult result (λ _. ℕ) (StartRefused self.old self.new seat.old seat.new) }
        ensures seat { IsSeatOf self.new seat.new }
        ensures others { StaysGivenUp self.old self.new }
    {
        passes_go_on();
        match self.given_up() {
            Some(by) => Err(EngineRefusal::GivenUp(by)),
            None => self.start_going(alloc, seat),
        }
    }

    /// Makes one step of a pass of a seat that isn't over, on the box at which it is. The pass then has a next
    /// step, or is over and may be finished, as the answer says. `GivenUp` comes where
    /// the engine was given up before, `Memory` where memory was refused in this call, which gives the
    /// engine up, and `Worn` where the stamp of the step would be 2^63.
    pub fn advance(
        &mut self,
        alloc: Global,
        seat: &mut WorkerSeat<N>,
        pass: &mut Pass,
    ) -> Result<Progress, EngineRefusal>
        requires of { IsSeatOf self.old seat.old }
        requires open { HasStep seat.old pass.old.slot }
        ensures made { IfOk result
            (λ progress. StepMade N.names.setting.program N.code N.first self.old self.new
            seat.old seat.new pass.old.slot progress) }
        ensures next { IfOk result (λ progress. MayGoOn progress seat.new pass.old.slot) }
        ensures pass { pass.new ≡ pass.old }
        ensures refused { MatchResult result (λ _. ℕ)
            (StepRefused self.old self.new seat.old seat.new pass.old.slot) }
        ensures seat { IsSeatOf self.new seat.new }
        ensures others { StaysGivenUp self.old self.new }
    {
        passes_go_on();
        seat.facts();
        match self.given_up() {
            Some(by) => Err(EngineRefusal::GivenUp(by)),
            None => self.advance_going(alloc, seat, pass.slot()),
        }
    }

    /// Finishes a pass of a seat that is over, and answers the verdict on it. After a refusal the pass is
    /// dropped: `GivenUp` comes where the engine was given up before, `Memory` where memory was refused in
    /// this call, which gives the engine up, and `Worn` where the stamp of the finish would be 2^63.
    pub fn finish(
        &mut self,
        seat: &mut WorkerSeat<N>,
        pass: Pass,
    ) -> Result<FinishVerdict, EngineRefusal>
        requires of { IsSeatOf self.old seat.old }
        requires over { IsOver seat.old pass.slot }
        ensures made { IfOk result
            (λ verdict. FinishMade self.old self.new seat.old seat.new pass.slot verdict) }
        ensures refused { MatchResult result (λ _. ℕ)
            (FinishRefused self.old self.new seat.old seat.new pass.slot) }
        ensures seat { IsSeatOf self.new seat.new }
        ensures others { StaysGivenUp self.old self.new }
    {
        match self.given_up() {
            Some(by) => Err(EngineRefusal::GivenUp(by)),
            None => self.finish_going(seat, pass.slot()),
        }
    }

    /// Whether the run goes on. The seat has then seen the scheduler's whole list. The call takes no
    /// memory, and the refusal is `GivenUp` alone, where the engine was given up before.
    pub fn standing(&mut self, seat: &mut WorkerSeat<N>) -> Result<Standing, EngineRefusal>
        requires { IsSeatOf self.old seat.old }
        ensures told { IfOk result (λ answer. StandingTold self.old seat.old seat.new answer) }
        ensures engine { self.new ≡ self.old }
        ensures refused { MatchResult result (λ _. ℕ) (StandingRefused self.old seat.old seat.new) }
        ensures seat { IsSeatOf self.new seat.new }
    {
        match self.given_up() {
            Some(by) => Err(EngineRefusal::GivenUp(by)),
            None => self.standing_going(seat),
        }
    }

    /// Gives the engine up for a seat. It takes no memory, and the first to give up counts.
    pub fn give_up(&mut self, seat: &mut WorkerSeat<N>)
        ensures gave { GaveUp self.old self.new seat.old seat.new }
        ensures seat { IsSeatOf self.new seat.new }
        ensures others { StaysGivenUp self.old self.new }
    {
        let number = seat.core.number();
        seat.core.give_up(&self.quit);
        self.given_up = first_of(self.given_up, number);
    }
}

/// The seats of workers over these cores, which were given no pass.
fn seat_all<N: EngineNames>(
    alloc: Global,
    cores: Vec<SeatCore<N>>,
) -> Result<List<WorkerSeat<N>>, Memory>
    requires { AreNewSeats cores.items }
    ensures { IfOk result (λ seats. seats ≡ cores.items) }
{
    let mut seats = List::new(alloc);
    for core in cores {
        seats.push(seat_over(core))?;
    }
    Ok(seats)
}

/// The seat of a worker over a core that was given no pass.
fn seat_over<N: EngineNames>(core: SeatCore<N>) -> WorkerSeat<N>
    requires { (w : ℕ) × IsFresh w core }
    ensures { result ≡ core }
{
    WorkerSeat { core }
}
