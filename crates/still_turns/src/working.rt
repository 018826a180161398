//! A turn of a worker at the engine.

ghost use Rattle.std.specs.Prelude.{◌≡◌, ℕ, ◌<◌, ◌^◌, ◌↔◌, List, None, Some, IfOk, OnOk, IsTrue, length};
ghost use Rattle.std.specs.Prelude.{slice_get, slice_set};
ghost use Rattle.round_ledger.specs.Cells.{HasEnded, next_stamp};
ghost use Rattle.pass_seats.specs.Seats.{SeatState};
ghost use Rattle.pass_engine.specs.Engines.{IsSeatOf};
ghost use Rattle.still_turns.specs.declared.hand.InHand.{InHand as InHandOf};
ghost use Rattle.still_turns.specs.declared.hand.InHand.TheVariants.{Nothing, Going, Through};
ghost use Rattle.still_turns.specs.WorkerTurns.{MayWork, MayAdvance, MayEnd, Works, IsSameWorker, IsWant};

use crate::hand::InHand;
use pass_engine::{StillEngine, WorkerSeat};
use pass_seats::{EngineNames, EngineRefusal, Pass, Progress};
use round_ledger::Standing;
use seuss_base::{List, Memory};
use std::alloc::Global;

/// The refusal of a call that is refused for want of memory alone.
fn want(refusal: EngineRefusal) -> Memory
    requires { IsWant refusal }
{
    match refusal {
        EngineRefusal::Memory => Memory,
        EngineRefusal::Worn(_) => unreachable!(),
        EngineRefusal::GivenUp(_) => unreachable!(),
    }
}

/// A worker without a pass asks for a start.
fn begin<'a, N: EngineNames>(
    alloc: Global,
    engine: &mut StillEngine<'a, N>,
    seat: &mut WorkerSeat<N>,
) -> Result<InHand, Memory>
    requires going { engine.old.given_up ≡ None }
    requires of { IsSeatOf engine.old seat.old }
    requires left { next_stamp 0 engine.old.sched.journal.log < 2 ^ 63 }
    ensures { IfOk result
        (Works N.names N.code N.first engine.old engine.new seat.old seat.new Nothing) }
{
    match engine.start(alloc, seat) {
        Ok(Some(pass)) => Ok(InHand::Going(pass)),
        Ok(None) => Ok(InHand::Nothing),
        Err(refusal) => Err(want(refusal)),
    }
}

/// A worker makes the next step of its pass.
fn advance<'a, N: EngineNames>(
    alloc: Global,
    engine: &mut StillEngine<'a, N>,
    seat: &mut WorkerSeat<N>,
    pass: Pass,
) -> Result<InHand, Memory>
    requires going { engine.old.given_up ≡ None }
    requires of { IsSeatOf engine.old seat.old }
    requires may { MayAdvance engine.old seat.old pass.slot }
    ensures { IfOk result
        (Works N.names N.code N.first engine.old engine.new seat.old seat.new (Going pass)) }
{
    let mut pass = pass;
    match engine.advance(alloc, seat, &mut pass) {
        Ok(Progress::Stepped) => Ok(InHand::Going(pass)),
        Ok(Progress::Over) => Ok(InHand::Through(pass)),
        Err(refusal) => Err(want(refusal)),
    }
}

/// A worker finishes its pass.
fn finish<'a, N: EngineNames>(
    engine: &mut StillEngine<'a, N>,
    seat: &mut WorkerSeat<N>,
    pass: Pass,
) -> Result<InHand, Memory>
    requires going { engine.old.given_up ≡ None }
    requires of { IsSeatOf engine.old seat.old }
    requires may { MayEnd engine.old seat.old pass.slot }
    ensures { IfOk result
        (Works N.names N.code N.first engine.old engine.new seat.old seat.new (Through pass)) }
{
    match engine.finish(seat, pass) {
        Ok(_) => Ok(InHand::Nothing),
        Err(refusal) => Err(want(refusal)),
    }
}

/// A turn of a worker, by what it has in hand.
fn work<'a, N: EngineNames>(
    alloc: Global,
    engine: &mut StillEngine<'a, N>,
    seat: &mut WorkerSeat<N>,
    hand: InHand,
) -> Result<InHand, Memory>
    requires going { engine.old.given_up ≡ None }
    requires of { IsSeatOf engine.old seat.old }
    requires may { MayWork engine.old seat.old hand }
    ensures { IfOk result (Works N.names N.code N.first engine.old engine.new seat.old seat.new hand) }
{
    match hand {
        InHand::Nothing => begin(alloc, engine, seat),
        InHand::Going(pass) => advance(alloc, engine, seat, pass),
        InHand::Through(pass) => finish(engine, seat, pass),
    }
}

/// A turn of one of the workers.
pub fn work_of<'a, N: EngineNames>(
    alloc: Global,
    engine: &mut StillEngine<'a, N>,
    seats: &mut Vec<WorkerSeat<N>>,
    hands: &mut List<InHand>,
    worker: u64,
) -> Result<(), Memory>
    requires going { engine.old.given_up ≡ None }
    requires within { (worker < length seats.old.items) × (worker < length hands.old) }
    requires of { (seat : SeatState) → slice_get seats.old.items worker ≡ Some seat →
        IsSeatOf engine.old seat }
    requires may { (seat : SeatState) (hand : InHandOf) → slice_get seats.old.items worker ≡ Some seat →
        slice_get hands.old worker ≡ Some hand → MayWork engine.old seat hand }
    ensures { OnOk result ((seat : SeatState) × (after : SeatState) × (hand : InHandOf) × (next : InHandOf)
        × (slice_get seats.old.items worker ≡ Some seat) × (slice_get hands.old worker ≡ Some hand)
        × (seats.new.items ≡ slice_set seats.old.items worker after)
        × (hands.new ≡ slice_set hands.old worker next)
        × Works N.names N.code N.first engine.old engine.new seat after hand next) }
{
    let hand = hands.replace(worker, InHand::Nothing);
    let seat = &mut seats[worker as usize];
    let next = work(alloc, engine, seat, hand)?;
    hands.set(worker, next);
    Ok(())
}

/// Whether the run has ended, as the worker with this seat is told.
fn is_told_ended<'a, N: EngineNames>(
    engine: &mut StillEngine<'a, N>,
    seat: &mut WorkerSeat<N>,
) -> bool
    requires going { engine.old.given_up ≡ None }
    requires of { IsSeatOf engine.old seat.old }
    ensures ended { IsTrue result ↔ HasEnded engine.old.sched.setting engine.old.sched.machine }
    ensures engine { engine.new ≡ engine.old }
    ensures seat { IsSameWorker seat.old seat.new }
{
    match engine.standing(seat) {
        Ok(Standing::Ended) => true,
        Ok(Standing::Going) => false,
        Err(_) => unreachable!(),
    }
}

/// Whether the run has ended, as one of the workers is told.
pub fn has_ended<'a, N: EngineNames>(
    engine: &mut StillEngine<'a, N>,
    seats: &mut Vec<WorkerSeat<N>>,
    worker: u64,
) -> bool
    requires going { engine.old.given_up ≡ None }
    requires within { worker < length seats.old.items }
    requires of { (seat : SeatState) → slice_get seats.old.items worker ≡ Some seat →
        IsSeatOf engine.old seat }
    ensures ended { IsTrue result ↔ HasEnded engine.old.sched.setting engine.old.sched.machine }
    ensures engine { engine.new ≡ engine.old }
    ensures seats { (seat : SeatState) × (after : SeatState)
        × (slice_get seats.old.items worker ≡ Some seat)
        × (seats.new.items ≡ slice_set seats.old.items worker after) × IsSameWorker seat after }
{
    let seat = &mut seats[worker as usize];
    is_told_ended(engine, seat)
}
