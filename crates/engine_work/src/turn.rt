//! One turn of a worker.

ghost use Rattle.std.specs.Prelude.{◌≡◌, ℕ, ◌<◌, [], ◌∷◌, length};
ghost use Rattle.std.specs.Prelude.{IfOk, IfSome, MatchOption, MatchResult, OnOk};
ghost use Rattle.pass_seats.specs.Slots.{HasStep};
ghost use Rattle.worker_seats.specs.Workers.{IsSameSeat};
ghost use Rattle.worker_seats.specs.Takes.{Started, StartRefused};
ghost use Rattle.shared_engine.specs.Rings.{IsSeatOf};
ghost use Rattle.shared_engine.specs.Calls.{KeepsPasses, StandingRefused};
ghost use Rattle.engine_work.specs.Benches.{held_in, IsBench, MayBegin};
ghost use Rattle.engine_work.specs.Acts.{IsBenchAfter, IsRefused, NextIsRefused, NextMade};
ghost use Rattle.engine_work.specs.Acts.{StepIsRefused, Steps, TurnMade};

use crate::bench::{Bench, HeldPass};
use pass_seats::{EngineNames, EngineRefusal, Pass};
use round_ledger::Standing;
use seuss_base::Gate;
use shared_engine::Engine;
use std::alloc::Global;
use std::sync::Wait;
use std::thread;
use worker_seats::{TryProgress, WorkerSeat};

/// How the work goes on after a turn: with these passes, or not at all, since the run has ended.
#[derive(Debug, Drop)]
pub(crate) enum Turn {
    Going(Bench),
    Ended,
}

/// Tries one step of a pass, with the gate ahead of the first try of the step. The pass then goes behind the
/// others that the worker holds, or it is over and is finished.
fn step<'a, N: EngineNames, R: Wait, G: Gate>(
    rt: &R,
    alloc: Global,
    engine: &Engine<'a, N>,
    worker: u32,
    seat: &mut WorkerSeat<N>,
    gate: &G,
    one: HeldPass,
    rest: Bench,
) -> Result<Bench, EngineRefusal>
    requires of { IsSeatOf engine.now seat.old }
    requires room { length (held_in rest) < 4 }
    requires bench { IsBench seat.old.core (one ∷ held_in rest) }
    ensures made { IfOk result
        (λ after. Steps N.names N.code N.first seat.old seat.new one (held_in rest) (held_in after)) }
    ensures bench { IfOk result (λ after. IsBench seat.new.core (held_in after)) }
    ensures refused { MatchResult result (λ _. ℕ)
        (StepIsRefused N.names N.code N.first seat.old seat.new one.pass.slot) }
    ensures seat { IsSameSeat seat.old seat.new }
{
    let HeldPass {
        mut pass,
        gated,
        busy: _,
    } = one;
    if !gated {
        gate.before(worker, pass.ticket().attempt, seat.box_of(pass.slot()));
    }
    match engine.try_advance(alloc, seat, &mut pass)? {
        TryProgress::Busy => Ok(rest.push(HeldPass::waiting(pass))),
        TryProgress::Stepped => Ok(rest.push(HeldPass::new(pass))),
        TryProgress::Over => {
            engine.finish(rt, seat, pass)?;
            Ok(rest)
        }
    }
}

/// A worker without a pass asks whether the run goes on.
fn stand<'a, N: EngineNames, R: Wait>(
    rt: &R,
    engine: &Engine<'a, N>,
    seat: &mut WorkerSeat<N>,
) -> Result<Turn, EngineRefusal>
    requires of { IsSeatOf engine.now seat.old }
    ensures made { IfOk result (NextMade N.names N.code N.first seat.old seat.new []) }
    ensures bench { IfOk result (IsBenchAfter seat.new.core) }
    ensures refused { MatchResult result (λ _. ℕ) (StandingRefused seat.old seat.new) }
    ensures seat { IsSameSeat seat.old seat.new }
{
    match engine.standing(rt, seat)? {
        Standing::Going => Ok(Turn::Going(Bench::Empty)),
        Standing::Ended => Ok(Turn::Ended),
    }
}

/// A worker tries the first pass that it holds. Without one it asks whether the run goes on.
fn next<'a, N: EngineNames, R: Wait, G: Gate>(
    rt: &R,
    alloc: Global,
    engine: &Engine<'a, N>,
    worker: u32,
    seat: &mut WorkerSeat<N>,
    gate: &G,
    bench: Bench,
) -> Result<Turn, EngineRefusal>
    requires of { IsSeatOf engine.now seat.old }
    requires bench { IsBench seat.old.core (held_in bench) }
    ensures made { IfOk result (NextMade N.names N.code N.first seat.old seat.new (held_in bench)) }
    ensures bench { IfOk result (IsBenchAfter seat.new.core) }
    ensures refused { MatchResult result (λ _. ℕ)
        (NextIsRefused N.names N.code N.first seat.old seat.new (held_in bench)) }
    ensures seat { IsSameSeat seat.old seat.new }
{
    match bench.pop() {
        Some((one, rest)) => Ok(Turn::Going(step(
            rt, alloc, engine, worker, seat, gate, one, rest,
        )?)),
        None => stand(rt, engine, seat),
    }
}

/// A worker takes a further pass from the ready queue, where it may begin one. None comes where it may not,
/// or where the queue was found empty.
fn begin<'a, N: EngineNames, R: Wait>(
    rt: &R,
    alloc: Global,
    engine: &Engine<'a, N>,
    seat: &mut WorkerSeat<N>,
    bench: &Bench,
) -> Result<Option<Pass>, EngineRefusal>
    requires of { IsSeatOf engine.now seat.old }
    ensures may { IfOk result (λ r. IfSome r (λ _. MayBegin (held_in bench.now))) }
    ensures some { IfOk result (λ r. IfSome r (Started N.names seat.old seat.new)) }
    ensures open { IfOk result (λ r. IfSome r (λ pass. HasStep seat.new.core pass.slot)) }
    ensures kept { OnOk result (KeepsPasses seat.old seat.new) }
    ensures none { IfOk result (λ r. MatchOption r (seat.new ≡ seat.old) (λ _. ℕ)) }
    ensures refused { MatchResult result (λ _. ℕ) (StartRefused seat.old seat.new) }
    ensures seat { IsSameSeat seat.old seat.new }
{
    if !bench.may_begin() {
        return Ok(None);
    }
    match engine.start(rt, alloc, seat)? {
        Some(pass) => Ok(Some(pass)),
        None => {
            thread::yield_now();
            Ok(None)
        }
    }
}

/// One turn of a worker: it begins a further pass where it may and the ready queue has one, or it tries a
/// pass that it holds. Without one it asks whether the run goes on.
pub(crate) fn take_turn<'a, N: EngineNames, R: Wait, G: Gate>(
    rt: &R,
    alloc: Global,
    engine: &Engine<'a, N>,
    worker: u32,
    seat: &mut WorkerSeat<N>,
    gate: &G,
    bench: Bench,
) -> Result<Turn, EngineRefusal>
    requires of { IsSeatOf engine.now seat.old }
    requires bench { IsBench seat.old.core (held_in bench) }
    ensures made { IfOk result (TurnMade N.names N.code N.first seat.old seat.new (held_in bench)) }
    ensures bench { IfOk result (IsBenchAfter seat.new.core) }
    ensures refused { MatchResult result (λ _. ℕ)
        (IsRefused N.names N.code N.first seat.old seat.new (held_in bench)) }
    ensures seat { IsSameSeat seat.old seat.new }
{
    match begin(rt, alloc, engine, seat, &bench)? {
        Some(pass) => Ok(Turn::Going(bench.push(HeldPass::new(pass)))),
        None => next(rt, alloc, engine, worker, seat, gate, bench),
    }
}
