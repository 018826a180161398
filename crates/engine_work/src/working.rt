//! The work of one worker.

ghost use Rattle.std.specs.Prelude.{◌≡◌};
ghost use Rattle.worker_seats.specs.Workers.{IsSameSeat};
ghost use Rattle.shared_engine.specs.Rings.{IsSeatOf};
ghost use Rattle.engine_work.specs.Records.{GivesUp, HasWorked, IsUnmarkedBut, SawTheEndUnless};

use crate::bench::Bench;
use crate::turn::{Turn, take_turn};
use pass_seats::{EngineNames, EngineRefusal};
use seuss_base::Gate;
use shared_engine::Engine;
use std::alloc::Global;
use std::sync::Wait;
use worker_seats::WorkerSeat;

/// What a worker leaves: its seat, and why its last call was refused. Without a refusal it was told that the
/// run has ended.
#[derive(Drop)]
pub struct WorkerRecord<N: EngineNames> {
    pub seat: WorkerSeat<N>,
    pub refusal: Option<EngineRefusal>,
}

/// After a refusal the worker gives the engine up where a stamp is worn, and only there: no other seat can
/// go on.
fn quit<'a, N: EngineNames>(
    engine: &Engine<'a, N>,
    seat: &mut WorkerSeat<N>,
    refusal: &EngineRefusal,
)
    ensures gave { GivesUp refusal.now seat.old seat.new }
    ensures seat { IsSameSeat seat.old seat.new }
{
    match refusal {
        EngineRefusal::Worn(_) => engine.give_up(seat),
        EngineRefusal::Memory => {}
        EngineRefusal::GivenUp(_) => {}
    }
}

/// One worker's work. It starts, advances and finishes passes, until it is told that the run has ended or a
/// call is refused. It holds up to four passes, and begins a further one only where each found its box taken
/// at its last try. The gate is told of each step once, ahead of its first try, while the worker holds no
/// box.
pub fn work<'a, N: EngineNames, R: Wait, G: Gate>(
    rt: &R,
    alloc: Global,
    engine: &Engine<'a, N>,
    worker: u32,
    mut seat: WorkerSeat<N>,
    gate: &G,
) -> WorkerRecord<N>
    requires of { IsSeatOf engine.now seat }
    ensures worked { HasWorked N.names N.code N.first seat result.seat result.refusal }
    ensures seat { IsSameSeat seat result.seat }
    ensures told { SawTheEndUnless result.refusal N.names result.seat }
    ensures unmarked { IsUnmarkedBut result.refusal seat result.seat }
{
    let mut bench = Bench::Empty;
    for _ in rt.forever() {
        match take_turn(rt, alloc, engine, worker, &mut seat, gate, bench) {
            Ok(Turn::Going(next)) => bench = next,
            Ok(Turn::Ended) => {
                return WorkerRecord {
                    seat,
                    refusal: None,
                };
            }
            Err(refusal) => {
                quit(engine, &mut seat, &refusal);
                return WorkerRecord {
                    seat,
                    refusal: Some(refusal),
                };
            }
        }
    }
    unreachable!()
}
