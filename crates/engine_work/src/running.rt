//! The work of all workers of a run.

ghost use Rattle.std.specs.Prelude.{◌≡◌, [], IfOk, map};
ghost use Rattle.std.specs.Thread.{IsSend, IsSync};
ghost use Rattle.shared_engine.specs.Rings.{IsSeatOf};
ghost use Rattle.engine_work.specs.Records.{AreSeatsOf, AreWork, IsWork, ended_so};

use crate::working::{WorkerRecord, work};
use pass_seats::EngineNames;
use seuss_base::{Gate, List, Memory};
use shared_engine::Engine;
use std::alloc::Global;
use std::sync::Wait;
use std::thread::{Threads, join};
use worker_seats::WorkerSeat;

/// The work of these workers, each in a thread of its own where there is one, with their records behind
/// those that are there.
fn work_beside<'a, N: EngineNames + Send + Sync, R: Threads + Wait + Sync, G: Gate + Sync>(
    rt: &R,
    alloc: Global,
    engine: &Engine<'a, N>,
    mut seats: List<WorkerSeat<N>>,
    gate: &G,
    records: List<WorkerRecord<N>>,
) -> Result<List<WorkerRecord<N>>, Memory>
    requires of { AreSeatsOf engine.now seats }
    requires none { records ≡ [] }
    requires cross { IsSync R.row × IsSync G.row × IsSend N.row × IsSync N.row }
    ensures { IfOk result
        (λ all. AreWork N.names N.code N.first seats (map (λ r. ended_so r.seat r.refusal) all)) }
{
    let Some(seat) = seats.pop() else {
        return Ok(records);
    };
    let worker = seat.number();
    let (record, others) = join(
        rt,
        || -> WorkerRecord<N>
            requires { IsSync R.row × IsSync G.row × IsSend N.row × IsSync N.row
                × IsSeatOf engine.now seat }
            ensures { IsWork N.names N.code N.first seat result.seat result.refusal }
        { work(rt, alloc, engine, worker, seat, gate) },
        || -> Result<List<WorkerRecord<N>>, Memory>
            requires { IsSync R.row × IsSync G.row × IsSend N.row × IsSync N.row
                × AreSeatsOf engine.now seats × (records ≡ []) }
            ensures { IfOk result
                (λ all. AreWork N.names N.code N.first seats (map (λ r. ended_so r.seat r.refusal) all)) }
        { work_beside(rt, alloc, engine, seats, gate, records) },
    );
    let mut records = others?;
    records.push(record)?;
    Ok(records)
}

/// The work of all workers of a run, each in a thread of its own. Where no thread can be made for one, the
/// caller does its work. The records come in the order of the seats. Memory for their list is taken ahead of
/// all work, and the one refusal is want of it.
pub fn work_all<'a, N: EngineNames + Send + Sync, R: Threads + Wait + Sync, G: Gate + Sync>(
    rt: &R,
    alloc: Global,
    engine: &Engine<'a, N>,
    seats: List<WorkerSeat<N>>,
    gate: &G,
) -> Result<List<WorkerRecord<N>>, Memory>
    requires of { AreSeatsOf engine.now seats }
    ensures { IfOk result
        (λ all. AreWork N.names N.code N.first seats (map (λ r. ended_so r.seat r.refusal) all)) }
{
    let mut records = List::new(alloc);
    records.reserve(seats.len())?;
    work_beside(rt, alloc, engine, seats, gate, records)
}
