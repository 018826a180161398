//! The threaded engine, taken apart once its run has ended.

ghost use Rattle.std.specs.Prelude.{◌≡◌, length};
ghost use Rattle.pass_seats.specs.Names.{AreNames};
ghost use Rattle.shared_engine.specs.Rings.{AreTurns, ring_with};

use crate::Engine;
use box_turn::BoxTurn;
use pass_seats::{EngineNames, SchedDesk};
use quit_word::QuitWord;
use ready_queue::ReadyQueue;
use seuss_program::State;
use worker_seats::{ReadyItem, TurnDesk};

/// The parts of an engine: the state that it was made with, the turns of its boxes, the queue of started passes, the
/// scheduler's desk, and the quit word.
#[derive(Drop)]
pub struct EngineParts<N: EngineNames> {
    pub first: State,
    pub boxes: Vec<BoxTurn<TurnDesk<N>>>,
    pub queue: ReadyQueue<ReadyItem<N>>,
    pub sched: SchedDesk<N>,
    pub quit: QuitWord,
}

impl<'a, N: EngineNames> Engine<'a, N> {
    /// The parts of the engine, which no other thread has any more, with what it has kept of them. Nothing is known of
    /// what others did at the scheduler's desk, which comes out of its lock.
    pub fn apart(self) -> EngineParts<N>
        ensures first { result.first ≡ N.names.first }
        ensures ring { ring_with result.boxes.items result.queue ≡ self.entry }
        ensures many { length result.boxes.items ≡ length N.names.boxes }
        ensures turns { AreTurns N.names result.boxes.items }
        ensures quit { result.quit ≡ N.names.quit }
        ensures named { AreNames N.names N.code N.first }
        ensures parts { N.parts ≡ N.names.seats }
    {
        let Engine {
            running,
            boxes,
            queue,
            sched,
            quit,
        } = self;
        EngineParts {
            first: running.first,
            boxes,
            queue,
            sched: sched.into_inner(),
            quit,
        }
    }
}
