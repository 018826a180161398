//! Passes that go from the ready queue to a seat.

ghost use Rattle.std.specs.Prelude.{◌≡◌, ℕ, false, IfOk, IfSome, MatchOption, OnErr};
ghost use Rattle.method_code.specs.Plans.{AreMadeFrom};
ghost use Rattle.pass_seats.specs.Names.{AreNames};
ghost use Rattle.pass_seats.specs.Steps.{Tears};
ghost use Rattle.worker_seats.specs.Workers.{IsSameSeat};
ghost use Rattle.worker_seats.specs.Takes.{NoneStarted, Started};

use crate::{ReadyItem, WorkerSeat};
use method_code::{Code, Plan};
use pass_seats::{EngineNames, Pass};
use quit_word::QuitWord;
use ready_queue::ReadyQueue;
use seuss_base::Memory;
use std::alloc::Global;
use std::sync::Wait;

impl<N: EngineNames> WorkerSeat<N> {
    /// Takes a started pass from the ready queue, by one pop, as the seat's own. None comes exactly where this pop
    /// found the queue empty. Room for the pass is made ahead of the pop. Where memory is refused the seat gives the
    /// engine up, since a pass that was popped may be lost.
    pub fn start<R: Wait>(
        &mut self,
        rt: &R,
        alloc: Global,
        code: &Code,
        plan: &Plan,
        queue: &ReadyQueue<ReadyItem<N>>,
        quit: &QuitWord,
        budget: u64,
    ) -> Result<Option<Pass>, Memory>
        requires named { AreNames N.names N.code N.first }
        requires made { AreMadeFrom N.names.setting.program code.now plan.now }
        requires queue { self.old.ready.queue ≡ queue.now }
        requires quit { quit.now ≡ N.names.quit }
        requires budget { budget ≡ N.names.setting.budget }
        requires whole { self.old.core.torn ≡ false }
        ensures some { IfOk result (λ r. IfSome r (Started N.names self.old self.new)) }
        ensures none { IfOk result (λ r. MatchOption r (NoneStarted self.old self.new) (λ _. ℕ)) }
        ensures refused { OnErr result (Tears self.old.core self.new.core) }
        ensures seat { IsSameSeat self.old self.new }
    {
        self.core.make_room(quit)?;
        match queue.pop(rt, &mut self.ready) {
            Some(ready) => {
                let ReadyItem { item } = ready;
                Ok(Some(self.core.take(alloc, code, plan, quit, budget, item)?))
            }
            None => Ok(None),
        }
    }
}
