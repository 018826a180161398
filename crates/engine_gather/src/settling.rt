//! What the ready queue says once all seats have come back.

ghost use Rattle.std.specs.Prelude.{◌≡◌, ◌++◌, [], List, length, map, All};
ghost use Rattle.ready_queue.specs.declared.view.Mark.{Mark};
ghost use Rattle.ready_queue.specs.Rules.{IsSettled};
ghost use Rattle.engine_gather.specs.Parting.{row_of};

use pass_seats::EngineNames;
use ready_queue::{FirstSeat, ReadyQueue, ReadySeat};
use std::sync::Wait;
use worker_seats::ReadyItem;

/// Takes the rows of all seats into the first view.
fn join_rows<N: EngineNames>(
    queue: &ReadyQueue<ReadyItem<N>>,
    line: &mut FirstSeat<ReadyItem<N>>,
    rows: Vec<ReadySeat<ReadyItem<N>>>,
)
    requires line { line.old.queue ≡ queue.now }
    requires rows { All (λ r. r.queue ≡ queue.now) rows.items }
    ensures { line.new ≡ record line.old { rows = map row_of rows.items ++ line.old.rows } }
{
    let mut left = rows;
    while let Some(row) = left.pop() {
        queue.join(line, row);
    }
}

/// Takes the rows of all seats into the first view, and looks how many items are left. What is left, and
/// what the seats have taken, is just what they have pushed, each item once.
pub(crate) fn settle<N: EngineNames, R: Wait>(
    rt: &R,
    queue: &ReadyQueue<ReadyItem<N>>,
    line: FirstSeat<ReadyItem<N>>,
    rows: Vec<ReadySeat<ReadyItem<N>>>,
)
    requires line { line ≡ record { queue = queue.now; rows = []; given = length rows.items } }
    requires rows { All (λ r. r.queue ≡ queue.now) rows.items }
    ensures { (items : List Mark) × IsSettled items (map row_of rows.items) (length rows.items) }
{
    let mut line = line;
    join_rows(queue, &mut line, rows);
    let _many = queue.len(rt, &mut line);
}
