//! The seats of workers, taken apart.

ghost use Rattle.std.specs.Prelude.{◌≡◌, [], ◌∷◌, ◌++◌, length, map, All, Option, IfOk, OnOk};
ghost use Rattle.worker_seats.specs.Workers.{IsWorker};
ghost use Rattle.shared_engine.specs.Rings.{name_of};
ghost use Rattle.engine_gather.specs.Columns.{ColumnState, with_back};
ghost use Rattle.engine_gather.specs.Parting.{AreApart, IsAt, earlier};

use crate::turn_column::{TurnColumn, open_columns, put_row};
use box_turn::BoxTurn;
use pass_seats::{EngineNames, SeatCore};
use ready_queue::{FirstSeat, ReadySeat};
use seuss_base::Memory;
use std::alloc::Global;
use worker_seats::{ReadyItem, TurnDesk, WorkerParts, WorkerSeat};

/// The parts of all seats, seat by seat. Their seats at the turns of the boxes have come back to these, and
/// the first view of the ready queue lies by itself.
#[derive(Drop)]
pub(crate) struct SeatsApart<N: EngineNames> {
    pub(crate) columns: Vec<TurnColumn<N>>,
    pub(crate) cores: Vec<SeatCore<N>>,
    pub(crate) rows: Vec<ReadySeat<ReadyItem<N>>>,
    pub(crate) line: Option<FirstSeat<ReadyItem<N>>>,
}

/// The first of two views that is there.
fn earlier_of<N: EngineNames>(
    one: Option<FirstSeat<ReadyItem<N>>>,
    other: Option<FirstSeat<ReadyItem<N>>>,
) -> Option<FirstSeat<ReadyItem<N>>>
    ensures { result ≡ earlier one other }
{
    match one {
        Some(view) => Some(view),
        None => other,
    }
}

impl<N: EngineNames> SeatsApart<N> {
    /// Takes one seat more apart.
    fn take(&mut self, seat: WorkerSeat<N>) -> Result<(), Memory>
        requires many { length self.old.columns.items ≡ length N.names.boxes }
        requires turns { IsAt (map (λ (c : ColumnState). c.name) self.old.columns.items) seat }
        ensures columns { OnOk result (self.new.columns.items ≡ map with_back self.old.columns.items) }
        ensures cores { OnOk result (self.new.cores.items ≡ self.old.cores.items ++ seat.core ∷ []) }
        ensures rows { OnOk result (self.new.rows.items ≡ self.old.rows.items ++ seat.ready ∷ []) }
        ensures line { OnOk result (self.new.line ≡ earlier self.old.line seat.first) }
        ensures kept { OnOk result (IsWorker N.names seat) }
    {
        let WorkerParts {
            core,
            turns,
            ready,
            first,
        } = seat.apart();
        put_row(&mut self.columns, turns)?;
        self.cores.push(core)?;
        self.rows.push(ready)?;
        self.line = earlier_of(self.line.take(), first);
        Ok(())
    }
}

/// Takes all seats apart, at the turns of the boxes.
pub(crate) fn take_seats<N: EngineNames>(
    alloc: Global,
    turns: Vec<BoxTurn<TurnDesk<N>>>,
    seats: Vec<WorkerSeat<N>>,
) -> Result<SeatsApart<N>, Memory>
    requires many { length turns.items ≡ length N.names.boxes }
    requires seats { All (IsAt (map name_of turns.items)) seats.items }
    ensures apart { IfOk result (AreApart turns.items seats.items) }
    ensures kept { OnOk result (All (IsWorker N.names) seats.items) }
{
    let mut made = SeatsApart {
        columns: open_columns(alloc, turns)?,
        cores: Vec::new(alloc),
        rows: Vec::new(alloc),
        line: None,
    };
    for seat in seats {
        made.take(seat)?;
    }
    Ok(made)
}
