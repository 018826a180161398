//! The turns of boxes, with the seats there that have come back.

ghost use Rattle.std.specs.Prelude.{◌≡◌, map, All, IfOk, OnOk};
ghost use Rattle.engine_gather.specs.Columns.{IsFree, IsFull, IsRow, box_of, column_of, number_of, with_back};

use box_turn::{BoxTurn, TurnSeat};
use pass_seats::{BoxDesk, EngineNames};
use seuss_base::{List, Memory};
use std::alloc::Global;
use std::marker::Model;
use worker_seats::TurnDesk;

/// The turn of a box that is to be closed, with the seats there that have come back so far, none of which
/// holds it. Contracts see which turn it is, of which box, how many seats it has, and how many have come
/// back.
#[derive(Drop)]
pub(crate) struct TurnColumn<N: EngineNames> {
    turn: BoxTurn<TurnDesk<N>>,
    back: List<TurnSeat<TurnDesk<N>>>,
}

impl<N: EngineNames> Model for TurnColumn<N> {
    ghost use Rattle.std.specs.Prelude.{length, All};
    ghost use Rattle.engine_gather.specs.Columns.{ColumnState, IsFree, column_of};

    ghost Value = { ColumnState };

    ghost view = { λ c. column_of (length c.back) c.turn };

    ghost invariant = { λ c. All (IsFree c.turn.name) c.back };
}

impl<N: EngineNames> TurnColumn<N> {
    /// The turn, to which no seat has come back.
    fn new(alloc: Global, turn: BoxTurn<TurnDesk<N>>) -> TurnColumn<N>
        ensures { result ≡ column_of 0 turn }
    {
        TurnColumn {
            turn,
            back: List::new(alloc),
        }
    }

    /// Takes a seat in that has come back.
    fn put(&mut self, seat: TurnSeat<TurnDesk<N>>) -> Result<(), Memory>
        requires { IsFree self.old.name seat }
        ensures { OnOk result (self.new ≡ with_back self.old) }
    {
        self.back.push(seat)
    }

    /// Closes the turn with all its seats, and gives the desk of its box out.
    fn close(self) -> BoxDesk<N>
        requires { IsFull self }
        ensures { result.cell.number ≡ self.number }
    {
        let TurnColumn { turn, back } = self;
        turn.close(back).into_desk()
    }
}

/// The turns, to which no seat has come back.
pub(crate) fn open_columns<N: EngineNames>(
    alloc: Global,
    turns: Vec<BoxTurn<TurnDesk<N>>>,
) -> Result<Vec<TurnColumn<N>>, Memory>
    ensures { IfOk result (λ columns. columns.items ≡ map (column_of 0) turns.items) }
{
    let mut columns = Vec::new(alloc);
    for turn in turns {
        columns.push(TurnColumn::new(alloc, turn))?;
    }
    Ok(columns)
}

/// Takes the seats in that one worker has at all turns.
pub(crate) fn put_row<N: EngineNames>(
    columns: &mut Vec<TurnColumn<N>>,
    row: Vec<TurnSeat<TurnDesk<N>>>,
) -> Result<(), Memory>
    requires { IsRow columns.old.items row.items }
    ensures { OnOk result (columns.new.items ≡ map with_back columns.old.items) }
{
    let mut number = 0;
    for seat in row {
        columns[number].put(seat)?;
        number += 1;
    }
    Ok(())
}

/// Closes all turns, to which all seats have come back, and gives the desks of their boxes out.
pub(crate) fn close_columns<N: EngineNames>(
    alloc: Global,
    columns: Vec<TurnColumn<N>>,
) -> Result<Vec<BoxDesk<N>>, Memory>
    requires { All IsFull columns.items }
    ensures { IfOk result (λ desks. map box_of desks.items ≡ map number_of columns.items) }
{
    let mut desks = Vec::new(alloc);
    for column in columns {
        desks.push(column.close())?;
    }
    Ok(desks)
}
