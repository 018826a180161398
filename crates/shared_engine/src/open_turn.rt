//! Turns whose seats are dealt to workers, while an engine is made.

ghost use Rattle.std.specs.Prelude.{◌≡◌, ℕ, ◌+◌, ◌<◌, length, map, IfOk, OnOk};
ghost use Rattle.box_turn.specs.Seats as T;
ghost use Rattle.pass_seats.specs.Opening.{AreNewBoxes};
ghost use Rattle.shared_engine.specs.Rings.{AreTurns, IsTurnOf};
ghost use Rattle.shared_engine.specs.Beginnings.{fresh_turn};

use box_turn::{BoxTurn, TurnSeat};
use pass_seats::{BoxDesk, EngineNames};
use seuss_base::{List, Memory};
use std::alloc::Global;
use std::marker::Model;
use worker_seats::TurnDesk;

/// A turn with those of its seats that weren't dealt yet. Contracts see the turn.
#[derive(Drop)]
pub(crate) struct OpenTurn<N: EngineNames> {
    pub(crate) turn: BoxTurn<TurnDesk<N>>,
    pub(crate) seats: List<TurnSeat<TurnDesk<N>>>,
}

impl<N: EngineNames> Model for OpenTurn<N> {
    ghost use Rattle.std.specs.Prelude.{◌≡◌, ℕ, All};
    ghost use Rattle.std.specs.Coded.{coded_ℕ};
    ghost use Rattle.box_turn.specs.Seats.{TurnState, turn_code};
    ghost use Rattle.shared_engine.specs.Beginnings.{fresh_turn};

    ghost Value = { TurnState ℕ };

    ghost coded = { turn_code coded_ℕ };

    ghost view = { λ o. o.turn };

    ghost invariant = { λ o. All (λ s. s ≡ fresh_turn o.turn) o.seats };
}

impl<N: EngineNames> OpenTurn<N> {
    /// The desk of a box in a turn, with so many seats.
    fn new(alloc: Global, desk: BoxDesk<N>, number: u32, seats: u32) -> Result<OpenTurn<N>, Memory>
        requires some { 0 < seats }
        requires number { desk.cell.number ≡ number }
        ensures { IfOk result (λ made. (made.names ≡ number) × (made.seats ≡ seats)) }
    {
        let (turn, seats) = BoxTurn::new(alloc, TurnDesk::new(desk), &number, seats)?;
        Ok(OpenTurn { turn, seats })
    }

    /// Deals one of the seats.
    fn deal(&mut self) -> Result<TurnSeat<TurnDesk<N>>, Memory>
        ensures same { self.new ≡ self.old }
        ensures seat { IfOk result (λ s. s ≡ fresh_turn self.old) }
    {
        match self.seats.pop() {
            Some(seat) => Ok(seat),
            None => Err(Memory),
        }
    }
}

/// One turn more, which is that of the next box.
fn push_turn<N: EngineNames>(turns: &mut Vec<OpenTurn<N>>, turn: OpenTurn<N>) -> Result<(), Memory>
    requires are { AreTurns N.names turns.old.items }
    requires next { IsTurnOf N.names (length turns.old.items) turn }
    ensures are { OnOk result (AreTurns N.names turns.new.items) }
    ensures len { OnOk result (length turns.new.items ≡ length turns.old.items + 1) }
{
    turns.push(turn)?;
    Ok(())
}

/// The turns of the desks of all boxes, with so many seats each.
pub(crate) fn open_turns<N: EngineNames>(
    alloc: Global,
    desks: Vec<BoxDesk<N>>,
    seats: u32,
) -> Result<Vec<OpenTurn<N>>, Memory>
    requires some { 0 < seats }
    requires all { seats ≡ N.names.seats }
    requires new { AreNewBoxes N.names desks.items }
    ensures turns { IfOk result (λ turns. AreTurns N.names turns.items) }
    ensures many { IfOk result (λ turns. length turns.items ≡ length desks.items) }
{
    let mut turns = Vec::new(alloc);
    let mut number: u32 = 0;
    for desk in desks {
        let turn = OpenTurn::new(alloc, desk, number, seats)?;
        push_turn(&mut turns, turn)?;
        number = number.checked_add(1).ok_or(Memory)?;
    }
    Ok(turns)
}

/// One seat of each turn.
pub(crate) fn deal_turns<N: EngineNames>(
    alloc: Global,
    turns: &mut Vec<OpenTurn<N>>,
) -> Result<Vec<TurnSeat<TurnDesk<N>>>, Memory>
    ensures same { turns.new.items ≡ turns.old.items }
    ensures seats { IfOk result (λ list. list.items ≡ map fresh_turn turns.old.items) }
{
    let mut list = Vec::new(alloc);
    for b in 0..turns.len() {
        let seat = turns[b].deal()?;
        list.push(seat)?;
    }
    Ok(list)
}

/// The turns without the seats.
pub(crate) fn turns_alone<N: EngineNames>(
    alloc: Global,
    given: Vec<OpenTurn<N>>,
) -> Result<Vec<BoxTurn<TurnDesk<N>>>, Memory>
    ensures { IfOk result (λ turns. turns.items ≡ given.items) }
{
    let mut turns = Vec::new(alloc);
    for one in given {
        let OpenTurn { turn, seats: _ } = one;
        turns.push(turn)?;
    }
    Ok(turns)
}
