//! The desks and the seats of an engine, made from its tables.

ghost use Rattle.std.specs.Prelude.{◌≡◌, ℕ, [], ◌∷◌, ◌++◌, ◌+◌, ◌<◌, length, None, IfOk, OnOk};
ghost use Rattle.seuss_program.specs.Programs.{vars_of};
ghost use Rattle.compat_scheduler.specs.Machines.{beginning};
ghost use Rattle.pass_seats.specs.Names.{AreNames, table_at};
ghost use Rattle.pass_seats.specs.Opening.{AreNamesOf, fresh_sched, ArePlacesOf, AreNewBoxes, IsNewBox};
ghost use Rattle.pass_seats.specs.Opening.{AreNewSeats};

use crate::{BoxDesk, EngineBlank, EngineNames, FreshBox, SchedDesk, SeatCore, SeatPlaces};
use box_lock::BoxCell;
use compat_scheduler::SchedCore;
use quit_word::{QuitFirst, QuitWord};
use round_ledger::SchedCell;
use seuss_base::Memory;
use seuss_program::{State, Vars};
use std::alloc::Global;
use std::sync::ledger::Share as Part;

/// What an engine is made of at its beginning: the desks of its boxes and its seats, by their numbers, the
/// scheduler's desk, and the quit word.
#[derive(Drop)]
pub struct Workshop<N: EngineNames> {
    pub boxes: Vec<BoxDesk<N>>,
    pub sched: SchedDesk<N>,
    pub quit: QuitWord,
    pub seats: Vec<SeatCore<N>>,
}

impl<N: EngineNames> Workshop<N> {
    /// The desks and the seats of an engine over these tables, for this scheduler and this first state,
    /// with so many seats. Want of memory is all that can be refused.
    pub fn open(
        alloc: Global,
        core: SchedCore,
        state: &State,
        seats: u32,
        blank: EngineBlank,
    ) -> Result<Workshop<N>, Memory>
        requires named { AreNames N.names N.code N.first }
        requires names { AreNamesOf N.names blank seats state.now }
        requires setting { core.setting ≡ N.names.setting.scheduler }
        requires beginning { core.machine ≡ beginning core.setting }
        requires ledger { (blank.ledger ≡ N.name) × (blank.parts ≡ N.parts) × (blank.parts ≡ seats) }
        ensures boxes { IfOk result (λ shop. AreNewBoxes N.names shop.boxes.items) }
        ensures many { IfOk result (λ shop. length shop.boxes.items ≡ length N.names.boxes) }
        ensures sched { IfOk result
            (λ shop. shop.sched.cell ≡ fresh_sched N.names.sched N.names.setting.scheduler seats) }
        ensures quit { IfOk result (λ shop. shop.quit ≡ N.names.quit) }
        ensures seats { IfOk result (λ shop. AreNewSeats shop.seats.items) }
        ensures all { IfOk result (λ shop. length shop.seats.items ≡ seats) }
    {
        let EngineBlank {
            boxes,
            sched,
            quit,
            mut first,
            ledger,
        } = blank;
        let mut cell = sched.cell(core);
        let mut places = open_places::<N>(alloc, seats)?;
        let desks = open_boxes::<N>(alloc, boxes, state, &quit, &mut first, &mut places)?;
        let (book, mut part) = ledger.open::<N>();
        let cores = open_seats::<N>(alloc, places, &mut cell, &quit, &mut first, &mut part)?;
        let desk = SchedDesk {
            cell,
            quit: quit.cell(&mut first),
            first,
            book,
        };
        Ok(Workshop {
            boxes: desks,
            sched: desk,
            quit,
            seats: cores,
        })
    }
}

/// The places of so many seats, at no box yet.
fn open_places<N: EngineNames>(alloc: Global, seats: u32) -> Result<Vec<SeatPlaces<N>>, Memory>
    ensures numbers { IfOk result (λ places. ArePlacesOf 0 places.items) }
    ensures all { IfOk result (λ places. length places.items ≡ seats) }
{
    let mut places = Vec::new(alloc);
    for number in 0..seats {
        places.push(SeatPlaces::new(alloc, number))?;
    }
    Ok(places)
}

/// Each seat takes its place at a box.
fn join_all<N: EngineNames>(
    cell: &mut BoxCell<N>,
    places: &mut Vec<SeatPlaces<N>>,
) -> Result<(), Memory>
    requires seats { ArePlacesOf cell.old.number places.old.items }
    requires empty { (cell.old.journal.log ≡ []) × (cell.old.journal.makers ≡ 0) }
    requires name { cell.old.journal.name ≡ table_at N.names cell.old.number }
    ensures seats { OnOk result (ArePlacesOf (cell.old.number + 1) places.new.items) }
    ensures all { OnOk result (length places.new.items ≡ length places.old.items) }
    ensures cell { OnOk result (cell.new ≡ record cell.old {
      journal = record cell.old.journal { makers = length places.old.items };
    }) }
{
    for w in 0..places.len() {
        places[w].join(cell)?;
    }
    Ok(())
}

/// The desk of a box, at which each seat has its place.
fn open_box<N: EngineNames>(
    fresh: FreshBox,
    number: u32,
    vars: Vars,
    quit: &QuitWord,
    first: &mut QuitFirst,
    places: &mut Vec<SeatPlaces<N>>,
) -> Result<BoxDesk<N>, Memory>
    requires named { AreNames N.names N.code N.first }
    requires vars { vars.values ≡ vars_of N.names.first number }
    requires name { fresh ≡ table_at N.names number }
    requires quit { (quit.now ≡ N.names.quit) × (first.old.name ≡ N.names.quit) }
    requires seats { ArePlacesOf number places.old.items }
    requires all { length places.old.items ≡ N.names.seats }
    ensures desk { IfOk result (λ desk. IsNewBox N.names number desk) }
    ensures seats { OnOk result (ArePlacesOf (number + 1) places.new.items) }
    ensures all { OnOk result (length places.new.items ≡ length places.old.items) }
    ensures first { OnOk result (first.new ≡ first.old) }
{
    let mut cell = fresh.cell::<N>(number, vars);
    join_all(&mut cell, places)?;
    Ok(BoxDesk {
        cell,
        quit: quit.cell(first),
    })
}

/// The desk of the next box, behind those of the boxes before it.
fn open_next<N: EngineNames>(
    alloc: Global,
    fresh: FreshBox,
    state: &State,
    quit: &QuitWord,
    first: &mut QuitFirst,
    places: &mut Vec<SeatPlaces<N>>,
    desks: &mut Vec<BoxDesk<N>>,
) -> Result<(), Memory>
    requires named { AreNames N.names N.code N.first }
    requires state { state.now ≡ N.names.first }
    requires within { length desks.old.items < length N.names.boxes }
    requires name { fresh ≡ table_at N.names (length desks.old.items) }
    requires quit { (quit.now ≡ N.names.quit) × (first.old.name ≡ N.names.quit) }
    requires seats { ArePlacesOf (length desks.old.items) places.old.items }
    requires all { length places.old.items ≡ N.names.seats }
    requires boxes { AreNewBoxes N.names desks.old.items }
    ensures boxes { OnOk result (AreNewBoxes N.names desks.new.items) }
    ensures many { OnOk result (length desks.new.items ≡ length desks.old.items + 1) }
    ensures seats { OnOk result (ArePlacesOf (length desks.old.items + 1) places.new.items) }
    ensures all { OnOk result (length places.new.items ≡ length places.old.items) }
    ensures first { OnOk result (first.new ≡ first.old) }
{
    let number = desks.len();
    let vars = state.boxes.as_slice()[number].copy(alloc)?;
    let desk = open_box(fresh, number as u32, vars, quit, first, places)?;
    desks.push(desk)?;
    Ok(())
}

/// The desks of all boxes.
fn open_boxes<N: EngineNames>(
    alloc: Global,
    fresh: Vec<FreshBox>,
    state: &State,
    quit: &QuitWord,
    first: &mut QuitFirst,
    places: &mut Vec<SeatPlaces<N>>,
) -> Result<Vec<BoxDesk<N>>, Memory>
    requires named { AreNames N.names N.code N.first }
    requires state { state.now ≡ N.names.first }
    requires names { fresh.items ≡ N.names.boxes }
    requires quit { (quit.now ≡ N.names.quit) × (first.old.name ≡ N.names.quit) }
    requires seats { ArePlacesOf 0 places.old.items }
    requires all { length places.old.items ≡ N.names.seats }
    ensures boxes { IfOk result (λ desks. AreNewBoxes N.names desks.items) }
    ensures many { IfOk result (λ desks. length desks.items ≡ length N.names.boxes) }
    ensures seats { OnOk result (ArePlacesOf (length N.names.boxes) places.new.items) }
    ensures all { OnOk result (length places.new.items ≡ length places.old.items) }
    ensures first { OnOk result (first.new ≡ first.old) }
{
    let mut desks = Vec::new(alloc);
    for one in fresh {
        open_next(alloc, one, state, quit, first, places, &mut desks)?;
    }
    Ok(desks)
}

/// All seats, each with its places at all boxes, and with a place, a view and a part of its own at the
/// scheduler, the quit word and the ledger.
fn open_seats<N: EngineNames>(
    alloc: Global,
    places: Vec<SeatPlaces<N>>,
    sched: &mut SchedCell,
    quit: &QuitWord,
    first: &mut QuitFirst,
    part: &mut Part<N>,
) -> Result<Vec<SeatCore<N>>, Memory>
    requires places { ArePlacesOf (length N.names.boxes) places.items }
    requires all { length places.items ≡ N.names.seats }
    requires sched { sched.old ≡ fresh_sched N.names.sched sched.old.setting 0 }
    requires quit { quit.now ≡ N.names.quit }
    requires first { first.old ≡ record { given = 0; held = []; seen = None; name = N.names.quit } }
    requires part { (part.old.parts ≡ N.names.seats) × (part.old.amount ≡ 0) }
    ensures seats { IfOk result (λ seats. AreNewSeats seats.items) }
    ensures all { IfOk result (λ seats. length seats.items ≡ N.names.seats) }
    ensures sched { OnOk result (sched.new ≡ fresh_sched N.names.sched sched.old.setting N.names.seats) }
    ensures first { OnOk result
        (first.new ≡ record { given = N.names.seats; held = []; seen = None; name = N.names.quit }) }
{
    let mut seats = Vec::new(alloc);
    for place in places {
        seats.push(place.seat(alloc, sched, quit, first, part)?)?;
    }
    Ok(seats)
}
