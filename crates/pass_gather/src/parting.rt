//! The seats and the desks of an engine, taken apart.

ghost use Rattle.std.specs.Prelude.{◌≡◌, [], ◌∷◌, ◌++◌, length, map, All, IfOk, OnOk};
ghost use Rattle.pass_seats.specs.Desks.{IsBoxDesk};
ghost use Rattle.pass_gather.specs.Gathered.{cell_of};
ghost use Rattle.pass_gather.specs.Parting.{open_cell, view_of, with_place, with_row, parts_in, amount_in};
ghost use Rattle.pass_gather.specs.Parting.{AreApart};

use box_lock::BoxCell;
use loose_records::SchedEntry;
use pass_seats::{BoxDesk, EngineNames, Place, SeatCore, SeatParts, SeatPass};
use quit_word::{QuitSeat, QuitView};
use seuss_base::{List, Memory};
use std::alloc::Global;
use std::sync::ledger::Share as Part;
use step_journal::{Note, Share};

/// A box that is to be closed: its cell, and the places of the seats there, by the numbers of the seats.
#[derive(Drop)]
pub struct OpenBox<N: EngineNames> {
    pub cell: BoxCell<N>,
    pub column: List<Place>,
}

/// The boxes of an engine, and the views of the quit word that stood beside them.
#[derive(Drop)]
pub struct DesksApart<N: EngineNames> {
    pub boxes: Vec<OpenBox<N>>,
    pub views: Vec<QuitView>,
}

/// The parts of all seats, seat by seat. Their places stand in the columns of the boxes.
#[derive(Drop)]
pub struct SeatsApart<N: EngineNames> {
    pub boxes: Vec<OpenBox<N>>,
    pub notes: List<Note<SchedEntry>>,
    pub shares: List<Share>,
    pub views: Vec<QuitSeat>,
    pub parts: Vec<Part<N>>,
    pub passes: Vec<SeatPass>,
}

impl<N: EngineNames> OpenBox<N> {
    /// Puts the place of the next seat into the column.
    fn put(&mut self, place: Place) -> Result<(), Memory>
        ensures { OnOk result (self.new ≡ with_place self.old place) }
    {
        self.column.push(place)
    }
}

/// Takes the desks of all boxes apart. No box has places in its column.
pub fn take_desks<N: EngineNames>(
    alloc: Global,
    desks: Vec<BoxDesk<N>>,
) -> Result<DesksApart<N>, Memory>
    ensures cells { IfOk result (λ r. map open_cell r.boxes.items ≡ map cell_of desks.items) }
    ensures columns { IfOk result (λ r. All (λ o. o.column ≡ []) r.boxes.items) }
    ensures views { IfOk result (λ r. r.views.items ≡ map view_of desks.items) }
    ensures kept { OnOk result (All (IsBoxDesk N.names) desks.items) }
{
    let mut boxes = Vec::new(alloc);
    let mut views = Vec::new(alloc);
    for desk in desks {
        let (cell, view) = desk.apart();
        let column = List::new(alloc);
        boxes.push(OpenBox { cell, column })?;
        views.push(view)?;
    }
    Ok(DesksApart { boxes, views })
}

/// Puts the places of a seat into the columns of the boxes.
fn put_row<N: EngineNames>(boxes: &mut Vec<OpenBox<N>>, row: Vec<Place>) -> Result<(), Memory>
    requires { length row.items ≡ length boxes.old.items }
    ensures { OnOk result (boxes.new.items ≡ with_row boxes.old.items row.items) }
{
    let mut number = 0;
    for place in row {
        boxes[number].put(place)?;
        number += 1;
    }
    Ok(())
}

/// Puts passes after others.
fn put_passes(passes: &mut Vec<SeatPass>, more: Vec<SeatPass>) -> Result<(), Memory>
    ensures { OnOk result (passes.new.items ≡ passes.old.items ++ more.items) }
{
    for pass in more {
        passes.push(pass)?;
    }
    Ok(())
}

impl<N: EngineNames> SeatsApart<N> {
    /// Takes one seat more apart.
    fn take(&mut self, seat: SeatCore<N>) -> Result<(), Memory>
        requires { length self.old.boxes.items ≡ length N.names.boxes }
        ensures boxes { OnOk result (self.new.boxes.items ≡ with_row self.old.boxes.items seat.places) }
        ensures many { OnOk result (length seat.places ≡ length self.old.boxes.items) }
        ensures notes { OnOk result (self.new.notes ≡ self.old.notes ++ seat.note ∷ []) }
        ensures shares { OnOk result (self.new.shares ≡ self.old.shares ++ seat.share ∷ []) }
        ensures views { OnOk result (self.new.views.items ≡ self.old.views.items ++ seat.quit ∷ []) }
        ensures parts { OnOk result
            (map parts_in self.new.parts.items ≡ map parts_in self.old.parts.items ++ seat.parts ∷ []) }
        ensures amounts { OnOk result
            (map amount_in self.new.parts.items ≡ map amount_in self.old.parts.items ++ seat.amount ∷ []) }
        ensures passes { OnOk result (self.new.passes.items ≡ self.old.passes.items ++ seat.passes) }
    {
        seat.facts();
        let SeatParts {
            places,
            note,
            share,
            quit,
            part,
            passes,
        } = seat.apart();
        put_row(&mut self.boxes, places)?;
        self.notes.push(note)?;
        self.shares.push(share)?;
        self.views.push(quit)?;
        self.parts.push(part)?;
        put_passes(&mut self.passes, passes)
    }
}

/// Takes all seats apart, at these boxes.
pub fn take_seats<N: EngineNames>(
    alloc: Global,
    boxes: Vec<OpenBox<N>>,
    seats: Vec<SeatCore<N>>,
) -> Result<SeatsApart<N>, Memory>
    requires many { length boxes.items ≡ length N.names.boxes }
    requires columns { All (λ o. o.column ≡ []) boxes.items }
    ensures { IfOk result (AreApart (map open_cell boxes.items) seats.items) }
{
    let mut made = SeatsApart {
        boxes,
        notes: List::new(alloc),
        shares: List::new(alloc),
        views: Vec::new(alloc),
        parts: Vec::new(alloc),
        passes: Vec::new(alloc),
    };
    for seat in seats {
        made.take(seat)?;
    }
    Ok(made)
}
