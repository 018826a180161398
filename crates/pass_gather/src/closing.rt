//! The closes of an engine's journals.

ghost use Rattle.std.specs.Prelude.{◌≡◌, ◌+◌, length, map, All, IfOk, OnOk};
ghost use Rattle.std.specs.List.{AllZip};
ghost use Rattle.step_journal.specs.Histories.{entries_of};
ghost use Rattle.step_journal.specs.Journals.{IsPair};
ghost use Rattle.pass_gather.specs.Closing.{note_of, share_of, IsReady, IsOpenSched, IsClosed, ClosesSched};
ghost use Rattle.pass_gather.specs.Gathered.{vars_in, log_in, state_in};
ghost use Rattle.pass_gather.specs.Parting.{open_cell};

use crate::parting::OpenBox;
use loose_records::{BoxEntry, SchedEntry};
use pass_seats::{EngineNames, Place};
use round_ledger::SchedCell;
use seuss_base::{List, Memory};
use seuss_program::{State, Vars};
use std::alloc::Global;
use step_journal::{Note, Share};

/// The notes and the shares of places, in their order.
fn split_places(
    alloc: Global,
    column: List<Place>,
) -> Result<(List<Note<BoxEntry>>, List<Share>), Memory>
    ensures notes { IfOk result (λ r. r.0 ≡ map note_of column) }
    ensures shares { IfOk result (λ r. r.1 ≡ map share_of column) }
{
    let mut notes = List::new(alloc);
    let mut shares = List::new(alloc);
    for place in column.into_vec() {
        let (note, share) = place.apart();
        notes.push(note)?;
        shares.push(share)?;
    }
    Ok((notes, shares))
}

/// Closes the journal of a box, and gives its variables and its entries.
fn close_box<N: EngineNames>(
    alloc: Global,
    shut: OpenBox<N>,
) -> Result<(Vars, List<BoxEntry>), Memory>
    requires { IsReady N.names shut }
    ensures vars { IfOk result (λ r. r.0 ≡ vars_in shut.cell) }
    ensures entries { IfOk result (λ r. r.1 ≡ entries_of shut.cell.journal.log) }
    ensures closed { OnOk result (IsClosed N.names N.code N.first shut) }
{
    let OpenBox { cell, column } = shut;
    let (notes, shares) = split_places(alloc, column)?;
    let (vars, closed) = cell.close(notes, shares);
    Ok((vars, closed.entries))
}

/// Closes the journals of all boxes, and gives the state that they are in and their entries.
pub fn close_boxes<N: EngineNames>(
    alloc: Global,
    boxes: Vec<OpenBox<N>>,
) -> Result<(State, List<List<BoxEntry>>), Memory>
    requires { All (IsReady N.names) boxes.items }
    ensures state { IfOk result (λ r. r.0 ≡ state_in (map open_cell boxes.items)) }
    ensures journals { IfOk result (λ r.
        r.1 ≡ map entries_of (map log_in (map open_cell boxes.items))) }
    ensures closed { OnOk result (All (IsClosed N.names N.code N.first) boxes.items) }
{
    let mut last = List::new(alloc);
    let mut journals = List::new(alloc);
    for shut in boxes {
        let (vars, entries) = close_box(alloc, shut)?;
        last.push(vars)?;
        journals.push(entries)?;
    }
    Ok((State { boxes: last }, journals))
}

/// Closes the journal of the scheduler with all notes and shares, and gives its entries. It takes no memory.
pub fn close_sched<N: EngineNames>(
    cell: SchedCell,
    notes: List<Note<SchedEntry>>,
    shares: List<Share>,
) -> List<SchedEntry>
    requires cell { IsOpenSched N.names cell }
    requires all { length notes ≡ N.names.seats + cell.machine.starts }
    requires notes { All (λ n. n.journal ≡ N.names.sched) notes }
    requires pairs { AllZip IsPair notes shares }
    ensures entries { result ≡ entries_of cell.journal.log }
    ensures closes { ClosesSched N.names cell notes }
{
    cell.facts();
    cell.close(notes, shares).entries
}
