//! The record of an engine that has ended.

ghost use Rattle.std.specs.Prelude.{◌≡◌, ◌<◌, ◌≤◌, length, map, false, All, sum_by, count_by, IfOk, OnOk};
ghost use Rattle.loose_records.specs.LooseRecords.{IsLoose};
ghost use Rattle.round_ledger.specs.Cells.{HasEnded};
ghost use Rattle.pass_seats.specs.Names.{AreNames};
ghost use Rattle.pass_seats.specs.Desks.{finishes_in};
ghost use Rattle.pass_seats.specs.Seats.{is_done};
ghost use Rattle.pass_gather.specs.Given.{given_of, seat_note, seat_share, AreSeats};
ghost use Rattle.pass_gather.specs.Closing.{IsReady, IsOpenSched};
ghost use Rattle.pass_gather.specs.Parting.{open_cell, seat_amount, HaveColumns};
ghost use Rattle.pass_gather.specs.Gathered.{cell_of, AreBoxes, IsGathered};
ghost use Rattle.pass_gather.specs.Made.{SeatsMade};

use crate::closing::{close_boxes, close_sched};
use crate::laws::{
    a_gathered_run_is_a_loose_record, an_ended_run_is_over, no_pass_is_open, the_scheduler_gathers,
};
use crate::listing::{sort_records, take_passes};
use crate::parting::{OpenBox, take_desks, take_seats};
use crate::settling::{audit_all, settle_all};
use compat_scheduler::laws::passes_are_numbered;
use loose_records::{Record, SchedEntry};
use pass_seats::{BoxDesk, EngineNames, SchedDesk, SeatCore, SeatPass};
use quit_word::QuitWord;
use round_ledger::SchedCell;
use seuss_base::{List, Memory};
use seuss_program::State;
use std::alloc::Global;
use step_journal::{Note, Share};

/// What the journals of an engine are closed with.
#[derive(Drop)]
pub struct EngineParts<N: EngineNames> {
    pub boxes: Vec<OpenBox<N>>,
    pub sched: SchedCell,
    pub notes: List<Note<SchedEntry>>,
    pub shares: List<Share>,
    pub passes: Vec<SeatPass>,
}

/// Takes an engine apart that nobody gave up. No cell is broken, its seats count all finishes, and they were given all
/// passes that were started.
fn take_engine<N: EngineNames>(
    alloc: Global,
    desks: Vec<BoxDesk<N>>,
    sched: SchedDesk<N>,
    quit: QuitWord,
    seats: Vec<SeatCore<N>>,
) -> Result<EngineParts<N>, Memory>
    requires quit { quit ≡ N.names.quit }
    requires boxes { AreBoxes N.names (map cell_of desks.items) }
    requires seats { AreSeats N.names seats.items }
    requires parts { N.parts ≡ N.names.seats }
    requires given { sched.cell.broken ≡ false →
        sched.cell.machine.starts ≤ sum_by (λ s. count_by is_done s.passes) seats.items →
        length (given_of seats.items) ≡ sched.cell.machine.starts }
    requires ended { sched.cell.broken ≡ false → HasEnded N.names.setting.scheduler sched.cell.machine }
    ensures cells { IfOk result (λ r. map open_cell r.boxes.items ≡ map cell_of desks.items) }
    ensures columns { IfOk result (λ r. HaveColumns seats.items r.boxes.items) }
    ensures ready { IfOk result (λ r. All (IsReady N.names) r.boxes.items) }
    ensures sched { IfOk result (λ r. r.sched ≡ sched.cell) }
    ensures whole { OnOk result (IsOpenSched N.names sched.cell) }
    ensures notes { IfOk result (λ r. r.notes ≡ map seat_note seats.items) }
    ensures shares { IfOk result (λ r. r.shares ≡ map seat_share seats.items) }
    ensures passes { IfOk result (λ r. r.passes.items ≡ given_of seats.items) }
    ensures counted { OnOk result
        (0 < N.names.seats → sum_by seat_amount seats.items ≡ finishes_in sched.cell.journal.log) }
    ensures ended { OnOk result (HasEnded N.names.setting.scheduler sched.cell.machine) }
    ensures given { OnOk result (length (given_of seats.items) ≡ sched.cell.machine.starts) }
{
    passes_are_numbered();
    an_ended_run_is_over();
    let parted = take_desks(alloc, desks)?;
    let made = take_seats(alloc, parted.boxes, seats)?;
    let (cell, view, mut first, mut book) = sched.apart();
    let mut views = parted.views;
    views.push(view)?;
    settle_all(&quit, &mut first, made.views, views);
    audit_all(&mut book, made.parts);
    cell.facts();
    Ok(EngineParts {
        boxes: made.boxes,
        sched: cell,
        notes: made.notes,
        shares: made.shares,
        passes: made.passes,
    })
}

/// Closes the journals of an engine that has ended, with all its seats, and makes its record. No call with a seat
/// was refused for want of memory, and nobody gave the engine up: so no cell is broken. That all passes were given that
/// were started has to hold where the seats have finished as many, as they then have.
pub fn gather<N: EngineNames>(
    alloc: Global,
    first: State,
    desks: Vec<BoxDesk<N>>,
    sched: SchedDesk<N>,
    quit: QuitWord,
    seats: Vec<SeatCore<N>>,
) -> Result<Record, Memory>
    requires named { AreNames N.names N.code N.first }
    requires first { first ≡ N.names.first }
    requires quit { quit ≡ N.names.quit }
    requires boxes { AreBoxes N.names (map cell_of desks.items) }
    requires seats { AreSeats N.names seats.items }
    requires parts { N.parts ≡ N.names.seats }
    requires given { sched.cell.broken ≡ false →
        sched.cell.machine.starts ≤ sum_by (λ s. count_by is_done s.passes) seats.items →
        length (given_of seats.items) ≡ sched.cell.machine.starts }
    requires ended { sched.cell.broken ≡ false → HasEnded N.names.setting.scheduler sched.cell.machine }
    ensures whole { OnOk result (sched.cell.broken ≡ false) }
    ensures gathered { IfOk result (IsGathered N.names.first (map cell_of desks.items) sched.cell seats.items) }
    ensures loose { IfOk result (IsLoose N.names.setting) }
    ensures made { IfOk result (SeatsMade seats.items) }
{
    an_ended_run_is_over();
    no_pass_is_open();
    the_scheduler_gathers();
    a_gathered_run_is_a_loose_record();
    let parts = take_engine(alloc, desks, sched, quit, seats)?;
    parts.sched.facts();
    let mut notes = parts.notes;
    let mut shares = parts.shares;
    let records = take_passes(alloc, parts.passes, &mut notes, &mut shares)?;
    let sched = close_sched::<N>(parts.sched, notes, shares);
    let passes = sort_records(alloc, records)?;
    let (last, journals) = close_boxes(alloc, parts.boxes)?;
    Ok(Record {
        first,
        last,
        boxes: journals,
        sched,
        passes,
    })
}
