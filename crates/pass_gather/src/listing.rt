//! The records of the passes of an engine, in the order of their numbers.

ghost use Rattle.std.specs.Prelude.{◌≡◌, ◌<◌, ◌++◌, length, map, replicate, All, None, IfOk, OnOk};
ghost use Rattle.pass_gather.specs.Given.{pass_note, pass_share, Tells};
ghost use Rattle.pass_gather.specs.Listing.{IsThrough, AreTold, HasSlots, AreNumbered, AreSorted};

use loose_records::{PassRecord, SchedEntry};
use pass_seats::{PassParts, SeatPass};
use seuss_base::{List, Memory};
use std::alloc::Global;
use step_journal::{Note, Share};

/// The record of a finished pass, with the note and the share that came with its ticket.
fn take_pass(pass: SeatPass) -> (Note<SchedEntry>, Share, PassRecord)
    requires { IsThrough pass }
    ensures note { result.0 ≡ pass.note }
    ensures share { result.1 ≡ pass.share }
    ensures record { Tells pass result.2 }
{
    let PassParts {
        ticket,
        claims,
        commit,
        over,
        done,
        note,
        share,
    } = pass.apart();
    let (Some(commit), Some(end), Some(done)) = (commit, over, done) else {
        unreachable!()
    };
    let verdict = done.verdict;
    let made = PassRecord {
        ticket,
        claims,
        commit,
        end,
        verdict,
    };
    (note, share, made)
}

/// The records of finished passes in the order in which these stand. Their notes and shares are put after those
/// that are there.
pub fn take_passes(
    alloc: Global,
    passes: Vec<SeatPass>,
    notes: &mut List<Note<SchedEntry>>,
    shares: &mut List<Share>,
) -> Result<Vec<PassRecord>, Memory>
    requires { All IsThrough passes.items }
    ensures notes { OnOk result (notes.new ≡ notes.old ++ map pass_note passes.items) }
    ensures shares { OnOk result (shares.new ≡ shares.old ++ map pass_share passes.items) }
    ensures records { IfOk result (λ r. AreTold passes.items r.items) }
{
    let mut records = Vec::new(alloc);
    for pass in passes {
        let (note, share, made) = take_pass(pass);
        notes.push(note)?;
        shares.push(share)?;
        records.push(made)?;
    }
    Ok(records)
}

/// So many empty slots.
fn no_records(alloc: Global, many: u64) -> Result<Vec<Option<PassRecord>>, Memory>
    ensures { IfOk result (λ slots. slots.items ≡ replicate many None) }
{
    let mut slots = Vec::new(alloc);
    for _number in 0..many {
        slots.push(None)?;
    }
    Ok(slots)
}

/// Puts each record into the slot with the number of its pass.
fn put_records(alloc: Global, records: Vec<PassRecord>) -> Result<Vec<Option<PassRecord>>, Memory>
    requires { All (λ r. r.ticket.pass < length records.items) records.items }
    ensures many { IfOk result (λ slots. length slots.items ≡ length records.items) }
    ensures slots { IfOk result (λ slots. HasSlots records.items slots.items) }
{
    let mut slots = no_records(alloc, records.len() as u64)?;
    for made in records {
        let number = made.ticket.pass as usize;
        slots[number] = Some(made);
    }
    Ok(slots)
}

/// Puts records in the order of their numbers.
pub fn sort_records(alloc: Global, records: Vec<PassRecord>) -> Result<List<PassRecord>, Memory>
    requires { AreNumbered records.items }
    ensures { IfOk result (AreSorted records.items) }
{
    let slots = put_records(alloc, records)?;
    let mut passes = List::new(alloc);
    for slot in slots {
        let Some(made) = slot else { unreachable!() };
        passes.push(made)?;
    }
    Ok(passes)
}
