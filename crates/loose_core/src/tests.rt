//! The commit order of a record in which passes start, commit and finish in different orders.

ghost use Rattle.std.specs.Prelude.{◌<◌, ◌++◌, ◌∷◌, [], ◌≡◌, OnOk, IfOk, All, IsTrue, length};
ghost use Rattle.loose_records.specs.declared.record.PassRecord.{PassRecord as Pass};
ghost use Rattle.loose_records.specs.Orders.{is_kept};

use crate::commit_order;
use compat_scheduler::{FinishVerdict, Ticket};
use loose_records::{Claim, PassRecord, Record, SchedEntry};
use seuss_base::{Level, List, Memory, Outcome, PassEnd};
use seuss_program::{Placed, State};
use std::alloc::Global;
use std::test::Fail;

/// A pass of an action whose attempt has the same number, with two steps on boxes of their own.
fn pass(
    alloc: Global,
    number: u64,
    action: u32,
    stamps: (u64, u64),
    end: PassEnd,
    verdict: FinishVerdict,
) -> Result<PassRecord, Memory>
    ensures { IfOk result (λ pass. pass.commit < length pass.claims) }
{
    let mut claims = List::new(alloc);
    claims.push(Claim {
        box_number: 0,
        place: number,
        stamp: stamps.0,
    })?;
    claims.push(Claim {
        box_number: 1,
        place: number,
        stamp: stamps.1,
    })?;
    Ok(PassRecord {
        ticket: Ticket {
            pass: number,
            attempt: number,
            action,
            mode: Level::Loose,
        },
        claims,
        commit: 1,
        end,
        verdict,
    })
}

/// Puts a pass at the end.
fn add(passes: &mut List<PassRecord>, pass: PassRecord) -> Result<(), Memory>
    requires old { All (λ (p : Pass). IsTrue (is_kept p) → p.commit < length p.claims) passes.old }
    requires commit { pass.commit < length pass.claims }
    ensures { OnOk result (All (λ (p : Pass). IsTrue (is_kept p) → p.commit < length p.claims) passes.new) }
{
    passes.push(pass)?;
    Ok(())
}

fn start(pass: &PassRecord, stamp: u64) -> SchedEntry {
    SchedEntry::Start {
        ticket: pass.ticket,
        stamp,
    }
}

fn finish(pass: &PassRecord, stamp: u64) -> SchedEntry {
    SchedEntry::Finish {
        ticket: pass.ticket,
        end: pass.end,
        verdict: pass.verdict,
        stamp,
    }
}

/// Three passes start one after the other. The first one commits after the third one and finishes before it,
/// and the second one is void.
fn record(alloc: Global) -> Result<Record, Memory>
    ensures { IfOk result (λ made. All (λ (p : Pass). IsTrue (is_kept p) → p.commit < length p.claims)
        made.passes) }
{
    let mut passes = List::new(alloc);
    let first = pass(
        alloc,
        0,
        4,
        (4, 9),
        PassEnd::PlainRejected,
        FinishVerdict::Kept,
    )?;
    let second = pass(
        alloc,
        1,
        5,
        (5, 6),
        PassEnd::PlainRejected,
        FinishVerdict::Void,
    )?;
    let third = pass(alloc, 2, 3, (7, 8), PassEnd::Accepted, FinishVerdict::Kept)?;
    let mut sched = List::new(alloc);
    sched.push(start(&first, 1))?;
    sched.push(start(&second, 2))?;
    sched.push(start(&third, 3))?;
    sched.push(finish(&second, 10))?;
    sched.push(finish(&first, 11))?;
    sched.push(finish(&third, 12))?;
    add(&mut passes, first)?;
    add(&mut passes, second)?;
    add(&mut passes, third)?;
    Ok(Record {
        first: State {
            boxes: List::new(alloc),
        },
        last: State {
            boxes: List::new(alloc),
        },
        boxes: List::new(alloc),
        sched,
        passes,
    })
}

#[test]
fn the_order_is_that_of_commit_steps(rt: HostRuntime) -> Result<(), Fail> {
    let made = record(rt.alloc())?;
    let order = commit_order(&made)?;
    let placed = order.list.as_slice();
    assert_eq!(rt; placed.len(), 2);
    assert_eq!(rt;
        placed.first(),
        Some(&Placed {
            attempt: 2,
            action: 3,
            outcome: Outcome::Accepted,
        })
    );
    assert_eq!(rt;
        placed.last(),
        Some(&Placed {
            attempt: 0,
            action: 4,
            outcome: Outcome::Rejected,
        })
    );
    Ok(())
}
