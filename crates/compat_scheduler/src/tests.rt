//! Runs of the scheduler, call by call.

ghost use Rattle.std.specs.Prelude.{◌≡◌, ◌<◌, ◌≤◌, IfOk};

use crate::{FinishVerdict, SchedCore, Ticket};
use seuss_base::{CompatRows, Level, Memory, PassEnd};
use std::alloc::Global;
use std::test::Fail;

/// Rows of one level.
fn rows_of(alloc: Global, count: u32, level: Level) -> Result<CompatRows, Memory>
    requires { count ≤ 256 }
    ensures { IfOk result (λ rows. rows.count ≡ count) }
{
    let mut rows = CompatRows::new(alloc, count)?;
    for one in 0..count {
        for other in 0..count {
            rows.set(one, other, level);
        }
    }
    Ok(rows)
}

fn loose(pass: u64, attempt: u64, action: u32) -> Ticket
    ensures { result.pass ≡ pass }
{
    Ticket {
        pass,
        attempt,
        action,
        mode: Level::Loose,
    }
}

#[test]
fn a_void_pass_is_tried_again(rt: HostRuntime) -> Result<(), Fail> {
    let mut rows = rows_of(rt.alloc(), 2, Level::Never)?;
    rows.set(0, 1, Level::Firm);
    rows.set(1, 0, Level::Loose);
    let mut core = SchedCore::new(rt.alloc(), rows, 2, 1)?;
    let Some(move_on) = core.start() else {
        return Err(Fail::from("no first start"));
    };
    assert_eq!(rt; move_on.pass, 0);
    assert_eq!(rt; move_on, loose(0, 0, 0));
    let Some(take) = core.start() else {
        return Err(Fail::from("no second start"));
    };
    assert_eq!(rt; take.pass, 1);
    assert_eq!(rt; take, loose(1, 1, 1));
    assert_eq!(rt; core.start(), None);
    assert_eq!(rt;
        core.verdict(&take, &PassEnd::Accepted),
        FinishVerdict::Kept
    );
    assert_eq!(rt;
        core.finish(take, PassEnd::PlainRejected),
        FinishVerdict::Void
    );
    assert_eq!(rt; core.start(), None);
    assert_eq!(rt;
        core.finish(move_on, PassEnd::Accepted),
        FinishVerdict::Kept
    );
    let Some(again) = core.start() else {
        return Err(Fail::from("no third start"));
    };
    assert_eq!(rt;
        again,
        Ticket {
            pass: 2,
            attempt: 1,
            action: 1,
            mode: Level::Firm
        }
    );
    assert!(rt; !core.all_done());
    assert_eq!(rt;
        core.finish(again, PassEnd::PlainRejected),
        FinishVerdict::Kept
    );
    assert!(rt; core.all_done());
    Ok(())
}

#[test]
fn without_actions_all_is_done(rt: HostRuntime) -> Result<(), Fail> {
    let rows = CompatRows::new(rt.alloc(), 0)?;
    let mut core = SchedCore::new(rt.alloc(), rows, 0, 2)?;
    assert_eq!(rt; core.start(), None);
    assert!(rt; core.all_done());
    Ok(())
}

#[test]
fn a_spent_end_stops(rt: HostRuntime) -> Result<(), Fail> {
    let rows = rows_of(rt.alloc(), 1, Level::Never)?;
    let mut core = SchedCore::new(rt.alloc(), rows, 1, 2)?;
    let Some(first) = core.start() else {
        return Err(Fail::from("no start"));
    };
    assert_eq!(rt; first, loose(0, 0, 0));
    assert_eq!(rt; core.start(), None);
    assert_eq!(rt; core.finish(first, PassEnd::Spent), FinishVerdict::Kept);
    assert!(rt; core.stopped());
    assert!(rt; !core.all_done());
    assert_eq!(rt; core.start(), None);
    Ok(())
}

#[test]
fn what_runs_goes_on_after_a_stop(rt: HostRuntime) -> Result<(), Fail> {
    let rows = rows_of(rt.alloc(), 3, Level::Firm)?;
    let mut core = SchedCore::new(rt.alloc(), rows, 3, 1)?;
    let Some(first) = core.start() else {
        return Err(Fail::from("no first start"));
    };
    let Some(second) = core.start() else {
        return Err(Fail::from("no second start"));
    };
    assert_eq!(rt; first.pass, 0);
    assert_eq!(rt; second.pass, 1);
    assert_eq!(rt; core.finish(first, PassEnd::Spent), FinishVerdict::Kept);
    assert!(rt; core.stopped());
    assert_eq!(rt; core.next(), None);
    assert_eq!(rt; core.running(), 1);
    assert_eq!(rt; core.finish(second, PassEnd::Accepted), FinishVerdict::Kept);
    assert_eq!(rt; core.running(), 0);
    assert_eq!(rt; core.start(), None);
    assert!(rt; !core.all_done());
    Ok(())
}

#[test]
fn two_hundred_and_fifty_six_run_at_once(rt: HostRuntime) -> Result<(), Fail> {
    let rows = rows_of(rt.alloc(), 256, Level::Firm)?;
    let mut core = SchedCore::new(rt.alloc(), rows, 256, 39062)?;
    for action in 0..256u32 {
        let ticket = core.start();
        assert_eq!(rt; ticket, Some(loose(action as u64, action as u64, action)));
    }
    assert_eq!(rt; core.start(), None);
    assert_eq!(rt; core.running(), 256);
    Ok(())
}

/// How many bar a slot, if it is pending.
fn bars_at(core: &SchedCore, slot: u32) -> Option<u32> {
    match core.pending_mode(slot) {
        Some(_) => Some(core.barred_by(slot)),
        None => None,
    }
}

#[test]
fn what_runs_is_counted_until_it_finishes(rt: HostRuntime) -> Result<(), Fail> {
    let mut rows = rows_of(rt.alloc(), 2, Level::Never)?;
    rows.set(0, 1, Level::Firm);
    let mut core = SchedCore::new(rt.alloc(), rows, 2, 1)?;
    let Some(first) = core.start() else {
        return Err(Fail::from("no first start"));
    };
    assert_eq!(rt; first, loose(0, 0, 0));
    assert_eq!(rt; bars_at(&core, 0), None);
    assert_eq!(rt; bars_at(&core, 1), Some(1));
    assert_eq!(rt; core.start(), None);
    assert!(rt; core.is_running(&first));
    assert_eq!(rt; core.finish(first, PassEnd::Accepted), FinishVerdict::Kept);
    assert_eq!(rt; bars_at(&core, 1), Some(0));
    assert_eq!(rt; core.start(), Some(loose(1, 1, 1)));
    assert_eq!(rt; bars_at(&core, 2), None);
    Ok(())
}

/// The next number of a sequence that looks random.
fn following(number: u64) -> u64 {
    number
        .wrapping_mul(6364136223846793005)
        .wrapping_add(1442695040888963407)
}

/// A digit of such a number, below this bound.
fn digit(number: u64, bound: u64) -> u64
    requires { 0 < bound }
    ensures { result < bound }
{
    (number >> 33) % bound
}

/// A level by chance, firm as often as not.
fn level_by(number: u64) -> Level {
    match digit(number, 4) {
        0 => Level::Never,
        1 => Level::Loose,
        _ => Level::Firm,
    }
}

/// An end by chance, which seldom stops.
fn end_by(number: u64) -> PassEnd {
    match digit(number, 64) {
        0 => PassEnd::Spent,
        1..24 => PassEnd::PlainRejected,
        24..40 => PassEnd::Rejected,
        _ => PassEnd::Accepted,
    }
}

/// Rows of twelve actions by chance.
fn rows_by(alloc: Global, number: u64) -> Result<CompatRows, Memory>
    ensures { IfOk result (λ rows. rows.count ≡ 12) }
{
    let mut rows = CompatRows::new(alloc, 12)?;
    let mut last = number;
    for one in 0..12u32 {
        for other in 0..12u32 {
            last = following(last);
            rows.set(one, other, level_by(last));
        }
    }
    Ok(rows)
}

/// Starts a pass, or finishes one of those that were started and haven't finished, by chance.
fn make_event(core: &mut SchedCore, open: &mut Vec<Ticket>, number: u64) -> Result<(), Memory> {
    if digit(number, 3) > 0
        && let Some(ticket) = core.start()
    {
        open.push(ticket)?;
        return Ok(());
    }
    if open.is_empty() {
        return Ok(());
    }
    let at = digit(following(number), open.len() as u64) as usize;
    let ticket = open.swap_remove(at);
    if core.is_running(&ticket) {
        let _verdict = core.finish(ticket, end_by(number));
    }
    Ok(())
}

#[test]
fn the_counts_answer_as_the_scan(rt: HostRuntime) -> Result<(), Fail> {
    let mut number = 1;
    for _ in 0..40 {
        number = following(number);
        let rows = rows_by(rt.alloc(), number)?;
        let mut core = SchedCore::new(rt.alloc(), rows, 12, 4)?;
        let mut open = Vec::new(rt.alloc());
        for _ in 0..200 {
            let next = core.next();
            assert_eq!(rt; next, core.next_by_scan());
            number = following(number);
            make_event(&mut core, &mut open, number)?;
        }
    }
    Ok(())
}
