//! Cells and the quit word by hand.

ghost use Rattle.std.specs.Prelude.{◌≡◌, ◌<◌, ◌^◌, IfOk, ◌∷◌, []};

use box_lock::{BoxCell, CellNames};
use compat_scheduler::SchedCore;
use method_code::{Code, compile, entry, number_of};
use quit_word::QuitWord;
use round_ledger::{SchedCell, Standing};
use seuss_base::{CompatRows, List, Memory};
use seuss_program::{Value, Vars};
use std::alloc::Global;
use std::marker::Brand;
use std::test::Fail;
use step_journal::CellRefusal;
use test_texts::program_of;

/// A counter.
const COUNTER: &str = "seuss 1 cat Counter var n : int \
     action tick when n < 5 -> while n < 3 do n := n + 1 end end end box a : Counter";

/// No stamp is as great as this.
const WORN: u64 = 1 << 63;

/// What a step told, and how clock, budget, frame, share and cell stand after it.
#[derive(Clone, Copy, Debug, PartialEq, Eq)]
struct Told {
    answer: Result<u64, CellRefusal>,
    clock: u64,
    budget: u64,
    slots: u64,
    count: u64,
    broken: bool,
}

/// A list of one.
fn one<T: Drop>(alloc: Global, item: T) -> Result<List<T>, Memory>
    ensures { IfOk result (λ list. list ≡ item ∷ []) }
{
    let mut list = List::new(alloc);
    list.push(item)?;
    Ok(list)
}

/// Makes the first step of a method on a new cell, for a pass with this clock.
fn step_once<N: CellNames>(
    alloc: Global,
    code: &Code,
    method: u32,
    vars: Vars,
    clock: u64,
) -> Result<(Told, Option<i64>), Memory>
    requires code { code.now ≡ N.code }
    requires vars { vars.values ≡ N.first 0 }
    requires clock { clock < 2 ^ 63 }
{
    let mut cell = BoxCell::<N>::new(alloc, 0, vars)?;
    let (mut note, mut share) = cell.seat()?;
    let mut frame = entry(alloc, code, method, List::new(alloc))?;
    let mut budget = 9;
    let mut now = clock;
    let made = cell.step(
        alloc,
        code,
        &mut now,
        &mut note,
        &mut share,
        0,
        0,
        &mut frame,
        &mut budget,
    );
    let answer = match made {
        Ok((_, receipt)) => Ok(receipt.stamp),
        Err(refusal) => Err(refusal),
    };
    let told = Told {
        answer,
        clock: now,
        budget,
        slots: frame.slots.len(),
        count: share.count(),
        broken: cell.broken(),
    };
    if cell.broken() {
        return Ok((told, None));
    }
    let notes = one(alloc, note)?;
    let shares = one(alloc, share)?;
    let (vars, _) = cell.close(notes, shares);
    Ok((told, number_in(&vars)))
}

/// The number that is the first variable.
fn number_in(vars: &Vars) -> Option<i64> {
    match vars.values.get(0)? {
        Value::Int(number) => Some(*number),
        Value::Bool(_) | Value::Seq(_) => None,
    }
}

/// The variables of the counter at the beginning: its number is 0.
fn counter_vars(alloc: Global) -> Result<Vars, Memory> {
    Ok(Vars {
        values: one(alloc, Value::Int(0))?,
    })
}

/// A step on a new cell, at names that are the code's and the variables' own.
fn step_at(alloc: Global, clock: u64) -> Result<(Told, Option<i64>), Fail>
    requires { clock < 2 ^ 63 }
{
    let program = program_of(alloc, COUNTER.as_bytes())?;
    let code = compile(alloc, &program)?;
    let vars = counter_vars(alloc)?;
    let method = number_of(&code, &program, 0, 0);
    Ok(step_once::<Brand>(alloc, &code, method, vars, clock)?)
}

/// The greatest clock leaves no stamp: the step is refused with the stamp that it would have, and nothing changes.
#[test]
fn worn_at_the_greatest_clock(rt: HostRuntime) -> Result<(), Fail> {
    let (told, number) = step_at(rt.alloc(), WORN - 1)?;
    let wanted = Told {
        answer: Err(CellRefusal::Worn(WORN)),
        clock: WORN - 1,
        budget: 9,
        slots: 0,
        count: 0,
        broken: false,
    };
    assert_eq!(rt; told, wanted);
    assert_eq!(rt; number, Some(0));
    Ok(())
}

/// One below it there is a last stamp. The step costs one for each turn of its loop.
#[test]
fn last_stamp(rt: HostRuntime) -> Result<(), Fail> {
    let (told, number) = step_at(rt.alloc(), WORN - 2)?;
    let wanted = Told {
        answer: Ok(WORN - 1),
        clock: WORN - 1,
        budget: 6,
        slots: 0,
        count: 1,
        broken: false,
    };
    assert_eq!(rt; told, wanted);
    assert_eq!(rt; number, Some(3));
    Ok(())
}

/// One action starts once in a round.
#[test]
fn one_start_in_a_round(rt: HostRuntime) -> Result<(), Fail> {
    let rows = CompatRows::new(rt.alloc(), 1)?;
    let core = SchedCore::new(rt.alloc(), rows, 1, 1)?;
    let mut cell = SchedCell::new(rt.alloc(), core)?;
    let (mut note, mut share) = cell.seat()?;
    let mut clock = 0;
    let first = cell.start(&mut clock, &mut note, &mut share);
    assert!(rt; matches!(first, Ok(Some(_))) && clock == 1 && share.count() == 1);
    let mut next = 0;
    let second = cell.start(&mut next, &mut note, &mut share);
    assert!(rt; matches!(second, Ok(None)) && next == 0 && share.count() == 1);
    let standing = cell.standing(&mut note);
    assert!(rt; standing == Ok(Standing::Going) && !cell.broken());
    Ok(())
}

/// Once a scheduler is given up, its calls are refused.
#[test]
fn scheduler_that_is_given_up(rt: HostRuntime) -> Result<(), Fail> {
    let rows = CompatRows::new(rt.alloc(), 1)?;
    let core = SchedCore::new(rt.alloc(), rows, 1, 1)?;
    let mut cell = SchedCell::new(rt.alloc(), core)?;
    let (mut note, mut share) = cell.seat()?;
    cell.give_up();
    let mut clock = 0;
    let start = cell.start(&mut clock, &mut note, &mut share);
    assert!(rt; matches!(start, Err(CellRefusal::Broken)) && clock == 0 && share.count() == 0);
    let standing = cell.standing(&mut note);
    assert!(rt; standing == Err(CellRefusal::Broken) && cell.broken());
    Ok(())
}

/// The first of two workers to give up counts, and both then find it.
#[test]
fn first_to_quit_counts(rt: HostRuntime) -> Result<(), Fail> {
    let (quit, mut first) = QuitWord::open(rt.alloc())?;
    let mut one = quit.worker(&mut first, 0);
    let mut other = quit.worker(&mut first, 1);
    assert_eq!(rt; quit.look(&mut one), None);
    quit.quit(&mut other);
    quit.quit(&mut one);
    assert_eq!(rt; quit.look(&mut one), Some(1));
    let Some(by) = quit.look(&mut other) else {
        return Err(Fail::from("somebody gave up"));
    };
    assert_eq!(rt; by, 1);
    let mut view = quit.tell(&mut other);
    assert_eq!(rt; quit.look_beside(&mut one, &mut view), 1);
    quit.join_cell(&mut first, view);
    quit.join_worker(&mut first, one);
    quit.join_worker(&mut first, other);
    Ok(())
}

/// Where nobody has given up, all views say so.
#[test]
fn nobody_has_quit(rt: HostRuntime) -> Result<(), Fail> {
    let (quit, mut first) = QuitWord::open(rt.alloc())?;
    let mut worker = quit.worker(&mut first, 0);
    let view = quit.cell(&mut first);
    assert_eq!(rt; quit.look(&mut worker), None);
    quit.join_cell(&mut first, view);
    quit.join_worker(&mut first, worker);
    quit.settle(&mut first);
    Ok(())
}
