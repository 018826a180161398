//! The engine for several threads by hand: two seats of it, called from one thread.

ghost use Rattle.std.specs.Prelude.{◌≡◌, ◌≤◌, length};
ghost use Rattle.method_code.specs.Plans.{AreMadeFrom};
ghost use Rattle.pass_seats.specs.Opening.{names_of};
ghost use Rattle.pass_seats.specs.Slots.{HasStep};
ghost use Rattle.loose_records.specs.Settings.{setting_of};
ghost use Rattle.seuss_program.specs.Keeping.{HasForm, Keeps};
ghost use Rattle.seuss_program.specs.Programs.{vars_of};
ghost use Rattle.shared_engine.specs.Rings.{IsSeatOf};

use compat_matrix::matrix;
use compat_scheduler::FinishVerdict;
use meaning_laws::forms::starts_in_form;
use method_code::{Code, Plan, compile};
use pass_seats::{EngineBlank, EngineNames, EngineRefusal, Pass, Progress};
use round_ledger::Standing;
use seuss_base::{CompatRows, Ints};
use seuss_program::{Program, State, initial_state};
use shared_engine::Engine;
use std::alloc::Global;
use std::marker::Brand;
use std::sync::Wait;
use std::test::Fail;
use test_texts::program_of;
use worker_seats::{TryProgress, WorkerSeat};

/// One who puts numbers into a channel, and one who takes them where there are any.
const CHANNEL: &str = "seuss 1 cat Channel var q : seq \
     total put(x : int) is q := add(q, x) end \
     partial get() : int when len(q) > 0 -> result := first(q) q := rest(q) end semi get, put front q 1 end \
     cat Putter(c : Channel) var n : int action put when true -> n := n + 1 c.put(n) end end \
     cat Taker(c : Channel) var sum : int action take when true ; v := c.get() -> sum := sum + v end end \
     box c : Channel box p : Putter(c) box t : Taker(c)";

/// Makes the steps of a pass to its end, and finishes it.
fn go_through<'a, N: EngineNames, R: Wait>(
    rt: &R,
    alloc: Global,
    engine: &Engine<'a, N>,
    seat: &mut WorkerSeat<N>,
    mut pass: Pass,
) -> Result<FinishVerdict, Fail>
    requires of { IsSeatOf engine.now seat.old }
    requires open { HasStep seat.old.core pass.slot }
    ensures { IsSeatOf engine.now seat.new }
{
    for _ in 0..100 {
        match engine.advance(rt, alloc, seat, &mut pass) {
            Ok(Progress::Stepped) => {}
            Ok(Progress::Over) => {
                return engine
                    .finish(rt, seat, pass)
                    .map_err(|_| Fail::from("a finish"));
            }
            Err(_) => return Err(Fail::from("a step")),
        }
    }
    Err(Fail::from("an end"))
}

/// Two seats take a pass each, and go through with it.
fn two_take_turns<'a, N: EngineNames, R: Wait>(
    rt: &R,
    alloc: Global,
    engine: &Engine<'a, N>,
    one: &mut WorkerSeat<N>,
    two: &mut WorkerSeat<N>,
) -> Result<bool, Fail>
    requires one { IsSeatOf engine.now one.old }
    requires two { IsSeatOf engine.now two.old }
{
    let Ok(Some(first)) = engine.start(rt, alloc, one) else {
        return Err(Fail::from("a start"));
    };
    let Ok(Some(second)) = engine.start(rt, alloc, two) else {
        return Err(Fail::from("a start"));
    };
    let numbers = (first.ticket().attempt, second.ticket().attempt);
    let put = go_through(rt, alloc, engine, one, first)?;
    let none = matches!(engine.start(rt, alloc, one), Ok(None));
    let going = matches!(engine.standing(rt, one), Ok(Standing::Going));
    let taken = go_through(rt, alloc, engine, two, second)?;
    let ended = matches!(engine.standing(rt, one), Ok(Standing::Ended));
    let kept = matches!((put, taken), (FinishVerdict::Kept, FinishVerdict::Kept));
    Ok(numbers == (0, 1) && none && going && ended && kept)
}

/// Whether a call was refused because this seat gave up.
fn is_given_up<T>(made: &Result<T, EngineRefusal>, by: u32) -> bool {
    matches!(made, Err(EngineRefusal::GivenUp(other)) if *other == by)
}

/// One seat takes a pass, and the other gives the engine up: so each call of either is refused.
fn one_gives_up<'a, N: EngineNames, R: Wait>(
    rt: &R,
    alloc: Global,
    engine: &Engine<'a, N>,
    one: &mut WorkerSeat<N>,
    two: &mut WorkerSeat<N>,
) -> Result<bool, Fail>
    requires one { IsSeatOf engine.now one.old }
{
    let by = two.number();
    let Ok(Some(mut pass)) = engine.start(rt, alloc, one) else {
        return Err(Fail::from("a start"));
    };
    engine.give_up(two);
    let tried = is_given_up(&engine.try_advance(alloc, one, &mut pass), by);
    let started = is_given_up(&engine.start(rt, alloc, one), by);
    let told = is_given_up(&engine.standing(rt, one), by);
    Ok(tried && started && told)
}

/// One of the two tests, on a new engine with two seats.
fn by_hand<N: EngineNames, R: Wait>(
    rt: &R,
    alloc: Global,
    program: &Program,
    code: &Code,
    plan: &Plan,
    rows: CompatRows,
    state: State,
    blank: EngineBlank,
    gives_up: bool,
) -> Result<bool, Fail>
    requires keeps { Keeps program.now }
    requires made { AreMadeFrom program.now code.now plan.now }
    requires rows { rows.count ≡ length program.now.actions }
    requires form { HasForm program.now state }
    requires few { length program.now.actions ≤ 256 }
    requires code { code.now ≡ N.code }
    requires first { N.first ≡ vars_of state }
    requires tables { length blank.boxes ≡ length program.now.boxes }
    requires names { N.names ≡ names_of blank 2 (setting_of program.now rows 1 100) state }
    requires ledger { (blank.ledger ≡ N.name) × (blank.parts ≡ N.parts) × (blank.parts ≡ 2) }
{
    let (engine, mut seats) = Engine::<N>::new(
        rt, alloc, program, code, plan, rows, state, 1, 100, 2, blank,
    )?;
    let Some(mut two) = seats.pop() else {
        return Err(Fail::from("two seats"));
    };
    let Some(mut one) = seats.pop() else {
        return Err(Fail::from("two seats"));
    };
    if gives_up {
        one_gives_up(rt, alloc, &engine, &mut one, &mut two)
    } else {
        two_take_turns(rt, alloc, &engine, &mut one, &mut two)
    }
}

/// The same over the channel.
fn over_channel<R: Wait>(rt: &R, alloc: Global, gives_up: bool) -> Result<bool, Fail> {
    starts_in_form();
    let program = program_of(alloc, CHANNEL.as_bytes())?;
    if program.actions.len() > 256 {
        return Err(Fail::from("few actions"));
    }
    let code = compile(alloc, &program)?;
    let plan = Plan::of(alloc, &program)?;
    let Ok(rows) = matrix(alloc, &program, &code) else {
        return Err(Fail::from("levels"));
    };
    let state = initial_state(alloc, &program, &Ints::new(alloc))?;
    let blank = EngineBlank::new(alloc, program.boxes.len() as u32, 2)?;
    by_hand::<Brand, R>(
        rt, alloc, &program, &code, &plan, rows, state, blank, gives_up,
    )
}

/// Each seat takes one pass of two, once, and the run ends when both are finished.
#[test]
fn two_seats_take_a_pass_each(rt: HostRuntime) -> Result<(), Fail> {
    assert!(rt; over_channel(&rt, rt.alloc(), false)?);
    Ok(())
}

/// A seat that did nothing wrong learns who gave the engine up, at each call.
#[test]
fn one_of_two_gives_up(rt: HostRuntime) -> Result<(), Fail> {
    assert!(rt; over_channel(&rt, rt.alloc(), true)?);
    Ok(())
}
