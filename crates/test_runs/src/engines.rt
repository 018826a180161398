//! The engine for one thread with two seats, of which one gives it up.

ghost use Rattle.std.specs.Prelude.{◌≡◌, ◌≤◌, length, false};
ghost use Rattle.method_code.specs.Plans.{AreMadeFrom};
ghost use Rattle.pass_seats.specs.Opening.{names_of};
ghost use Rattle.loose_records.specs.Settings.{setting_of};
ghost use Rattle.seuss_program.specs.Keeping.{HasForm, Keeps};
ghost use Rattle.seuss_program.specs.Programs.{vars_of};

use compat_matrix::matrix;
use meaning_laws::forms::starts_in_form;
use method_code::{Code, Plan, compile};
use pass_engine::laws::seats_stay;
use pass_engine::{StillEngine, WorkerSeat};
use pass_seats::{EngineBlank, EngineNames, EngineRefusal};
use seuss_base::{CompatRows, Ints};
use seuss_program::{Program, State, initial_state};
use std::alloc::Global;
use std::marker::Brand;
use std::test::Fail;
use test_texts::program_of;

/// One who puts numbers into a channel, and one who takes them.
const CHANNEL: &str = "seuss 1 cat Channel var q : seq \
     total put(x : int) is q := add(q, x) end \
     partial get() : int when len(q) > 0 -> result := first(q) q := rest(q) end end \
     cat Putter(c : Channel) var n : int action put when true -> n := n + 1 c.put(n) end end \
     cat Taker(c : Channel) var sum : int action take when true ; v := c.get() -> sum := sum + v end end \
     box c : Channel box p : Putter(c) box t : Taker(c)";

/// Whether a call was refused because this seat gave up.
fn is_given_up<T>(made: &Result<T, EngineRefusal>, by: u32) -> bool {
    match made {
        Err(EngineRefusal::GivenUp(other)) => *other == by,
        _ => false,
    }
}

/// Whether the first start gives a seat attempt 0, and whether each of its calls is then refused once another seat
/// has given up.
fn refused_beside<'a, N: EngineNames>(
    alloc: Global,
    engine: &mut StillEngine<'a, N>,
    seat: &mut WorkerSeat<N>,
    other: &mut WorkerSeat<N>,
) -> Result<bool, Fail>
    requires { seat.old.torn ≡ false }
{
    seats_stay();
    let by = other.number();
    let Ok(Some(mut pass)) = engine.start(alloc, seat) else {
        return Err(Fail::from("a start"));
    };
    let first = pass.ticket().attempt == 0;
    engine.give_up(other);
    let advanced = engine.advance(alloc, seat, &mut pass);
    let started = engine.start(alloc, seat);
    let standing = engine.standing(seat);
    Ok(
        first
            && is_given_up(&advanced, by)
            && is_given_up(&started, by)
            && is_given_up(&standing, by),
    )
}

/// The same on a new engine with two seats.
fn refused_at<N: EngineNames>(
    alloc: Global,
    program: &Program,
    code: &Code,
    plan: &Plan,
    rows: CompatRows,
    state: State,
    blank: EngineBlank,
) -> Result<bool, Fail>
    requires keeps { Keeps program.now }
    requires made { AreMadeFrom program.now code.now plan.now }
    requires rows { rows.count ≡ length program.now.actions }
    requires form { HasForm program.now state }
    requires few { length program.now.actions ≤ 256 }
    requires code { code.now ≡ N.code }
    requires first { N.first ≡ vars_of state }
    requires tables { length blank.boxes ≡ length program.now.boxes }
    requires names { N.names ≡ names_of blank 2 (setting_of program.now rows 1 100) state }
    requires ledger { (blank.ledger ≡ N.name) × (blank.parts ≡ N.parts) × (blank.parts ≡ 2) }
{
    let (mut engine, mut seats) = StillEngine::<N>::new(
        alloc, program, code, plan, rows, state, 1, 100, 2, blank,
    )?;
    let Some(mut other) = seats.pop() else {
        return Err(Fail::from("two seats"));
    };
    let Some(mut seat) = seats.pop() else {
        return Err(Fail::from("two seats"));
    };
    refused_beside(alloc, &mut engine, &mut seat, &mut other)
}

/// A seat that did nothing wrong learns who gave the engine up, at each call.
#[test]
fn one_of_two_gives_up(rt: HostRuntime) -> Result<(), Fail> {
    starts_in_form();
    let alloc = rt.alloc();
    let program = program_of(alloc, CHANNEL.as_bytes())?;
    if program.actions.len() > 256 {
        return Err(Fail::from("few actions"));
    }
    let code = compile(alloc, &program)?;
    let plan = Plan::of(alloc, &program)?;
    let Ok(rows) = matrix(alloc, &program, &code) else {
        return Err(Fail::from("levels"));
    };
    let state = initial_state(alloc, &program, &Ints::new(alloc))?;
    let blank = EngineBlank::new(alloc, program.boxes.len() as u32, 2)?;
    let refused = refused_at::<Brand>(alloc, &program, &code, &plan, rows, state, blank)?;
    assert!(rt; refused);
    Ok(())
}
