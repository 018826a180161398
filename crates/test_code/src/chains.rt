//! Chains of steps beside the plain interpreter.

ghost use Rattle.std.specs.Prelude.{◌≡◌, ◌≤◌, ◌<◌, length};
ghost use Rattle.method_code.specs.Codes.{compiled};
ghost use Rattle.seuss_program.specs.Keeping.{Keeps};

use method_code::{Code, attempt_by_steps, compile};
use report_text::end_text;
use seuss_base::{Ints, List, Memory, Outcome};
use seuss_program::{LastLine, Program, State, Value, Vars, initial_state};
use std::alloc::Global;
use std::test::Fail;
use test_texts::program_of;
use tight_order::tight;

/// Every form of statement, of alternative and of call, over three levels.
const FORMS: &str = "seuss 1 cat Low var n : int var q : seq \
     total raise(k : int) : int is while n < k do n := n + 1 if n % 2 = 0 then q := add(q, n) end end \
     if k = 2 then result := n * 2 else result := n end end \
     total note(x : int) is q := add(q, x) end \
     partial take() : int when n > 0 -> result := n n := n - 1 when n < 0 ~> n := 0 - n end end \
     cat Mid(l : Low) total pass(k : int) : int is let h : int := k + 1 result := l.raise(h) l.note(h) end \
     partial probe() when true ; v := l.take() -> l.note(v) end end \
     cat Top(m : Mid, l : Low) var got : int action go \
     when got = 0 ; m.probe() -> got := m.pass(2) \
     when got = 1 ~> got := 5 l.note(got) \
     when got < 4 ; v := l.take() -> let t : int := v while t > 0 do t := t - 1 got := l.raise(t) end \
     when got = 9 -> got := 100 / (got - 9) end end \
     box l : Low box m : Mid(l) box t : Top(m, l)";

/// A loop two levels below an action, which costs two calls, and a turn for each 1 of `k`.
const DEEP: &str =
    "seuss 1 cat Low var n : int total count(k : int) is while n < k do n := n + 1 end end end \
     cat Mid(l : Low) total pass(k : int) is l.count(k) end end \
     cat Top(m : Mid) var k : int action go when true -> m.pass(k) end end \
     box l : Low box m : Mid(l) box t : Top(m)";

/// The state in which a program starts, but for a number that is the first variable of box 0, and one that
/// is that of box 2.
fn state_of(alloc: Global, program: &Program, low: i64, top: i64) -> Result<State, Memory> {
    let mut state = initial_state(alloc, program, &Ints::new(alloc))?;
    put(alloc, &mut state, 0, low)?;
    put(alloc, &mut state, 2, top)?;
    Ok(state)
}

/// Puts a number in the first variable of a box.
fn put(alloc: Global, state: &mut State, box_number: u64, number: i64) -> Result<(), Memory> {
    if box_number >= state.boxes.len() {
        return Ok(());
    }
    let none = Vars {
        values: List::new(alloc),
    };
    let mut vars = state.boxes.replace(box_number, none);
    if vars.values.len() > 0 {
        vars.values.set(0, Value::Int(number));
    }
    state.boxes.set(box_number, vars);
    Ok(())
}

/// The number that is the first variable of box 0.
fn number_in(state: &State) -> Option<i64> {
    match state.boxes.get(0)?.values.get(0)? {
        Value::Int(number) => Some(*number),
        Value::Bool(_) | Value::Seq(_) => None,
    }
}

/// Attempts the first action by its chain of steps and by the interpreter. Where both have the same outcome
/// and leave the same state, answers the outcome and the number that is left in box 0.
fn attempted(
    alloc: Global,
    program: &Program,
    code: &Code,
    starts: (i64, i64),
    budget: u64,
) -> Result<Option<(Outcome, Option<i64>)>, Memory>
    requires keeps { Keeps program.now }
    requires compiled { code.now ≡ compiled program.now }
    requires some { 0 < length program.now.actions }
    requires small { budget ≤ 1000000 }
{
    let (low, top) = starts;
    let mut one = state_of(alloc, program, low, top)?;
    let mut other = state_of(alloc, program, low, top)?;
    let outcome = attempt_by_steps(alloc, code, program, 0, &mut one, budget)?;
    let told = tight(alloc, program, &mut other, &[0], budget)?;
    let left = end_text(alloc, program, &LastLine::Done, &one)?;
    let other_left = end_text(alloc, program, &LastLine::Done, &other)?;
    if told.list.get(0).copied() == Some(outcome) && left.as_bytes() == other_left.as_bytes() {
        Ok(Some((outcome, number_in(&one))))
    } else {
        Ok(None)
    }
}

/// Every state of a table is left the same by the chain of an attempt and by the interpreter, with each
/// of four outcomes.
#[test]
fn every_form_by_steps(rt: HostRuntime) -> Result<(), Fail> {
    let alloc = rt.alloc();
    let program = program_of(alloc, FORMS.as_bytes())?;
    let code = compile(alloc, &program)?;
    if program.actions.len() == 0 {
        return Err(Fail::from("one action"));
    }
    let mut counts = [0u32; 4];
    for n in [-2i64, -1, 0, 1, 2, 3] {
        for got in [0i64, 1, 2, 3, 4, 9] {
            for budget in [0u64, 1, 2, 3, 4, 5, 6, 100] {
                let found = attempted(alloc, &program, &code, (n, got), budget)?;
                match found.map(|(outcome, _)| outcome) {
                    Some(Outcome::Accepted) => counts[0] = counts[0].wrapping_add(1),
                    Some(Outcome::Rejected) => counts[1] = counts[1].wrapping_add(1),
                    Some(Outcome::Trapped(_)) => counts[2] = counts[2].wrapping_add(1),
                    Some(Outcome::Spent) => counts[3] = counts[3].wrapping_add(1),
                    None => return Err(Fail::from("the same outcome and state")),
                }
            }
        }
    }
    assert!(rt; counts[0] > 0 && counts[1] > 0 && counts[2] > 0 && counts[3] > 0);
    Ok(())
}

/// A loop two levels down ends at the last unit of its budget, and is spent one unit below it.
#[test]
fn last_unit_two_levels_down(rt: HostRuntime) -> Result<(), Fail> {
    let alloc = rt.alloc();
    let program = program_of(alloc, DEEP.as_bytes())?;
    let code = compile(alloc, &program)?;
    if program.actions.len() == 0 {
        return Err(Fail::from("one action"));
    }
    for (k, budget, outcome, n) in [
        (3i64, 5u64, Outcome::Accepted, 3i64),
        (3, 4, Outcome::Spent, 2),
        (3, 1, Outcome::Spent, 0),
        (9998, 10_000, Outcome::Accepted, 9998),
        (9999, 10_000, Outcome::Spent, 9998),
        (99_998, 100_000, Outcome::Accepted, 99_998),
    ] {
        let found = attempted(alloc, &program, &code, (0, k), budget)?;
        assert_eq!(rt; found, Some((outcome, Some(n))), "{k} {budget}");
    }
    Ok(())
}
