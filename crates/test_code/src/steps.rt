//! Method steps by hand, with what each ends with.

ghost use Rattle.std.specs.Prelude.{◌≡◌};
ghost use Rattle.method_code.specs.Codes.{compiled};

use method_code::{Activation, Code, End, Turn, compile, entry, number_of, step};
use report_text::end_text;
use seuss_base::{Ints, List, Memory, PassEnd, Text};
use seuss_program::{LastLine, Program, State, Value, Vars, initial_state};
use std::alloc::{AllocError, Global};
use std::test::Fail;
use test_texts::program_of;

/// A semaphore that keeps who waits, from whom the first is got, and a user with two actions. The start
/// values are given from that of `free` on, and that of `got`.
fn text_of(alloc: Global, starts: &str, got: i64) -> Result<String, AllocError> {
    format!(in alloc;
        "seuss 1 cat Semaphore var free : int = {starts} \
        partial take(who : int) when free > 0 -> free := free &- 1 \
        when free <= 0 ~> waiting := add(waiting, who) end \
        partial get() : int when len(waiting) > 0 -> \
        result := first(waiting) waiting := rest(waiting) end end \
        cat User(m : Semaphore) var got : int = {got} \
        action ask when got = 0 ; m.take(7) -> got := 1 end \
        action next when got = 0 ; v := m.get() -> got := v when got = 1 ~> got := 2 end end \
        box m : Semaphore box u : User(m)"
    )
}

/// Takes the variables of a box out of a state.
fn take_vars(alloc: Global, state: &mut State, box_number: u32) -> Vars {
    let none = Vars {
        values: List::new(alloc),
    };
    let at = box_number as u64;
    if at < state.boxes.len() {
        state.boxes.replace(at, none)
    } else {
        none
    }
}

/// Puts the variables of a box back.
fn put_vars(state: &mut State, box_number: u32, vars: Vars) {
    let at = box_number as u64;
    if at < state.boxes.len() {
        state.boxes.set(at, vars);
    }
}

/// One step of a method of the semaphore from its entry.
fn step_once(
    alloc: Global,
    program: &Program,
    code: &Code,
    state: &mut State,
    method: u32,
) -> Result<End, Memory>
    requires { code.now ≡ compiled program.now }
{
    let mut args = List::new(alloc);
    if method == 0 {
        args.push(Value::Int(7))?;
    }
    let mut frame = entry(alloc, code, number_of(code, program, 0, method), args)?;
    let mut vars = take_vars(alloc, state, 0);
    let mut budget = 10;
    let end = step(alloc, code, &mut vars, &mut frame, &mut budget)?;
    put_vars(state, 0, vars);
    Ok(end)
}

/// One step of a method of the semaphore with these start values: its end, in short, and what it leaves.
fn stepped(alloc: Global, starts: &str, method: u32) -> Result<(String, Text), Fail> {
    let program = program_of(alloc, text_of(alloc, starts, 0)?.as_bytes())?;
    let code = compile(alloc, &program)?;
    let mut state = initial_state(alloc, &program, &Ints::new(alloc))?;
    let end = step_once(alloc, &program, &code, &mut state, method)?;
    let left = end_text(alloc, &program, &LastLine::Done, &state)?;
    Ok((format!(in alloc; "{end:?}")?, left))
}

/// Each step of the semaphore from its entry, with its start values and what it leaves.
#[test]
fn methods_are_stepped(rt: HostRuntime) -> Result<(), Fail> {
    let alloc = rt.alloc();
    for (starts, method, wanted, left) in [
        (
            "1 var waiting : seq",
            0,
            "Returned(None)",
            "m.free = 0\nm.waiting = []\n",
        ),
        (
            "0 var waiting : seq",
            0,
            "Rejected",
            "m.free = 0\nm.waiting = [7]\n",
        ),
        (
            "-1 var waiting : seq = [8]",
            0,
            "Rejected",
            "m.free = -1\nm.waiting = [8 7]\n",
        ),
        (
            "1 var waiting : seq = [8, 9]",
            1,
            "Returned(Some(8))",
            "m.free = 1\nm.waiting = [9]\n",
        ),
        (
            "1 var waiting : seq",
            1,
            "RejectedPlain",
            "m.free = 1\nm.waiting = []\n",
        ),
    ] {
        let (end, text) = stepped(alloc, starts, method)?;
        assert_eq!(rt; end.as_str(), wanted, "{starts}");
        assert!(rt; text.as_bytes().starts_with(left.as_bytes()), "{starts}");
    }
    Ok(())
}

/// A whole pass of an action step by step, with nothing between them: the boxes of its steps, and its end.
fn pass_of(
    alloc: Global,
    program: &Program,
    code: &Code,
    state: &mut State,
    action: u32,
) -> Result<(List<u32>, Option<PassEnd>), Memory>
    requires { code.now ≡ compiled program.now }
{
    let mut boxes = List::new(alloc);
    let mut pass = Activation::begin(alloc, code, program, action)?;
    let mut budget = 10;
    for _ in 0..20 {
        let box_number = pass.box_of();
        boxes.push(box_number)?;
        let mut vars = take_vars(alloc, state, box_number);
        let end = step(alloc, code, &mut vars, pass.frame(), &mut budget)?;
        put_vars(state, box_number, vars);
        if let Turn::Over(end) = pass.resume(alloc, code, program, end)? {
            return Ok((boxes, Some(end)));
        }
    }
    Ok((boxes, None))
}

/// A pass of an action of the user with these start values: the boxes of its steps, its end, and what it
/// leaves.
fn passed(
    alloc: Global,
    starts: &str,
    got: i64,
    action: u32,
) -> Result<(List<u32>, Option<PassEnd>, Text), Fail> {
    let program = program_of(alloc, text_of(alloc, starts, got)?.as_bytes())?;
    let code = compile(alloc, &program)?;
    let mut state = initial_state(alloc, &program, &Ints::new(alloc))?;
    let (boxes, end) = pass_of(alloc, &program, &code, &mut state, action)?;
    let left = end_text(alloc, &program, &LastLine::Done, &state)?;
    Ok((boxes, end, left))
}

/// Each pass of an action, with its start values, the boxes of its steps, its end and what it leaves.
#[test]
fn passes_are_stepped(rt: HostRuntime) -> Result<(), Fail> {
    let alloc = rt.alloc();
    for (starts, got, action, steps, wanted, left) in [
        (
            "1 var waiting : seq",
            0i64,
            0u32,
            3usize,
            PassEnd::Accepted,
            "m.free = 0\nm.waiting = []\nu.got = 1\n",
        ),
        (
            "0 var waiting : seq",
            0,
            0,
            3,
            PassEnd::Rejected,
            "m.free = 0\nm.waiting = [7]\nu.got = 0\n",
        ),
        (
            "0 var waiting : seq = [8]",
            0,
            1,
            3,
            PassEnd::Accepted,
            "m.free = 0\nm.waiting = []\nu.got = 8\n",
        ),
        (
            "0 var waiting : seq",
            0,
            1,
            3,
            PassEnd::PlainRejected,
            "m.free = 0\nm.waiting = []\nu.got = 0\n",
        ),
        (
            "1 var waiting : seq",
            1,
            0,
            1,
            PassEnd::PlainRejected,
            "m.free = 1\nm.waiting = []\nu.got = 1\n",
        ),
        (
            "1 var waiting : seq",
            1,
            1,
            1,
            PassEnd::Rejected,
            "m.free = 1\nm.waiting = []\nu.got = 2\n",
        ),
    ] {
        let (boxes, end, text) = passed(alloc, starts, got, action)?;
        assert_eq!(rt;
            Some(boxes.as_slice()),
            [1u32, 0, 1].get(..steps),
            "{starts} {got}"
        );
        assert_eq!(rt; end, Some(wanted), "{starts} {got}");
        assert!(rt; text.as_bytes().starts_with(left.as_bytes()), "{starts}");
    }
    Ok(())
}
