//! Verdicts on certificates, with states that refute them.

ghost use Rattle.std.specs.Prelude.{◌≡◌};
ghost use Rattle.method_code.specs.Codes.{compiled};

use commute_certs::{Verdict, Why, decide};
use method_code::{Code, compile, entry, number_of, step};
use seuss_base::{Level, List, Memory};
use seuss_program::{Program, Value, Vars};
use std::alloc::{AllocError, Global};
use std::test::Fail;
use test_texts::program_of;

/// A program of one box, whose cat has these variables and methods, and this certificate.
fn text_of(alloc: Global, methods: &str, certificate: &str) -> Result<String, AllocError> {
    format!(in alloc; "seuss 1 cat C {methods} {certificate} end box c : C")
}

/// A verdict, but for the state that refutes.
#[derive(Clone, Copy, Debug, PartialEq, Eq)]
enum Told {
    Yes(Level),
    No,
    Unclear(Why),
}

fn in_short(verdict: &Verdict) -> Told {
    match verdict {
        Verdict::Yes(level) => Told::Yes(*level),
        Verdict::No { .. } => Told::No,
        Verdict::Unclear(why) => Told::Unclear(*why),
    }
}

/// The verdict on a certificate of these methods.
fn decided(alloc: Global, methods: &str, certificate: &str) -> Result<Told, Fail> {
    let text = text_of(alloc, methods, certificate)?;
    let program = program_of(alloc, text.as_bytes())?;
    let verdict = decide(alloc, &program, 2, 0)?;
    Ok(in_short(&verdict))
}

const LOOSE: Told = Told::Yes(Level::Loose);

const FIRM: Told = Told::Yes(Level::Firm);

const MAY_TRAP: Told = Told::Unclear(Why::MayTrap);

const NOT_SINGLE: Told = Told::Unclear(Why::NotSingle);

const UNDECIDED: Told = Told::Unclear(Why::UndecidedCondition);

const NOT_SHOWN: Told = Told::Unclear(Why::NotShown);

const TOO_MANY: Told = Told::Unclear(Why::TooManyCases);

/// A channel: what is put in at the back is got at the front.
const CHANNEL: &str = "var q : seq total put(x : int) is q := add(q, x) end \
     partial get() : int when len(q) > 0 -> result := first(q) q := rest(q) end";

/// A channel of two places, whose last one is overwritten where both are taken.
const OVERWRITING: &str = "var q : seq total put(x : int) is \
     if len(q) < 2 then q := add(q, x) else q := add(front(q), x) end end \
     partial get() : int when len(q) > 0 -> result := first(q) q := rest(q) end";

/// A method whose order with itself tells which number is left.
const SETTING: &str = "var n : int total set(x : int) is n := x end";

/// A method that sets thirteen bools.
const BOOLS: &str = "var a : bool var b : bool var c : bool var d : bool var e : bool var f : bool \
     var g : bool var h : bool var i : bool var j : bool var k : bool var l : bool var m : bool \
     total all() is a := true b := true c := true d := true e := true f := true g := true h := true \
     i := true j := true k := true l := true m := true end";

/// Where a pair may trap, isn't single, has a condition that isn't told, takes what isn't shown, or has too
/// many cases, its certificate is unclear, and else it has the highest level at which it holds, if any.
#[test]
fn verdicts_are_told(rt: HostRuntime) -> Result<(), Fail> {
    let alloc = rt.alloc();
    for (methods, certificate, wanted) in [
        (CHANNEL, "semi get, put front q 1", LOOSE),
        (CHANNEL, "semi get, put", UNDECIDED),
        (CHANNEL, "semi put, put", Told::No),
        (OVERWRITING, "semi get, put front q 2 back q 1", Told::No),
        (BOOLS, "semi all, all", TOO_MANY),
        (
            "var n : int total inc(x : int) is n := n &+ x end",
            "semi inc, inc",
            FIRM,
        ),
        (
            "var n : int total inc(x : int) is n := n + x end",
            "semi inc, inc",
            MAY_TRAP,
        ),
        (SETTING, "semi set, set", Told::No),
        (
            "var n : int total up(x : int) is while n < x do n := x end end",
            "semi up, up",
            NOT_SINGLE,
        ),
        (
            "var n : int total up(x : int) is if n < x then n := x end end",
            "semi up, up",
            UNDECIDED,
        ),
        (
            "var q : seq total put(x : int) is q := add(q, x) end \
             partial get() : int when len(q) > 0 -> result := last(q) end",
            "semi get, put front q 1",
            NOT_SHOWN,
        ),
        (
            "var q : seq total put(x : int) is q := add(q, x) end \
             partial get() : int when len(q) > 1 -> result := at(q, 1) end",
            "semi get, put front q 2",
            LOOSE,
        ),
        (
            "var q : seq total put(x : int) is q := add(q, x) end \
             partial get() : int when len(q) > 1 -> result := at(q, 1) end",
            "semi get, put front q 1 back q 1",
            NOT_SHOWN,
        ),
        (
            "var q : seq total put(x : int) is q := add(q, x) end \
             total get() : int is result := first(q) q := rest(q) end",
            "semi get, put front q 1",
            MAY_TRAP,
        ),
    ] {
        let found = decided(alloc, methods, certificate)?;
        assert_eq!(rt; found, wanted, "{methods} {certificate}");
    }
    Ok(())
}

/// A method of the one box, and its arguments.
#[derive(Clone, Copy)]
struct Called<'a> {
    method: u32,
    args: &'a [Value],
}

/// One step of a method from its entry: its end, in short.
fn end_of(
    alloc: Global,
    program: &Program,
    code: &Code,
    called: Called,
    vars: &mut Vars,
) -> Result<String, Memory>
    requires { code.now ≡ compiled program.now }
{
    let mut args = List::new(alloc);
    for value in called.args {
        args.push(value.copy(alloc)?)?;
    }
    let number = number_of(code, program, 0, called.method);
    let mut frame = entry(alloc, code, number, args)?;
    let mut budget = 10;
    let end = step(alloc, code, vars, &mut frame, &mut budget)?;
    Ok(format!(in alloc; "{end:?}")?)
}

/// The ends of two methods in one of their orders, and what they leave: always that of the first one ahead.
fn told_in_order(
    alloc: Global,
    program: &Program,
    code: &Code,
    vars: &Vars,
    pair: (Called, Called),
    is_first_ahead: bool,
) -> Result<String, Memory>
    requires { code.now ≡ compiled program.now }
{
    let (first, second) = pair;
    let mut left = vars.copy(alloc)?;
    let (end, other_end) = if is_first_ahead {
        let end = end_of(alloc, program, code, first, &mut left)?;
        (end, end_of(alloc, program, code, second, &mut left)?)
    } else {
        let other_end = end_of(alloc, program, code, second, &mut left)?;
        (end_of(alloc, program, code, first, &mut left)?, other_end)
    };
    Ok(format!(in alloc; "{end} {other_end} {left:?}")?)
}

/// The length of the first variable, where it is a sequence.
fn length_of(vars: &Vars) -> Option<u64> {
    match vars.values.get(0)? {
        Value::Seq(items) => Some(items.len()),
        Value::Int(_) | Value::Bool(_) => None,
    }
}

/// From the state of a refusal two methods do something else in their two orders, though the first one isn't
/// plainly rejected.
#[test]
fn refuting_states_refute(rt: HostRuntime) -> Result<(), Fail> {
    let alloc = rt.alloc();
    for (methods, certificate, numbers, length) in [
        (
            OVERWRITING,
            "semi get, put front q 2 back q 1",
            (1u32, 0u32),
            Some(2u64),
        ),
        (SETTING, "semi set, set", (0, 0), None),
        (CHANNEL, "semi put, put", (0, 0), Some(0)),
    ] {
        let text = text_of(alloc, methods, certificate)?;
        let program = program_of(alloc, text.as_bytes())?;
        let code = compile(alloc, &program)?;
        let Verdict::No {
            vars,
            first,
            second,
        } = decide(alloc, &program, 2, 0)?
        else {
            return Err(Fail::from("a state"));
        };
        let (one, other) = numbers;
        let first = Called {
            method: one,
            args: first.as_slice(),
        };
        let second = Called {
            method: other,
            args: second.as_slice(),
        };
        let ahead = told_in_order(alloc, &program, &code, &vars, (first, second), true)?;
        let behind = told_in_order(alloc, &program, &code, &vars, (first, second), false)?;
        assert!(rt; ahead.as_str() != behind.as_str(), "{ahead}");
        assert!(rt; !ahead.starts_with("RejectedPlain"), "{ahead}");
        assert_eq!(rt; length_of(&vars), length, "{methods}");
    }
    Ok(())
}
