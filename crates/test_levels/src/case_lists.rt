//! Lists of cases, at the limit of their number and on both sides of it.

use shape_terms::{Case, CaseRefusal, Shape, Symbol, cases};
use std::alloc::{AllocError, Global};
use std::test::Fail;
use test_texts::program_of;

/// Puts pieces of text for bools at the end of a text, each with its name in the middle.
fn push_named(text: &mut Vec<u8>, many: u8, before: &str, after: &str) -> Result<(), AllocError> {
    for at in 0..many {
        text.extend_from_slice(before.as_bytes())?;
        text.push(b'a'.wrapping_add(at))?;
        text.extend_from_slice(after.as_bytes())?;
    }
    Ok(())
}

/// A program with a certificate of one method over itself: its first variables, how many bools there are
/// behind them, how many of these stand in the text of the method, its parameters, and the hints.
fn text_of(
    alloc: Global,
    vars: &str,
    bools: (u8, u8),
    params: &str,
    hints: &str,
) -> Result<Vec<u8>, AllocError> {
    let (many, in_text) = bools;
    let mut text = Vec::from_slice(alloc, b"seuss 1 cat C ")?;
    text.extend_from_slice(vars.as_bytes())?;
    push_named(&mut text, many, " var ", " : bool")?;
    text.extend_from_slice(b" total go(")?;
    text.extend_from_slice(params.as_bytes())?;
    text.extend_from_slice(b") is ")?;
    if !vars.is_empty() {
        text.extend_from_slice(b"q := []")?;
    }
    push_named(&mut text, in_text, " ", " := true")?;
    text.extend_from_slice(b" end semi go, go ")?;
    text.extend_from_slice(hints.as_bytes())?;
    text.extend_from_slice(b" end")?;
    Ok(text)
}

/// How many cases there are: the product over the variables and the parameters of both methods. Above 4,096
/// the first product that passes it is told.
#[test]
fn cases_are_counted(rt: HostRuntime) -> Result<(), Fail> {
    let alloc = rt.alloc();
    let seq = "var q : seq";
    for (vars, bools, params, hints, wanted) in [
        ("", (0u8, 0u8), "", "", Ok(1u64)),
        ("", (12, 12), "", "", Ok(4096)),
        ("", (13, 13), "", "", Err(CaseRefusal::TooMany(8192))),
        ("", (13, 12), "", "", Ok(4096)),
        ("", (10, 10), "x : bool, y : int", "", Ok(4096)),
        (
            "",
            (12, 12),
            "x : bool",
            "",
            Err(CaseRefusal::TooMany(8192)),
        ),
        (seq, (12, 12), "", "", Ok(4096)),
        (seq, (10, 10), "", "front q 1 back q 2", Ok(4096)),
        (seq, (8, 8), "", "front q 4 back q 4", Ok(2304)),
        (
            seq,
            (13, 13),
            "",
            "front q 4 back q 4",
            Err(CaseRefusal::TooMany(4608)),
        ),
    ] {
        let text = text_of(alloc, vars, bools, params, hints)?;
        let program = program_of(alloc, text.as_slice())?;
        let found = cases(alloc, &program, 2, 0).map(|all| all.len());
        assert_eq!(rt; found, wanted, "{vars} {params} {hints}");
    }
    Ok(())
}

/// The bools of a case as a number, of which the first is the lowest bit.
fn number_of(case: &Case) -> Option<usize> {
    let mut number = 0usize;
    let mut bit = 1usize;
    for symbol in case.vars.as_slice() {
        match symbol {
            Symbol::Truth(true) => number |= bit,
            Symbol::Truth(false) => {}
            _ => return None,
        }
        bit = bit.wrapping_mul(2);
    }
    Some(number)
}

/// How many different numbers cases have, of those below 4,096.
fn count_different(alloc: Global, all: &[Case]) -> Result<u32, AllocError> {
    let mut seen = vec![in alloc; false; 4096]?;
    let mut different = 0u32;
    for case in all {
        let Some(number) = number_of(case) else {
            continue;
        };
        if let Some(was_seen) = seen.get_mut(number) {
            if !*was_seen {
                different = different.wrapping_add(1);
            }
            *was_seen = true;
        }
    }
    Ok(different)
}

/// With twelve bools each of their 4,096 combinations is a case.
#[test]
fn all_combinations_are_cases(rt: HostRuntime) -> Result<(), Fail> {
    let alloc = rt.alloc();
    let text = text_of(alloc, "", (12, 12), "", "")?;
    let program = program_of(alloc, text.as_slice())?;
    let all = cases(alloc, &program, 2, 0)?;
    assert_eq!(rt; count_different(alloc, all.as_slice())?, 4096);
    Ok(())
}

/// What a symbol is, in short: a number, a bool, or how many elements of a sequence are shown.
fn symbol_text(alloc: Global, symbol: &Symbol) -> Result<String, AllocError> {
    match symbol {
        Symbol::Number(_) => String::from_str(alloc, "int"),
        Symbol::Truth(truth) => format!(in alloc; "{truth}"),
        Symbol::Untold(_) => String::from_str(alloc, "untold"),
        Symbol::Sequence(form) => match form.shape() {
            Shape::Exact(items) => format!(in alloc; "{}", items.len()),
            Shape::Long { front, back, .. } => {
                format!(in alloc; "{}*{}", front.len(), back.len())
            }
        },
    }
}

/// What the variables and parameters of a case are, in short.
fn case_text(alloc: Global, case: &Case) -> Result<String, AllocError> {
    let mut text = String::new(alloc);
    for symbols in [&case.vars, &case.first, &case.second] {
        for symbol in symbols.as_slice() {
            text.push_str(symbol_text(alloc, symbol)?.as_str())?;
            text.push(' ')?;
        }
        text.push('|')?;
    }
    Ok(text)
}

/// Each case of a pair with parameters, hints and a bool that stands in no method.
#[test]
fn cases_are_listed(rt: HostRuntime) -> Result<(), Fail> {
    let alloc = rt.alloc();
    let text =
        b"seuss 1 cat C var n : int var q : seq var b : bool total m(y : bool) is n := 1 end \
        total k(x : int) is q := add(q, x) end semi m, k front q 1 back q 1 end";
    let program = program_of(alloc, text)?;
    let all = cases(alloc, &program, 2, 0)?;
    let wanted = [
        "int 0 untold |true |int |",
        "int 0 untold |false |int |",
        "int 1 untold |true |int |",
        "int 1 untold |false |int |",
        "int 1*1 untold |true |int |",
        "int 1*1 untold |false |int |",
    ];
    assert_eq!(rt; all.len(), 6);
    for (case, wanted) in all.as_slice().iter().zip(wanted) {
        assert_eq!(rt; case_text(alloc, case)?.as_str(), wanted);
    }
    Ok(())
}
