//! Sequence forms, and what is taken from them.

use seuss_base::{List, Memory};
use shape_terms::{FormRefusal, NumForm, SeqForm};
use std::alloc::Global;
use std::test::Fail;

/// The call may trap.
const EMPTY: Result<&str, FormRefusal> = Err(FormRefusal::MayBeEmpty);

/// The sequence has it, behind its unknown rest.
const HIDDEN: Result<&str, FormRefusal> = Err(FormRefusal::NotShown);

/// The elements that letters stand for: `a` for atom 0, `b` for atom 1, and so on.
fn items_of(alloc: Global, letters: &str) -> Result<List<NumForm>, Memory> {
    let mut items = List::new(alloc);
    for letter in letters.as_bytes() {
        items.push(NumForm::atom(alloc, letter.wrapping_sub(b'a') as u32)?)?;
    }
    Ok(items)
}

/// The sequence that a text stands for: letters are elements, and a star among them is an unknown rest.
fn form_of(alloc: Global, text: &str) -> Result<SeqForm, Memory> {
    match text.split_once('*') {
        Some((front, back)) => {
            let front = items_of(alloc, front)?;
            let back = items_of(alloc, back)?;
            Ok(SeqForm::long(front, 0, back))
        }
        None => Ok(SeqForm::exact(items_of(alloc, text)?)),
    }
}

/// The sequence of one element.
fn only(alloc: Global, item: NumForm) -> Result<SeqForm, FormRefusal> {
    let mut items = List::new(alloc);
    items.push(item)?;
    Ok(SeqForm::exact(items))
}

/// Whether a call gave the sequence that a text stands for, or the refusal that is wanted.
fn is_wanted(
    alloc: Global,
    found: Result<SeqForm, FormRefusal>,
    wanted: Result<&str, FormRefusal>,
) -> Result<bool, Memory> {
    match wanted {
        Ok(text) => {
            let form = form_of(alloc, text)?;
            Ok(match found {
                Ok(found) => found.same(&form),
                Err(_) => false,
            })
        }
        Err(refusal) => Ok(found.err() == Some(refusal)),
    }
}

/// A call that takes from an end of a sequence.
#[derive(Clone, Copy, Debug)]
enum Call {
    First,
    Last,
    Rest,
    Front,
}

/// What a call gives for the sequence of a text: an element is answered as the sequence of it alone.
fn taken(alloc: Global, call: Call, text: &str) -> Result<SeqForm, FormRefusal> {
    let form = form_of(alloc, text)?;
    match call {
        Call::First => only(alloc, form.first(alloc)?),
        Call::Last => only(alloc, form.last(alloc)?),
        Call::Rest => form.rest(alloc),
        Call::Front => form.front(alloc),
    }
}

/// `first`, `last`, `rest` and `front` of each form.
#[test]
fn ends_are_taken(rt: HostRuntime) -> Result<(), Fail> {
    let alloc = rt.alloc();
    for (text, wanted) in [
        ("", [EMPTY, EMPTY, EMPTY, EMPTY]),
        ("a", [Ok("a"), Ok("a"), Ok(""), Ok("")]),
        ("abc", [Ok("a"), Ok("c"), Ok("bc"), Ok("ab")]),
        ("*", [EMPTY, EMPTY, EMPTY, EMPTY]),
        ("a*", [Ok("a"), HIDDEN, Ok("*"), HIDDEN]),
        ("*a", [HIDDEN, Ok("a"), HIDDEN, Ok("*")]),
        ("ab*c", [Ok("a"), Ok("c"), Ok("b*c"), Ok("ab*")]),
    ] {
        for (at, call) in [Call::First, Call::Last, Call::Rest, Call::Front]
            .into_iter()
            .enumerate()
        {
            let found = taken(alloc, call, text);
            assert!(rt; is_wanted(alloc, found, wanted[at])?, "{call:?} of {text}");
        }
    }
    Ok(())
}

/// What `at` gives for the sequence of a text, as the sequence of the element alone.
fn taken_at(alloc: Global, text: &str, index: &NumForm) -> Result<SeqForm, FormRefusal> {
    only(alloc, form_of(alloc, text)?.at(alloc, index)?)
}

/// `at` of each form, inside it and past its edges.
#[test]
fn places_are_taken(rt: HostRuntime) -> Result<(), Fail> {
    let alloc = rt.alloc();
    for (text, index, wanted) in [
        ("", 0i64, EMPTY),
        ("ab", -1, EMPTY),
        ("ab", 0, Ok("a")),
        ("ab", 1, Ok("b")),
        ("ab", 2, EMPTY),
        ("*", 0, EMPTY),
        ("a*", 0, Ok("a")),
        ("a*", 1, EMPTY),
        ("*a", 0, HIDDEN),
        ("*a", 1, EMPTY),
        ("ab*cd", 1, Ok("b")),
        ("ab*cd", 2, HIDDEN),
        ("ab*cd", 3, HIDDEN),
        ("ab*cd", 4, EMPTY),
        ("ab*cd", i64::MAX, EMPTY),
        ("ab*cd", i64::MIN, EMPTY),
    ] {
        let index_form = NumForm::literal(alloc, index)?;
        let found = taken_at(alloc, text, &index_form);
        assert!(rt; is_wanted(alloc, found, wanted)?, "at({text}, {index})");
    }
    Ok(())
}

/// An atom, 1 and this atom taken away again.
fn one_by_atoms(alloc: Global) -> Result<NumForm, Memory> {
    let atom = NumForm::atom(alloc, 3)?;
    let one = NumForm::literal(alloc, 1)?;
    atom.plus(alloc, &one)?.minus(alloc, &atom)
}

/// `at` by an index that isn't written as a number: one that comes to a number is taken, no other.
#[test]
fn places_are_sums(rt: HostRuntime) -> Result<(), Fail> {
    let alloc = rt.alloc();
    let by_atom = taken_at(alloc, "ab", &NumForm::atom(alloc, 3)?);
    assert!(rt; is_wanted(alloc, by_atom, EMPTY)?);
    let by_length = taken_at(alloc, "ab", &NumForm::rest_len(alloc, 0)?);
    assert!(rt; is_wanted(alloc, by_length, EMPTY)?);
    let by_one = taken_at(alloc, "ab", &one_by_atoms(alloc)?);
    assert!(rt; is_wanted(alloc, by_one, Ok("b"))?);
    Ok(())
}

/// What `add` of atom 3 gives for the sequence of a text.
fn with_d(alloc: Global, text: &str) -> Result<SeqForm, FormRefusal> {
    let added = NumForm::atom(alloc, 3)?;
    Ok(form_of(alloc, text)?.add(alloc, &added)?)
}

/// Whether the length of the sequence of a text is this number, and with it that of its rest, if it has one.
fn has_length(alloc: Global, text: &str, shown: i64) -> Result<bool, Memory> {
    let mut length = NumForm::literal(alloc, shown)?;
    if text.contains('*') {
        length = length.plus(alloc, &NumForm::rest_len(alloc, 0)?)?;
    }
    Ok(form_of(alloc, text)?.len(alloc)?.same(&length))
}

/// `add` and `len` of each form.
#[test]
fn elements_are_added_and_counted(rt: HostRuntime) -> Result<(), Fail> {
    let alloc = rt.alloc();
    for (text, wanted, shown) in [
        ("", "d", 0i64),
        ("ab", "abd", 2),
        ("*", "*d", 0),
        ("a*bc", "a*bcd", 3),
    ] {
        let found = with_d(alloc, text);
        assert!(rt; is_wanted(alloc, found, Ok(wanted))?, "add({text}, d)");
        assert!(rt; has_length(alloc, text, shown)?, "len({text})");
    }
    Ok(())
}

/// Which forms are the same in every case: those with the same elements and rest at the same places.
#[test]
fn sequences_are_compared(rt: HostRuntime) -> Result<(), Fail> {
    let alloc = rt.alloc();
    let texts = [
        "", "a", "b", "ab", "ba", "*", "a*", "*a", "a*b", "ab*", "*ab",
    ];
    for (at, text) in texts.iter().enumerate() {
        for (other_at, other) in texts.iter().enumerate() {
            let form = form_of(alloc, text)?;
            let same = form.same(&form_of(alloc, other)?);
            assert_eq!(rt; same, at == other_at, "{text} {other}");
        }
    }
    let front = items_of(alloc, "a")?;
    let other_rest = SeqForm::long(front, 1, List::new(alloc));
    assert!(rt; !other_rest.same(&form_of(alloc, "a*")?));
    Ok(())
}
