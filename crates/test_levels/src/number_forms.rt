//! Sums of number forms, and whether they are the same.

use seuss_base::Memory;
use shape_terms::NumForm;
use std::alloc::Global;
use std::test::Fail;

/// The form that a text stands for: a letter is an atom, `a` for atom 0, `b` for atom 1, and so on, a digit
/// is the length of the rest of this number, and a minus before one of them takes it away.
fn form_of(alloc: Global, number: i64, text: &str) -> Result<NumForm, Memory> {
    let mut sum = NumForm::literal(alloc, number)?;
    let mut is_added = true;
    for byte in text.as_bytes() {
        let part = match *byte {
            b'-' => {
                is_added = false;
                continue;
            }
            b'0'..=b'9' => NumForm::rest_len(alloc, byte.wrapping_sub(b'0') as u32)?,
            _ => NumForm::atom(alloc, byte.wrapping_sub(b'a') as u32)?,
        };
        sum = if is_added {
            sum.plus(alloc, &part)?
        } else {
            sum.minus(alloc, &part)?
        };
        is_added = true;
    }
    Ok(sum)
}

/// Sums are the same where each part is there as often, in whatever order, and differ where it isn't.
#[test]
fn sums_are_compared(rt: HostRuntime) -> Result<(), Fail> {
    let alloc = rt.alloc();
    for (number, text, other_number, other, same) in [
        (0i64, "", 0i64, "", true),
        (5, "ab0", 5, "0ba", true),
        (5, "ab", 6, "ab", false),
        (5, "a", 5, "aa", false),
        (5, "ab-b", 5, "a", true),
        (5, "-a", 5, "a", false),
        (0, "b", 0, "1", false),
        (0, "3", 0, "-3", false),
        (0, "3-3", 0, "c-c", true),
        (0, "h", 0, "", false),
    ] {
        let one = form_of(alloc, number, text)?;
        let two = form_of(alloc, other_number, other)?;
        assert_eq!(rt; one.same(&two), same, "{text} {other}");
        assert_eq!(rt; two.same(&one), same, "{text} {other}");
    }
    Ok(())
}

/// Sums are those modulo 2^64, and a sum without atoms and lengths is a number.
#[test]
fn sums_wrap(rt: HostRuntime) -> Result<(), Fail> {
    let alloc = rt.alloc();
    let greatest = NumForm::literal(alloc, i64::MAX)?;
    let least = NumForm::literal(alloc, i64::MIN)?;
    let one = NumForm::literal(alloc, 1)?;
    assert_eq!(rt; greatest.plus(alloc, &one)?.as_literal(), Some(i64::MIN));
    assert_eq!(rt; least.minus(alloc, &one)?.as_literal(), Some(i64::MAX));
    assert_eq!(rt; one.minus(alloc, &least)?.as_literal(), Some(-i64::MAX));
    let mut twice = NumForm::atom(alloc, 2)?;
    for _ in 0..64 {
        assert_eq!(rt; twice.as_literal(), None);
        twice = twice.plus(alloc, &twice)?;
    }
    assert_eq!(rt; twice.as_literal(), Some(0));
    Ok(())
}
