//! Tests of tokens: words, places, lines, limits and refusals.

use crate::{
    TextRefusal, Token, TokenKind, digits_value, is_name, is_white, number_value, token_text,
    tokens,
};
use std::test::Fail;

fn token(kind: TokenKind, start: u64, stop: u64, line: u32) -> Token {
    Token {
        kind,
        start,
        stop,
        line,
    }
}

#[test]
fn words_places_and_lines(rt: HostRuntime) -> Result<(), Fail> {
    let found = tokens(rt.alloc(), b"1a := b_2\r\n# x\ncat<=<\r\n7#")?;
    let wanted = [
        token(TokenKind::Number, 0, 1, 1),
        token(TokenKind::Name, 1, 2, 1),
        token(TokenKind::Sign, 3, 5, 1),
        token(TokenKind::Name, 6, 9, 1),
        token(TokenKind::Keyword, 15, 18, 3),
        token(TokenKind::Sign, 18, 20, 3),
        token(TokenKind::Sign, 20, 21, 3),
        token(TokenKind::Number, 23, 24, 4),
    ];
    assert_eq!(rt; found.list.as_slice(), wanted.as_slice());
    Ok(())
}

#[test]
fn texts_without_tokens(rt: HostRuntime) -> Result<(), Fail> {
    let empty = tokens(rt.alloc(), b"")?;
    assert_eq!(rt; empty.list.len(), 0);
    let commented = tokens(rt.alloc(), b" \t# \xc3\xa9 $\n#")?;
    assert_eq!(rt; commented.list.len(), 0);
    Ok(())
}

#[test]
fn words_at_their_limits(rt: HostRuntime) -> Result<(), Fail> {
    let numbers = tokens(rt.alloc(), b"9223372036854775807 00009223372036854775807")?;
    assert_eq!(rt; numbers.list.len(), 2);
    let names = tokens(rt.alloc(), b"a2345678901234567890123456789012")?;
    assert_eq!(rt; names.list.len(), 1);
    Ok(())
}

#[test]
fn refusals(rt: HostRuntime) {
    let accented = tokens(rt.alloc(), b"seuss 1\nbox \xc3\xa9 : Input");
    assert_eq!(rt; accented.err(), Some(TextRefusal::BadByte(2)));
    let number = tokens(rt.alloc(), b"cat c\nvar n : int\n= 9223372036854775808 $");
    assert_eq!(rt; number.err(), Some(TextRefusal::Range(3)));
    let name = tokens(rt.alloc(), b"a23456789012345678901234567890123");
    assert_eq!(rt; name.err(), Some(TextRefusal::Range(1)));
    let half = tokens(rt.alloc(), b"# $\r\na ~\n>");
    assert_eq!(rt; half.err(), Some(TextRefusal::BadByte(2)));
}

#[test]
fn longest_text(rt: HostRuntime) -> Result<(), Fail> {
    let mut text = vec![in rt.alloc(); b' '; 1_048_576]?;
    let found = tokens(rt.alloc(), &text)?;
    assert_eq!(rt; found.list.len(), 0);
    text.push(b' ')?;
    assert_eq!(rt; tokens(rt.alloc(), &text).err(), Some(TextRefusal::TooLong));
    Ok(())
}

#[test]
fn text_of_a_token(rt: HostRuntime) -> Result<(), Fail> {
    let text = b"box 0042";
    let found = tokens(rt.alloc(), text)?;
    assert_eq!(rt; found.list.len(), 2);
    assert_eq!(rt; token_text(text, &found, 1), b"0042".as_slice());
    assert_eq!(rt; number_value(b"0042"), 42);
    assert_eq!(rt; digits_value(b"0042", 41), None);
    assert!(rt; is_white(b'\t'));
    Ok(())
}

/// Every keyword is one, and no name.
#[test]
fn keywords(rt: HostRuntime) -> Result<(), Fail> {
    let text =
        b"seuss cat box var total partial action is when let if then else while do end semi int \
        bool seq true false and or not first last rest front back len at add";
    let found = tokens(rt.alloc(), text)?;
    assert_eq!(rt; found.list.len(), 33);
    for token in found.list.as_slice() {
        assert_eq!(rt; token.kind, TokenKind::Keyword);
    }
    assert!(rt; !is_name(b"back"));
    assert!(rt; is_name(b"backs"));
    assert!(rt; !is_name(b"a.b"));
    assert!(rt; !is_name(b""));
    Ok(())
}
