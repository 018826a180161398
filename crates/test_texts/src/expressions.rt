//! Single expressions: how far their tokens are taken, and where a refusal stands.

use seuss_parser::{ParseRefusal, parse_expr};
use seuss_program::{Node, Op};
use seuss_text::tokens;
use std::alloc::Global;
use std::test::Fail;

/// An expression that a second comparison ends, one that its brackets end, and a number.
const TEXT: &[u8] = b"a < b + 1 < c\n(1 +) 2";

/// The place behind the expression from this token on, or the line where it is refused.
fn place(alloc: Global, from: u64) -> Result<u64, u32> {
    let Ok(found) = tokens(alloc, TEXT) else {
        return Err(0);
    };
    if found.list.len() < from {
        return Err(0);
    }
    match parse_expr(alloc, TEXT, &found, from) {
        Ok((_value, next)) => Ok(next),
        Err(ParseRefusal::Syntax(line)) => Err(line),
        Err(ParseRefusal::Nesting(_) | ParseRefusal::Memory) => Err(0),
    }
}

/// Tokens are taken as long as an expression goes on: not past a second comparison, nor past a name.
#[test]
fn expressions_end_where_none_goes_on(rt: HostRuntime) {
    assert_eq!(rt; place(rt.alloc(), 0), Ok(5));
    assert_eq!(rt; place(rt.alloc(), 4), Ok(7));
    assert_eq!(rt; place(rt.alloc(), 6), Ok(7));
    assert_eq!(rt; place(rt.alloc(), 11), Ok(12));
}

/// A refusal stands at the token that ended those taken, or at the end of the text.
#[test]
fn refusals_stand_where_tokens_end(rt: HostRuntime) {
    assert_eq!(rt; place(rt.alloc(), 5), Err(1));
    assert_eq!(rt; place(rt.alloc(), 7), Err(2));
    assert_eq!(rt; place(rt.alloc(), 12), Err(2));
}

/// The tree groups as in a program.
#[test]
fn the_tree_is_answered(rt: HostRuntime) -> Result<(), Fail> {
    let found = tokens(rt.alloc(), TEXT)?;
    let (value, _next) = parse_expr(rt.alloc(), TEXT, &found, 0)?;
    assert!(rt; matches!(value.node, Node::Two(Op::Lt, _, _)));
    Ok(())
}
