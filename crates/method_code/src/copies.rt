//! Equal values and expressions of their own.

ghost use Rattle.std.specs.Prelude.{◌≡◌, IfOk};

use seuss_base::{Box, List, Memory};
use seuss_program::{Expr, Node, Ref, Value};
use std::alloc::Global;

/// An equal expression of its own.
pub fn copy_expr(alloc: Global, expr: &Expr<Ref>) -> Result<Expr<Ref>, Memory>
    ensures { IfOk result (λ e. e ≡ expr.now) }
{
    let line = expr.line;
    match &expr.node {
        Node::Int(z) => Ok(Expr {
            line,
            node: Node::Int(*z),
        }),
        Node::Bool(b) => Ok(Expr {
            line,
            node: Node::Bool(*b),
        }),
        Node::Empty => Ok(Expr {
            line,
            node: Node::Empty,
        }),
        Node::Name(name) => Ok(Expr {
            line,
            node: Node::Name(*name),
        }),
        Node::Neg(part) => Ok(Expr {
            line,
            node: Node::Neg(Box::new(alloc, copy_expr(alloc, part)?)?),
        }),
        Node::Not(part) => Ok(Expr {
            line,
            node: Node::Not(Box::new(alloc, copy_expr(alloc, part)?)?),
        }),
        Node::Two(op, left, right) => {
            let x = Box::new(alloc, copy_expr(alloc, left)?)?;
            let y = Box::new(alloc, copy_expr(alloc, right)?)?;
            Ok(Expr {
                line,
                node: Node::Two(*op, x, y),
            })
        }
        Node::One(fun, part) => Ok(Expr {
            line,
            node: Node::One(*fun, Box::new(alloc, copy_expr(alloc, part)?)?),
        }),
    }
}

/// Equal arguments of their own.
pub fn copy_args(alloc: Global, args: &[Expr<Ref>]) -> Result<List<Expr<Ref>>, Memory>
    ensures { IfOk result (λ copied. copied ≡ args.now) }
{
    let mut copied = List::new(alloc);
    for arg in args {
        copied.push(copy_expr(alloc, arg)?)?;
    }
    Ok(copied)
}

/// Equal values of their own.
pub fn copy_values(alloc: Global, values: &[Value]) -> Result<List<Value>, Memory>
    ensures { IfOk result (λ copied. copied ≡ values.now) }
{
    let mut copied = List::new(alloc);
    for value in values {
        copied.push(value.copy(alloc)?)?;
    }
    Ok(copied)
}
