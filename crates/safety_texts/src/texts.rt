//! Properties as they are written.

use seuss_program::{Expr, Name};

/// A property as it is written: the name of its cat, and a condition with names.
#[derive(Debug, Drop)]
pub struct PropertyText {
    pub cat: Name,
    pub expr: Expr<Name>,
}
