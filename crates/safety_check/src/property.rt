//! Properties of the boxes of a cat.

use seuss_program::{Expr, Ref};

/// A property of the boxes of a cat, as an expression over the variables of this cat.
#[derive(Debug, Drop)]
pub struct Property {
    pub cat: u32,
    pub expr: Expr<Ref>,
}
