//! Parts of expressions.

use crate::Region;

/// A part of an expression: whether it is a number in digits, and a literal; its region by itself and beside
/// a literal in a comparison.
#[derive(Clone, Copy, Debug, PartialEq, Eq)]
pub struct Sides {
    pub digits: bool,
    pub literal: bool,
    pub region: Option<Region>,
    pub beside: Option<Region>,
}
