//! What is seen in texts.

use seuss_base::List;
use seuss_program::Ref;

/// A literal with which a name, or its length, is compared.
#[derive(Clone, Copy, Debug, PartialEq, Eq)]
pub struct Cut {
    pub name: Ref,
    pub number: i128,
}

/// A look at an expression: the number in digits and the literal that it is, the name that it is, and the
/// name that it, or whose length it, is.
#[derive(Clone, Copy, Debug, PartialEq, Eq)]
pub struct Look {
    pub digits: Option<i64>,
    pub literal: Option<i128>,
    pub name: Option<Ref>,
    pub subject: Option<Ref>,
}

/// The names and the cuts in a text.
#[derive(Debug, Drop)]
pub struct Seen {
    pub names: List<Ref>,
    pub cuts: List<Cut>,
}
