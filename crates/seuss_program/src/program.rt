//! Checked programs: cats whose names are numbers, boxes with their levels, and actions.

use crate::{Cat, Name, Ref};
use seuss_base::List;

/// A program that passed every check. Cats 0 and 1 are `Input` and `Output`; boxes are numbered in
/// order of declaration, actions by box and then in the order of the cat's text, each from 0.
#[derive(Debug, Drop)]
pub struct Program {
    pub cats: List<Cat<Ref>>,
    pub boxes: List<BoxInfo>,
    pub actions: List<ActionInfo>,
}

/// A box. Its level is 0 where it was given none, else one more than the greatest of its given boxes.
#[derive(Debug, Drop)]
pub struct BoxInfo {
    pub name: Name,
    pub cat: u32,
    pub given: List<u32>,
    pub level: u32,
}

/// An action of a box, by the numbers of the box and of the procedure in its cat.
#[derive(Clone, Copy, Debug, PartialEq, Eq)]
pub struct ActionInfo {
    pub box_number: u32,
    pub procedure: u32,
}
