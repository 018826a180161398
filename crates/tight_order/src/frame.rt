//! Where statements run, what a procedure has while it runs, and how it returns.

use seuss_base::List;
use seuss_program::{Program, Value};

/// Where statements run: in a box of a program, with calls at most `depth` deep below them.
#[derive(Clone, Copy)]
pub struct Place<'a> {
    pub program: &'a Program,
    pub box_number: u32,
    pub depth: u64,
}

/// What a procedure has while it runs: its slots, and what is left of the budget of the attempt.
#[derive(Debug, Drop)]
pub struct Frame {
    pub slots: List<Value>,
    pub budget: u64,
}

/// How a procedure returns: it accepts, with its result where it has one, or it rejects.
#[derive(Clone, Copy, Debug, PartialEq, Eq)]
pub enum Reply {
    Accepted(Option<i64>),
    Rejected,
}
