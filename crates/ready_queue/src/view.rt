//! What the rule of a queue sees of its items, and what a pass of the queue knows.

use compat_scheduler::Ticket;
use std::collections::LinkedList;

/// What the rule sees of an item: its ticket, and the number of the seat that pushed it. No value of it is
/// made: it exists in proofs alone.
pub struct Mark {
    pub ticket: Ticket,
    pub seat: u32,
}

/// What was pushed and what was taken under a seat's number, each in its order. No value of it is made: it
/// exists in proofs alone.
pub struct Row {
    pub number: u32,
    pub pushed: LinkedList<Mark>,
    pub taken: LinkedList<Mark>,
}

/// What a pass of the queue knows. No value of it is made: it exists in proofs alone.
pub enum View {
    /// Nothing: the seat was joined into the first view.
    Spent,
    /// A seat: its row.
    Seated { row: Row },
    /// The first view: the rows that were joined into it, and how many numbers were given.
    First { rows: LinkedList<Row>, given: u64 },
}
