//! The record of a run: what each journal says of it, and each pass.

use compat_scheduler::{FinishVerdict, Ticket};
use method_code::{End, Frame};
use seuss_base::{List, PassEnd};
use seuss_program::State;

/// A method step on a box, as the journal of the box has it: its pass, by the order of starts from 0, and
/// its own number in the pass, from 0; the frame and the budget that it was given; and its result. Along a
/// journal and along a pass stamps rise.
#[derive(Debug, Drop)]
pub struct BoxEntry {
    pub pass: u64,
    pub number: u32,
    pub before: Frame,
    pub budget_before: u64,
    pub after: Frame,
    pub budget_after: u64,
    pub end: End,
    pub stamp: u64,
}

/// The start or the finish of a pass, as the scheduler's journal has it.
#[derive(Clone, Copy, Debug, PartialEq, Eq)]
pub enum SchedEntry {
    Start {
        ticket: Ticket,
        stamp: u64,
    },
    Finish {
        ticket: Ticket,
        end: PassEnd,
        verdict: FinishVerdict,
        stamp: u64,
    },
}

/// Where the entry of a step stands: its box, its place in the journal of the box, from 0, and its stamp.
#[derive(Clone, Copy, Debug, PartialEq, Eq)]
pub struct Claim {
    pub box_number: u32,
    pub place: u64,
    pub stamp: u64,
}

/// A finished pass: a claim for each of its steps, in their order, and the number of the commit step among
/// them, from 0.
#[derive(Debug, Drop)]
pub struct PassRecord {
    pub ticket: Ticket,
    pub claims: List<Claim>,
    pub commit: u32,
    pub end: PassEnd,
    pub verdict: FinishVerdict,
}

/// A whole run: the state before and after it, the journal of each box and that of the scheduler, and the
/// passes in the order of their starts.
#[derive(Debug, Drop)]
pub struct Record {
    pub first: State,
    pub last: State,
    pub boxes: List<List<BoxEntry>>,
    pub sched: List<SchedEntry>,
    pub passes: List<PassRecord>,
}
