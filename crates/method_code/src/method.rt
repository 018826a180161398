//! The code of one procedure.

use crate::instruction::{CallCode, Instruction};
use seuss_base::List;
use seuss_program::{Expr, Ref, Value};

/// The code of one procedure.
#[derive(Debug, Drop)]
pub struct Method {
    pub entry: Entry,
    /// What stands in the slots after the arguments at the entry.
    pub locals: List<Value>,
    /// The slot of the result, where there is one.
    pub result: Option<u64>,
    pub instructions: List<Instruction>,
}

/// How a procedure begins.
#[derive(Debug, Drop)]
pub enum Entry {
    /// With its first instruction. It never rejects.
    Total,
    /// With the first of its alternatives whose precondition holds. Its first instruction is a
    /// rejection, at which it goes on where a preprocedure rejected.
    Partial(List<Head>),
}

/// How an alternative begins: its precondition, the call of its preprocedure, and the instruction at
/// which it goes on. After a preprocedure that is the one that takes its result.
#[derive(Debug, Drop)]
pub struct Head {
    pub cond: Expr<Ref>,
    pub early: Option<CallCode>,
    pub start: u32,
}
