//! The instructions of compiled code.

use seuss_base::{List, Trap};
use seuss_program::{Expr, Ref, Value};

/// What a call needs: the number of a given box, the number of the method in the cat of that box, and
/// the arguments.
#[derive(Debug, Drop)]
pub struct CallCode {
    pub target: u32,
    pub method: u32,
    pub args: List<Expr<Ref>>,
}

/// One instruction of a procedure. Jumps count instructions, from the one after the jump on.
#[derive(Debug, Drop)]
pub enum Instruction {
    /// A name takes the value of an expression.
    Set(Ref, Expr<Ref>),
    /// Passes over instructions where the condition is false.
    SkipUnless(Expr<Ref>, u32),
    Skip(u32),
    /// The end of a loop. Where the condition is true, 1 is paid, and the instruction so many places
    /// before this one comes next.
    Again(Expr<Ref>, u32),
    /// Calls a total method, for which 1 is paid after its arguments were evaluated.
    Call(CallCode),
    /// Takes the result of a call, the last slot, off the slots. A name, where there is one, takes it.
    Take(Option<Ref>),
    /// Accepts, with the result where there is one.
    Return,
    Reject,
}

/// What comes after an instruction.
#[derive(Debug, Drop)]
pub enum Move {
    /// The next instruction, after so many are passed over.
    On(u32),
    /// A turn of a loop is to be paid for, whose first instruction stands so many places before.
    Back(u32),
    /// A total method is to be called, and to be paid for.
    Call {
        target: u32,
        method: u32,
        args: List<Value>,
    },
    Return,
    Reject,
    Trap(Trap),
}
