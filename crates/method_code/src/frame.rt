//! Where a procedure stands between two steps, and how a step ends.

ghost use Rattle.std.specs.Prelude.{◌≡◌, IfOk};

use crate::copies::copy_values;
use seuss_base::{List, Memory, PassEnd, Trap};
use seuss_program::Value;
use std::alloc::Global;

/// Where a procedure stands between two steps. Place 0 is the entry, and place i + 1 is instruction i.
/// Methods are numbered over all cats in order.
#[derive(Debug, Drop)]
pub struct Frame {
    pub method: u32,
    pub place: u32,
    pub slots: List<Value>,
}

/// How a method step ends. A call names a given box of the cat, by its number, and a method of the cat
/// of that box.
#[derive(Debug, Drop)]
pub enum End {
    Call {
        target: u32,
        method: u32,
        args: List<Value>,
        /// Whether it is the call of a preprocedure.
        partial: bool,
    },
    Returned(Option<i64>),
    /// No precondition held.
    RejectedPlain,
    Rejected,
    Trapped(Trap),
    /// The budget was used up.
    Spent,
}

/// What comes after a step: one more step, on this box, or the end of the pass.
#[derive(Clone, Copy, Debug, PartialEq, Eq)]
pub enum Turn {
    Next(u32),
    Over(PassEnd),
}

impl Frame {
    /// An equal frame of its own.
    pub fn copy(&self, alloc: Global) -> Result<Frame, Memory>
        ensures { IfOk result (λ frame. frame ≡ self.now) }
    {
        let slots = copy_values(alloc, self.slots.as_slice())?;
        Ok(Frame {
            method: self.method,
            place: self.place,
            slots,
        })
    }
}

impl End {
    /// An equal end of its own.
    pub fn copy(&self, alloc: Global) -> Result<End, Memory>
        ensures { IfOk result (λ end. end ≡ self.now) }
    {
        match self {
            End::Call {
                target,
                method,
                args,
                partial,
            } => Ok(End::Call {
                target: *target,
                method: *method,
                args: copy_values(alloc, args.as_slice())?,
                partial: *partial,
            }),
            End::Returned(found) => Ok(End::Returned(*found)),
            End::RejectedPlain => Ok(End::RejectedPlain),
            End::Rejected => Ok(End::Rejected),
            End::Trapped(trap) => Ok(End::Trapped(*trap)),
            End::Spent => Ok(End::Spent),
        }
    }
}
