//! One pass of an attempt, from step to step.

ghost use Rattle.std.specs.Prelude.{◌≡◌, ◌++◌, ◌∷◌, [], pos, Option, Some, IfOk};
ghost use Rattle.std.specs.Borrow.{sem};
ghost use Rattle.seuss_program.specs.declared.state.Value.TheVariants.{Int};
ghost use Rattle.seuss_program.specs.declared.program.Program.{Program};
ghost use Rattle.method_code.specs.Codes.{compiled};
ghost use Rattle.method_code.specs.Plans.{AreMadeFrom};
ghost use Rattle.method_code.specs.Chains.{Next, last_of, beginning, calling, after_accepted};
ghost use Rattle.method_code.specs.Chains.{after_rejected};
ghost use Rattle.method_code.specs.Chains.{accepted, rejected, turned};
ghost use Rattle.method_code.specs.Answers.{Turns};
ghost use Rattle.method_code.specs.Lending.{LendsFrame};

use crate::code::Code;
use crate::entering::entry;
use crate::frame::{End, Frame, Turn};
use crate::plan::Plan;
use seuss_base::{List, Memory, PassEnd};
use seuss_program::{Program, Value};
use std::alloc::Global;
use std::mem;

/// A procedure that waits for a call that it made.
#[derive(Debug, Drop)]
pub struct Waiting {
    box_number: u32,
    frame: Frame,
    partial: bool,
}

/// One pass of an attempt, between its steps: the box and the frame of the next step, the procedures
/// that wait, the last one innermost, and whether a plain rejection came.
#[derive(Debug, Drop)]
pub struct Activation {
    box_number: u32,
    frame: Frame,
    waiting: List<Waiting>,
    plain: bool,
}

/// The frame in which a caller goes on after an accepted call.
fn accept(mut frame: Frame, found: Option<i64>) -> Result<Frame, Memory>
    ensures { IfOk result (λ after. after ≡ after_accepted frame found) }
{
    let Some(z) = found else {
        return Ok(frame);
    };
    frame.slots.push(Value::Int(z))?;
    frame.place = frame.place.saturating_sub(1);
    Ok(frame)
}

/// The frame in which a caller goes on after a rejected call.
fn reject(waiting: Waiting) -> Frame
    ensures { result ≡ after_rejected waiting }
{
    let Waiting {
        mut frame,
        partial,
        ..
    } = waiting;
    if partial {
        frame.place = 1;
    }
    frame
}

impl Activation {
    /// The pass of an action at its beginning. Actions are numbered from 0.
    pub fn begin(
        alloc: Global,
        code: &Code,
        program: &Program,
        action: u32,
    ) -> Result<Activation, Memory>
        requires { code.now ≡ compiled program.now }
        ensures { IfOk result (λ a. a ≡ beginning program.now action) }
    {
        let plan = Plan::of(alloc, program)?;
        Activation::begin_by(alloc, code, &plan, action)
    }

    /// The pass of an action at its beginning, by the plan of a program.
    pub fn begin_by(
        alloc: Global,
        code: &Code,
        plan: &Plan,
        action: u32,
    ) -> Result<Activation, Memory>
        ensures { (p : Program) → AreMadeFrom p code.now plan.now →
            IfOk result (λ a. a ≡ beginning p action) }
    {
        let info = plan.action(action);
        let method = plan.number_of(code, info.box_number, info.procedure);
        let frame = entry(alloc, code, method, List::new(alloc))?;
        Ok(Activation {
            box_number: info.box_number,
            frame,
            waiting: List::new(alloc),
            plain: false,
        })
    }

    /// The box of the next step.
    pub fn box_of(&self) -> u32
        ensures { result ≡ self.now.box_number }
    {
        self.box_number
    }

    /// The frame of the next step, and after the step the one that it left.
    pub fn frame(&mut self) -> &mut Frame
        ensures* writes_back { sem 𝓛 (LendsFrame self.entry result) }
        ensures value { result.now ≡ self.old.frame }
    {
        &mut self.frame
    }

    /// Goes on after a step on the frame that ended so: the next step, on the box that is answered, or
    /// the end of the pass.
    pub fn resume(
        &mut self,
        alloc: Global,
        code: &Code,
        program: &Program,
        end: End,
    ) -> Result<Turn, Memory>
        requires { code.now ≡ compiled program.now }
        ensures { Turns result (turned program.now self.old end) self.new }
    {
        let plan = Plan::of(alloc, program)?;
        self.resume_by(alloc, code, &plan, end)
    }

    /// Goes on after a step on the frame that ended so, by the plan of a program.
    pub fn resume_by(
        &mut self,
        alloc: Global,
        code: &Code,
        plan: &Plan,
        end: End,
    ) -> Result<Turn, Memory>
        ensures { (p : Program) → AreMadeFrom p code.now plan.now →
            Turns result (turned p self.old end) self.new }
    {
        match end {
            End::Call {
                target,
                method,
                args,
                partial,
            } => self.call(alloc, code, plan, target, method, args, partial),
            End::Returned(found) => self.go_on(found),
            End::RejectedPlain => {
                self.plain = true;
                Ok(self.go_back())
            }
            End::Rejected => Ok(self.go_back()),
            End::Trapped(trap) => Ok(Turn::Over(PassEnd::Trapped(trap))),
            End::Spent => Ok(Turn::Over(PassEnd::Spent)),
        }
    }

    /// Begins a call: the caller waits.
    fn call(
        &mut self,
        alloc: Global,
        code: &Code,
        plan: &Plan,
        given: u32,
        method: u32,
        args: List<Value>,
        partial: bool,
    ) -> Result<Turn, Memory>
        ensures { (p : Program) → AreMadeFrom p code.now plan.now →
            Turns result (Next (calling p self.old given method args partial)) self.new }
    {
        let box_number = plan.target(self.box_number, given);
        let number = plan.number_of(code, box_number, method);
        let callee = entry(alloc, code, number, args)?;
        let frame = mem::replace(&mut self.frame, callee);
        self.waiting.push(Waiting {
            box_number: self.box_number,
            frame,
            partial,
        })?;
        self.box_number = box_number;
        Ok(Turn::Next(box_number))
    }

    /// Goes on after an accepted call.
    fn go_on(&mut self, found: Option<i64>) -> Result<Turn, Memory>
        ensures { Turns result (accepted self.old found (last_of self.old.waiting)) self.new }
    {
        let Some(waiting) = self.waiting.pop() else {
            return Ok(Turn::Over(PassEnd::Accepted));
        };
        self.box_number = waiting.box_number;
        self.frame = accept(waiting.frame, found)?;
        Ok(Turn::Next(self.box_number))
    }

    /// Goes on after a rejected call.
    fn go_back(&mut self) -> Turn
        ensures { Turns (Ok result) (rejected self.old self.old.plain (last_of self.old.waiting)) self.new }
    {
        let Some(waiting) = self.waiting.pop() else {
            if self.plain {
                return Turn::Over(PassEnd::PlainRejected);
            }
            return Turn::Over(PassEnd::Rejected);
        };
        self.box_number = waiting.box_number;
        self.frame = reject(waiting);
        Turn::Next(self.box_number)
    }
}
