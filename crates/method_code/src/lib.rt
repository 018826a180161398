//! Compiled code: each procedure as instructions, run by method steps, each of which touches one box.
#![tactic(auto)]

mod acting;
mod activation;
mod code;
mod compiling;
mod copies;
mod crossing;
mod emitting;
mod entering;
mod frame;
mod instruction;
pub mod laws;
mod method;
mod numbering;
mod passing;
mod plan;
mod stepping;
mod values;

pub use activation::{Activation, Waiting};
pub use code::Code;
pub use compiling::compile;
pub use crossing::{crosses, plan_crosses};
pub use entering::entry;
pub use frame::{End, Frame, Turn};
pub use instruction::{CallCode, Instruction, Move};
pub use method::{Entry, Head, Method};
pub use numbering::number_of;
pub use passing::{attempt_by_plan, attempt_by_steps};
pub use plan::Plan;
pub use stepping::step;
