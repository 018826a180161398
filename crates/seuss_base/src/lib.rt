//! Values, lists, levels and the outside: what every other crate stands on.
#![tactic(auto)]

mod boxed;
mod compat_rows;
mod gate;
mod ints;
mod level;
mod list;
mod memory;
mod memory_sink;
mod memory_source;
mod outcome;
mod sink;
mod source;
mod std_sink;
mod std_source;
mod text;

pub use boxed::Box;
pub use compat_rows::CompatRows;
pub use gate::{FreeGate, Gate};
pub use ints::Ints;
pub use level::Level;
pub use list::List;
pub use memory::Memory;
pub use memory_sink::MemorySink;
pub use memory_source::MemorySource;
pub use outcome::{Outcome, PassEnd, Trap};
pub use sink::Sink;
pub use source::{Failed, Source};
pub use std_sink::StdSink;
pub use std_source::StdSource;
pub use text::Text;

#[cfg(test)]
mod tests;
