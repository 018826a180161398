//! The decision whether every attempt keeps a property.
#![tactic(auto)]

mod assigned;
mod bad;
mod choices;
mod ends;
mod frames;
mod judging;
mod names;
mod next_number;
mod regions;
mod rows;
mod seen;
mod sides;
mod spans;
mod starts;

pub use ends::ends_of;
pub use judging::judge;
pub use sides::{region_in, sides_in};
