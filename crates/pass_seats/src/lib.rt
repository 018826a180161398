//! What the workers of an engine hold: seats with their passes, desks with their cells, and the tables from which
//! an engine is made.
#![tactic(auto)]

mod blank;
mod desks;
mod item;
pub mod laws;
mod making;
mod names;
mod parts;
mod pass;
mod refusal;
mod seat;

pub use blank::{EngineBlank, FreshBox, FreshSched, SeatPlaces};
pub use desks::{BoxDesk, SchedDesk, desks_cross};
pub use item::Item;
pub use making::Workshop;
pub use names::EngineNames;
pub use parts::{PassParts, SeatParts};
pub use pass::{Done, Pass, Place, Progress, SeatPass};
pub use refusal::EngineRefusal;
pub use seat::{SeatCore, seats_cross};
