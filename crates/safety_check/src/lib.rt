//! Properties of the boxes of a cat, and when every attempt keeps them.
#![tactic(auto)]

mod frame;
pub mod laws;
mod property;
mod region;
mod safety;
mod seen;
mod sides;
mod span;

pub use frame::Frame;
pub use property::Property;
pub use region::Region;
pub use safety::Safety;
pub use seen::{Cut, Look, Seen};
pub use sides::Sides;
pub use span::Span;
