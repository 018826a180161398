//! Properties of a program's boxes, as they are written.
#![tactic(auto)]

mod cats;
pub mod laws;
mod lists;
mod reading;
mod refusal;
mod shapes;
mod texts;

pub use reading::properties;
pub use refusal::PropertyRefusal;
pub use texts::PropertyText;
