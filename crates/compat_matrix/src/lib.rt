//! How far one action is safe beside another one.
#![tactic(auto)]

mod certificate;
mod deciding;
pub mod laws;
mod least;
mod levels;
mod member;
mod members;
mod part;
mod refusal;
mod rule;

pub use certificate::Certificate;
pub use deciding::{certificates, matrix};
pub use levels::matrix_of;
pub use part::Part;
pub use refusal::MatrixRefusal;
