//! What each command does with the bytes that were read.

pub(crate) mod check;
pub(crate) mod matrix;
pub(crate) mod print;
pub(crate) mod prove;
pub(crate) mod run;
pub(crate) mod sim;
pub(crate) mod tight;
