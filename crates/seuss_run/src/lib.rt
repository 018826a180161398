//! The command line as functions over words, a source and a sink.
#![tactic(auto)]

mod actions;
mod answer;
mod claims;
mod commands;
mod ends;
mod halt;
mod laws;
mod loading;
mod performing;
mod preparing;
mod property_lines;
mod reading;
mod split;
mod top;
mod words;
mod writing;

pub use laws::{one_verdict, text_tells_order};
pub use reading::{MOST_BYTES, PIECE, ReadRefusal, read_all};
pub use top::{seuss, seuss_still};
pub use words::{Command, read_words};
pub use writing::write_all;
