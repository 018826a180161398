//! What goes to other threads, and what is shared with them. The check finds it; nothing here runs.

use crate::activation::Activation;
use crate::code::Code;
use crate::frame::{End, Frame};
use crate::plan::Plan;

/// Asks that values of a type may go to another thread.
fn needs_send<T: Send>() {}

/// Asks that values of a type may be read by several threads at once.
fn needs_sync<T: Sync>() {}

/// Passes, frames and ends may go to other threads, and code may be shared with them.
pub fn crosses() {
    needs_send::<Activation>();
    needs_send::<Frame>();
    needs_send::<End>();
    needs_sync::<Code>();
}

/// A plan may go to other threads, and may be shared with them.
pub fn plan_crosses() {
    needs_send::<Plan>();
    needs_sync::<Plan>();
}
