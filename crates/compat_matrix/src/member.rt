//! A procedure of an action, with its effects.

use crate::Part;
use effect_sets::Effects;

/// A procedure among those of an action, with its effects.
#[derive(Drop)]
pub(crate) struct Member {
    pub(crate) box_number: u32,
    pub(crate) procedure: u32,
    pub(crate) part: Part,
    pub(crate) effects: Effects,
}
