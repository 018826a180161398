//! What is known of the variables of a box and of the slots of a procedure.

use crate::Region;
use seuss_base::List;

/// A region for each variable and each slot. A name that has none here may have any value.
#[derive(Debug, Drop)]
pub struct Frame {
    pub vars: List<Region>,
    pub slots: List<Region>,
}
