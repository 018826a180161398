//! What variables and slots are in a case.

use seuss_base::List;
use shape_terms::Symbol;

/// What the variables of a box and the slots of a procedure are in a case.
#[derive(Debug, Drop)]
pub struct Places {
    pub vars: List<Symbol>,
    pub slots: List<Symbol>,
}
