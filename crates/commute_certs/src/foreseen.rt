//! What a single method comes to in a case.

use seuss_base::List;
use shape_terms::{NumForm, Symbol};

/// How a single method ends in a case.
#[derive(Debug, Drop)]
pub enum Ending {
    /// With its result, where it has one.
    Accepted(Option<NumForm>),
    /// With the effects of a body.
    Rejected,
    /// No precondition holds, so nothing is changed.
    RejectedPlainly,
}

/// What a single method comes to in a case: how it ends, and what it leaves of the variables.
#[derive(Debug, Drop)]
pub struct Foreseen {
    pub ending: Ending,
    pub vars: List<Symbol>,
}
