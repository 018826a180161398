//! What is told of a procedure: three sets of variables and three flags.

/// What a procedure does with the variables of its cat, and of what it consists. In a set the bit of
/// value 2^v says that variable v, from 0 in the order of the text, is in it.
#[derive(Clone, Copy, Debug, PartialEq, Eq)]
pub struct Effects {
    /// The variables in the preconditions and in the arguments of the preprocedures.
    pub tests: u32,
    /// The variables in any of the expressions.
    pub reads: u32,
    /// The variables that are assigned, also from the result of a call.
    pub writes: u32,
    /// Whether some alternative has a preprocedure.
    pub has_early: bool,
    /// Whether some alternative has a preprocedure, or some body has a call.
    pub has_late: bool,
    /// Whether there is no preprocedure, no call and no loop.
    pub single: bool,
}
