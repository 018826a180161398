//! Cases of a certificate.

use crate::symbol::Symbol;
use seuss_base::List;

/// A case of a certificate: what each variable of the cat, and each parameter of its first and of its second
/// method, is.
#[derive(Debug, Drop)]
pub struct Case {
    pub vars: List<Symbol>,
    pub first: List<Symbol>,
    pub second: List<Symbol>,
}
