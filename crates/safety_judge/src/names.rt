//! Names, and whether they are among others.

ghost use Rattle.std.specs.Prelude.{◌≡◌};
ghost use Rattle.safety_check.specs.Regions as meant;
ghost use Rattle.safety_check.specs.Safety as answers;

use seuss_program::Ref;

/// Whether two names are of the same variable or of the same slot.
pub(crate) fn is_name(a: Ref, b: Ref) -> bool
    ensures { result ≡ meant.is_name a b }
{
    match (a, b) {
        (Ref::Var(n), Ref::Var(m)) => n == m,
        (Ref::Slot(n), Ref::Slot(m)) => n == m,
        _ => false,
    }
}

/// Whether a name is among others.
pub(crate) fn is_among(name: Ref, names: &[Ref]) -> bool
    ensures { result ≡ meant.is_among name names.now }
{
    for other in names {
        if is_name(*other, name) {
            return true;
        }
    }
    false
}

/// Whether one of some names is among others.
pub(crate) fn is_any_among(some: &[Ref], names: &[Ref]) -> bool
    ensures { result ≡ answers.is_any_among some.now names.now }
{
    for name in some {
        if is_among(*name, names) {
            return true;
        }
    }
    false
}
