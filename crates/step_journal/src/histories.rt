//! Legal histories of a box: each step goes on from where the one before it led.

ghost use Rattle.std.specs.Prelude.{List, [], ◌∷◌, ◌++◌};
ghost use Rattle.step_journal.specs.Histories.{IsLegal};

/// What an entry records of a step that leads from one state to another.
pub trait Records<E, V> {
    /// A step from the first state is as the entry records it, and leaves the second.
    ghost does: { E → V → V → Type 0 };
}

/// A legal history with one step more is legal.
pub fn longer_is_legal<E, V, R: Records<E, V>>()
    ensures { (v u w : V) (es : List E) (e : E) → IsLegal R.does v es u → R.does e u w →
        IsLegal R.does v (es ++ e ∷ []) w }
{}

/// A beginning of a legal history is legal, and so is the rest, from where the beginning leads.
pub fn beginning_is_legal<E, V, R: Records<E, V>>()
    ensures { (v w : V) (es fs : List E) → IsLegal R.does v (es ++ fs) w →
        (u : V) × IsLegal R.does v es u × IsLegal R.does u fs w }
{}
