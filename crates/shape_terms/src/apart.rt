//! Points at which two forms differ.

ghost use Rattle.std.specs.Prelude.{◌≡◌};
ghost use Rattle.shape_terms.specs.Points.{point_of};

/// Where two forms differ: all atoms are 0, all unknown rests are empty and all bools that aren't told are
/// false, but for what is named.
#[derive(Clone, Copy, Debug, PartialEq, Eq)]
pub enum Apart {
    /// Nothing is named.
    Zero,
    /// This atom is 1.
    Atom(u64),
    /// This rest has this number alone.
    Rest(u64, i64),
    /// This bool is true.
    Truth(u32),
}

impl Apart {
    /// What a bool that isn't told is there.
    pub(crate) fn truth(&self, place: u32) -> bool
        ensures { result ≡ (point_of self.now).truths place }
    {
        match self {
            Apart::Truth(true_place) => place == *true_place,
            Apart::Zero => false,
            Apart::Atom(_) => false,
            Apart::Rest(_, _) => false,
        }
    }
}
