//! The levels of safety, which are the modes of passes too.

ghost use Rattle.std.specs.Prelude.{◌↔◌, IsTrue};
ghost use Rattle.seuss_base.specs.Levels.{IsAtLeast};

/// How far one action is safe beside another, in rising order. It is also the mode of a pass,
/// which is loose or firm.
#[derive(Clone, Copy, Debug, PartialEq, Eq)]
pub enum Level {
    Never,
    Loose,
    Firm,
}

impl Level {
    /// Whether this level is the other one or stands above it.
    pub fn is_at_least(self, other: Level) -> bool
        ensures { IsTrue result ↔ IsAtLeast self other }
    {
        match (self, other) {
            (_, Level::Never) => true,
            (Level::Never, _) => false,
            (_, Level::Loose) => true,
            (Level::Loose, Level::Firm) => false,
            (Level::Firm, Level::Firm) => true,
        }
    }
}
