//! Shares: how many entries of a journal are their maker's.

ghost use Rattle.std.specs.Prelude.{◌≡◌};

use std::marker::Model;

/// How many entries of a journal are its maker's.
#[derive(Debug, Drop)]
pub struct Share {
    pub(crate) maker: u64,
    pub(crate) count: u64,
}

impl Model for Share {
    ghost use Rattle.step_journal.specs.Journals.{ShareState, share_code};

    ghost Value = { ShareState };

    ghost coded = { share_code };

    ghost view = { λ s. record { maker = s.maker; count = s.count } };
}

impl Share {
    /// How many entries its maker has made.
    pub fn count(&self) -> u64
        ensures { result ≡ self.now.count }
    {
        self.count
    }
}
