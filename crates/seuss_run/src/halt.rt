//! Why bytes ask for nothing that can be done.

ghost use Rattle.std.specs.Prelude.{◌≡◌};
ghost use Rattle.seuss_run.specs.declared.halt.Halt.TheVariants.{Memory as Wanting};

use report_text::Refused;
use seuss_base::Memory;

/// Why bytes ask for nothing that can be done.
#[derive(Clone, Copy, Debug, PartialEq, Eq)]
pub(crate) enum Halt {
    Refused(Refused),
    Memory,
}

impl From<Memory> for Halt {
    ghost from_gives = { λ _ e. e ≡ Wanting };

    fn from(_refused: Memory) -> Halt {
        Halt::Memory
    }
}
