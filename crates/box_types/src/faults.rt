//! A place that fails.
ghost use Rattle.std.specs.Prelude.{◌≡◌};
ghost use Rattle.box_types.specs.Answers.{Stops};
ghost use Rattle.box_types.specs.Twice.{fails};

use crate::checking::Stop;

/// Stops at a place that fails, by its line.
pub(crate) fn refuse(failed: bool, line: u32) -> Result<(), Stop>
    ensures { Stops result (fails failed line) }
{
    if failed {
        return Err(Stop::Line(line));
    }
    Ok(())
}
