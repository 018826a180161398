//! The budget of an attempt.

ghost use Rattle.tight_order.specs.Answers.{Pays};

use crate::frame::Frame;
use crate::stop::Stop;

/// Pays 1 of the budget.
pub fn pay(frame: &mut Frame) -> Result<(), Stop>
    ensures { Pays result frame.old frame.new }
{
    if frame.budget == 0 {
        return Err(Stop::Spent);
    }
    frame.budget -= 1;
    Ok(())
}
