//! What is answered: a status and a text.

ghost use Rattle.std.specs.Prelude.{◌≡◌, IfOk};
ghost use Rattle.report_text.specs.Refusals.{refusal};

use report_text::{Refused, refusal_text};
use seuss_base::{Memory, Text};
use std::alloc::Global;

/// A status below 5, and the whole text that is written with it.
#[derive(Debug, Drop)]
pub(crate) struct Answer {
    pub status: u8,
    pub text: Text,
}

/// The answer to what is refused: status 3, and a line.
pub(crate) fn refused(alloc: Global, reason: Refused) -> Result<Answer, Memory>
    ensures status { IfOk result (λ a. a.status ≡ 3) }
    ensures text { IfOk result (λ a. a.text ≡ refusal reason) }
{
    Ok(Answer {
        status: 3,
        text: refusal_text(alloc, &reason)?,
    })
}
