//! The text of a record.

ghost use Rattle.std.specs.Prelude.{◌≡◌, IfOk};
ghost use Rattle.run_records.specs.RecordTexts.{record_text as text_of};

use crate::boxes::push_boxes;
use crate::head::push_head;
use crate::schedule::push_schedule;
use loose_records::Record;
use seuss_base::{Ints, Memory, Text};
use std::alloc::Global;

/// The text of the record of so many rounds, with this budget of each attempt and this input, byte for byte. Want of memory is
/// all that can be refused.
pub fn record_text(
    alloc: Global,
    input: &Ints,
    rounds: u32,
    budget: u64,
    made: &Record,
) -> Result<Text, Memory>
    ensures { IfOk result (λ text. text ≡ text_of rounds budget input.now made.now) }
{
    let mut text = Text::new(alloc);
    push_head(&mut text, rounds, budget, input)?;
    push_schedule(&mut text, made.sched.as_slice())?;
    push_boxes(&mut text, &made.boxes)?;
    text.push_all(b"end\n")?;
    Ok(text)
}
