//! The entries of boxes in a record's text.

ghost use Rattle.std.specs.Prelude.{◌≡◌, ◌<◌, ◌++◌, Some, OnOk, length, slice_get};
ghost use Rattle.std.specs.List.{flat_map};
ghost use Rattle.run_records.specs.RecordTexts.{box_lines, boxes_text, step_line};

use crate::head::push_behind;
use loose_records::BoxEntry;
use seuss_base::{List, Memory, Text};

/// Puts the line of an entry at the end.
fn push_step(text: &mut Text, entry: &BoxEntry) -> Result<(), Memory>
    ensures { OnOk result (text.new ≡ text.old ++ step_line entry.now) }
{
    text.push_all(b"step")?;
    push_behind(text, entry.pass)?;
    push_behind(text, entry.stamp)?;
    text.push(b'\n')
}

/// Puts the lines of entries at the end.
fn push_steps(text: &mut Text, entries: &[BoxEntry]) -> Result<(), Memory>
    ensures { OnOk result (text.new ≡ text.old ++ flat_map step_line entries.now) }
{
    for entry in entries {
        push_step(text, entry)?;
    }
    Ok(())
}

/// Puts the number of a box and the lines of its entries at the end.
fn push_box(text: &mut Text, number: u64, entries: &List<BoxEntry>) -> Result<(), Memory>
    ensures { OnOk result (text.new ≡ text.old ++ box_lines number entries.now) }
{
    text.push_all(b"box")?;
    push_behind(text, number)?;
    text.push(b'\n')?;
    push_steps(text, entries.as_slice())
}

/// The entries of the box with this number.
fn entries_of(boxes: &List<List<BoxEntry>>, number: u64) -> &List<BoxEntry>
    requires { number < length boxes.now }
    ensures { slice_get boxes.now number ≡ Some result.now }
{
    boxes.get(number).unwrap()
}

/// Puts the lines of all boxes at the end.
pub(crate) fn push_boxes(text: &mut Text, boxes: &List<List<BoxEntry>>) -> Result<(), Memory>
    ensures { OnOk result (text.new ≡ text.old ++ boxes_text 0 boxes.now) }
{
    for number in 0..boxes.len() {
        push_box(text, number, entries_of(boxes, number))?;
    }
    Ok(())
}
