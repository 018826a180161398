//! The scheduler's entries in a record's text.

ghost use Rattle.std.specs.Prelude.{◌≡◌, ◌++◌, OnOk};
ghost use Rattle.std.specs.List.{flat_map};
ghost use Rattle.run_records.specs.RecordTexts.{end_text, mode_text, sched_line, verdict_text};

use crate::head::push_behind;
use compat_scheduler::FinishVerdict;
use loose_records::SchedEntry;
use report_text::push_trap;
use seuss_base::{Level, Memory, PassEnd, Text};

/// The word of a mode.
fn mode_word(mode: Level) -> &'static [u8]
    ensures { result.now ≡ mode_text mode }
{
    match mode {
        Level::Never => b"never",
        Level::Loose => b"loose",
        Level::Firm => b"firm",
    }
}

/// The word of a verdict.
fn verdict_word(verdict: FinishVerdict) -> &'static [u8]
    ensures { result.now ≡ verdict_text verdict }
{
    match verdict {
        FinishVerdict::Kept => b"kept",
        FinishVerdict::Void => b"void",
    }
}

/// Puts how a pass ended at the end.
fn push_end(text: &mut Text, end: PassEnd) -> Result<(), Memory>
    ensures { OnOk result (text.new ≡ text.old ++ end_text end) }
{
    match end {
        PassEnd::Accepted => text.push_all(b"accepted"),
        PassEnd::PlainRejected => text.push_all(b"plain"),
        PassEnd::Rejected => text.push_all(b"rejected"),
        PassEnd::Spent => text.push_all(b"spent"),
        PassEnd::Trapped(trap) => {
            text.push_all(b"trapped ")?;
            push_trap(text, trap)
        }
    }
}

/// Puts the line of an entry at the end.
fn push_entry(text: &mut Text, entry: &SchedEntry) -> Result<(), Memory>
    ensures { OnOk result (text.new ≡ text.old ++ sched_line entry.now) }
{
    match entry {
        SchedEntry::Start { ticket, stamp } => {
            text.push_all(b"start")?;
            push_behind(text, ticket.attempt)?;
            text.push_all(b" ")?;
            text.push_all(mode_word(ticket.mode))?;
            push_behind(text, *stamp)?;
        }
        SchedEntry::Finish {
            ticket,
            end,
            verdict,
            stamp,
        } => {
            text.push_all(b"finish")?;
            push_behind(text, ticket.pass)?;
            text.push_all(b" ")?;
            push_end(text, *end)?;
            text.push_all(b" ")?;
            text.push_all(verdict_word(*verdict))?;
            push_behind(text, *stamp)?;
        }
    }
    text.push(b'\n')
}

/// Puts the lines of the scheduler's entries at the end.
pub(crate) fn push_schedule(text: &mut Text, entries: &[SchedEntry]) -> Result<(), Memory>
    ensures { OnOk result (text.new ≡ text.old ++ flat_map sched_line entries.now) }
{
    for entry in entries {
        push_entry(text, entry)?;
    }
    Ok(())
}
