//! The clocks of boxes and of the scheduler, by their journals.

ghost use Rattle.std.specs.Prelude.{◌≡◌, ◌+◌, ◌<◌, ◌^◌, max, map};
ghost use Rattle.loose_records.specs.declared.record.BoxEntry.{BoxEntry as EntryOf};
ghost use Rattle.loose_records.specs.Entries.{AreRising, stamp_of};
ghost use Rattle.loose_records.specs.Turns.{clock_of};

use loose_records::{BoxEntry, SchedEntry};

/// The stamp of the next event, by the clocks of its pass and of its object.
pub fn next_stamp(pass: u64, object: u64) -> u64
    requires { 1 + max pass object < 2 ^ 63 }
    ensures { result ≡ 1 + max pass object }
{
    1 + pass.max(object)
}

/// The clock of a box: the last stamp of its journal.
pub fn box_clock(entries: &[BoxEntry]) -> u64
    requires { AreRising (map (λ (e : EntryOf). e.stamp) entries.now) }
    ensures { result ≡ clock_of (map (λ (e : EntryOf). e.stamp) entries.now) }
{
    match entries.last() {
        Some(entry) => entry.stamp,
        None => 0,
    }
}

/// The clock of the scheduler: the last stamp of its journal.
pub fn sched_clock(entries: &[SchedEntry]) -> u64
    requires { AreRising (map stamp_of entries.now) }
    ensures { result ≡ clock_of (map stamp_of entries.now) }
{
    match entries.last() {
        Some(entry) => stamp(entry),
        None => 0,
    }
}

/// When an entry of the scheduler happened.
fn stamp(entry: &SchedEntry) -> u64
    ensures { result ≡ stamp_of entry.now }
{
    match entry {
        SchedEntry::Start { ticket: _, stamp } => *stamp,
        SchedEntry::Finish {
            ticket: _,
            end: _,
            verdict: _,
            stamp,
        } => *stamp,
    }
}
