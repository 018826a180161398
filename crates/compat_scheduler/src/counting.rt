//! How many slots that run bar each slot: the counts, and what a start and a finish do to them.

ghost use Rattle.std.specs.Prelude.{◌≡◌, ℕ, ◌<◌, length, MatchOption};
ghost use Rattle.compat_scheduler.specs.Settings.{copies};
ghost use Rattle.compat_scheduler.specs.Machines.{slot_at};
ghost use Rattle.compat_scheduler.specs.Counts.{conflict, count_in, counts_at, counts_with};
ghost use Rattle.compat_scheduler.specs.Counts.{DoCount, HasRoom, IsFirstFree, IsFree};

use crate::Slot;
use crate::setting::Setting;
use seuss_base::Level;

/// How many of the slots that run bar one slot, in each mode.
#[derive(Clone, Copy)]
pub struct BarCounts {
    pub loose: u32,
    pub firm: u32,
}

/// The count in a mode.
pub fn read_count(mode: Level, counts: BarCounts) -> u32
    ensures { result ≡ count_in mode counts }
{
    match mode {
        Level::Never => 0,
        Level::Loose => counts.loose,
        Level::Firm => counts.firm,
    }
}

/// 1 where one slot in a mode may not run beside another one in its mode, and else 0.
fn count_conflict(setting: &Setting, one: usize, mode: Level, other: usize, theirs: Level) -> u32
    requires first { one < copies setting.now }
    requires second { other < copies setting.now }
    ensures { result ≡ conflict setting.now one mode other theirs }
{
    let mine = setting.beside(one, other).is_at_least(mode);
    let its = setting.beside(other, one).is_at_least(theirs);
    if mine && its { 0 } else { 1 }
}

/// The counts of one slot where another one runs too.
fn counts_more(
    setting: &Setting,
    one: usize,
    other: usize,
    mode: Level,
    counts: BarCounts,
) -> BarCounts
    requires first { one < copies setting.now }
    requires second { other < copies setting.now }
    requires room { HasRoom counts }
    ensures { result ≡ counts_with setting.now one other mode counts }
{
    BarCounts {
        loose: counts.loose + count_conflict(setting, one, Level::Loose, other, mode),
        firm: counts.firm + count_conflict(setting, one, Level::Firm, other, mode),
    }
}

/// The counts of one slot where another one doesn't run any more.
fn counts_less(
    setting: &Setting,
    one: usize,
    other: usize,
    mode: Level,
    counts: BarCounts,
) -> BarCounts
    requires first { one < copies setting.now }
    requires second { other < copies setting.now }
    requires counted { DoCount setting.now one other mode counts }
    ensures { counts_with setting.now one other mode result ≡ counts }
{
    BarCounts {
        loose: counts.loose - count_conflict(setting, one, Level::Loose, other, mode),
        firm: counts.firm - count_conflict(setting, one, Level::Firm, other, mode),
    }
}

/// Counts a newcomer, which runs in this mode, at each slot.
pub fn count_newcomer(setting: &Setting, counts: &mut [BarCounts], newcomer: usize, mode: Level)
    requires many { length counts.old ≡ copies setting.now }
    requires within { newcomer < copies setting.now }
    requires room { (i : ℕ) → i < copies setting.now → HasRoom (counts_at counts.old i) }
    ensures { (i : ℕ) → i < copies setting.now →
        counts_at counts.new i ≡ counts_with setting.now i newcomer mode (counts_at counts.old i) }
{
    for one in 0..counts.len() {
        counts[one] = counts_more(setting, one, newcomer, mode, counts[one]);
    }
}

/// Takes a slot that ran in this mode out of the counts of each slot.
pub fn uncount_leaver(setting: &Setting, counts: &mut [BarCounts], leaver: usize, mode: Level)
    requires many { length counts.old ≡ copies setting.now }
    requires within { leaver < copies setting.now }
    requires counted { (i : ℕ) → i < copies setting.now →
        DoCount setting.now i leaver mode (counts_at counts.old i) }
    ensures { (i : ℕ) → i < copies setting.now →
        counts_with setting.now i leaver mode (counts_at counts.new i) ≡ counts_at counts.old i }
{
    for one in 0..counts.len() {
        counts[one] = counts_less(setting, one, leaver, mode, counts[one]);
    }
}

/// The mode in which a slot may start, by its counts, if it may.
fn free_mode(slot: Slot, counts: BarCounts) -> Option<Level>
    ensures { MatchOption result ((x : Level) → ¬ IsFree slot counts x) (IsFree slot counts) }
{
    let Slot::Pending(mode) = slot else {
        return None;
    };
    if read_count(mode, counts) == 0 {
        Some(mode)
    } else {
        None
    }
}

/// The first slot by number that may start, by the counts, with its mode.
pub fn first_free(slots: &[Slot], counts: &[BarCounts]) -> Option<(usize, Level)>
    requires { length counts.now ≡ length slots.now }
    ensures { MatchOption result ((i : ℕ) (x : Level) →
        ¬ IsFree (slot_at slots.now i) (counts_at counts.now i) x)
        (λ found. IsFirstFree slots.now counts.now found.0 found.1) }
{
    for one in 0..slots.len() {
        if let Some(mode) = free_mode(slots[one], counts[one]) {
            return Some((one, mode));
        }
    }
    None
}
