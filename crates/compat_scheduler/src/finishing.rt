//! What a finish does to the slots of a round.

ghost use Rattle.std.specs.Prelude.{◌≡◌, ◌&&◌, ◌||◌, not, ◌<◌, ◌^◌, ◌↔◌, IsTrue};
ghost use Rattle.std.specs.Prelude.{length, replicate, count_by};
ghost use Rattle.std.specs.List.{list_all};
ghost use Rattle.seuss_base.specs.declared.level.Level.TheVariants.{Loose};
ghost use Rattle.compat_scheduler.specs.declared.slot.Slot.TheVariants.{Pending};
ghost use Rattle.compat_scheduler.specs.Machines.{flag_of, is_running, RunsAs};
ghost use Rattle.compat_scheduler.specs.Finishes.{is_ended, slot_after, stops, verdict_on};

use crate::{FinishVerdict, Slot};
use seuss_base::{Level, PassEnd};

/// The verdict on a pass that ends so, by its flag.
pub fn judge(clean: bool, end: &PassEnd) -> FinishVerdict
    ensures { result ≡ verdict_on clean end.now }
{
    match (clean, end) {
        (false, PassEnd::PlainRejected) => FinishVerdict::Void,
        (_, _) => FinishVerdict::Kept,
    }
}

/// Whether a pass runs in this slot with its flag up.
pub fn flag(slot: &Slot) -> bool
    ensures { result ≡ flag_of slot.now }
{
    match slot {
        Slot::Running {
            pass: _,
            mode: _,
            clean,
        } => *clean,
        Slot::Pending(_) => false,
        Slot::Ended => false,
    }
}

/// Whether this pass runs in the slot, in this mode.
pub fn runs_as(slot: Slot, pass: u64, mode: Level) -> bool
    ensures { IsTrue result ↔ RunsAs slot pass mode }
{
    match slot {
        Slot::Running {
            pass: its_pass,
            mode: its_mode,
            clean: _,
        } => its_pass == pass && its_mode == mode,
        Slot::Pending(_) => false,
        Slot::Ended => false,
    }
}

/// What becomes of a slot whose pass has this verdict.
pub fn slot_to_follow(verdict: &FinishVerdict) -> Slot
    ensures { result ≡ slot_after verdict.now }
{
    match verdict {
        FinishVerdict::Void => Slot::Pending(Level::Firm),
        FinishVerdict::Kept => Slot::Ended,
    }
}

/// Whether the machine stands still after an end, which it may have done before.
pub fn stopped_after(stopped: bool, end: &PassEnd) -> bool
    ensures { result ≡ (stopped || stops end.now) }
{
    stopped || matches!(end, PassEnd::Trapped(_) | PassEnd::Spent)
}

/// Whether all attempts of the round have ended.
fn all_ended(slots: &[Slot]) -> bool
    ensures { result ≡ list_all is_ended slots.now }
{
    slots.iter().all(|slot| matches!(slot, Slot::Ended))
}

/// Whether the round is done: all its attempts have ended, and the machine hasn't stopped.
pub fn is_round_done(slots: &[Slot], stopped: bool) -> bool
    ensures { result ≡ (list_all is_ended slots.now && not stopped) }
{
    !stopped && all_ended(slots)
}

/// Lets a round begin: each slot is pending in mode loose.
pub fn begin_round(slots: &mut [Slot])
    ensures { slots.new ≡ replicate (length slots.old) (Pending Loose) }
{
    for slot in slots.iter_mut() {
        *slot = Slot::Pending(Level::Loose);
    }
}

/// How many passes run.
pub fn count_running(slots: &[Slot]) -> u32
    requires { length slots.now < 2 ^ 32 }
    ensures { result ≡ count_by is_running slots.now }
{
    slots
        .iter()
        .filter(|slot| matches!(
            slot,
            Slot::Running {
                pass: _,
                mode: _,
                clean: _
            }
        ))
        .count() as u32
}
