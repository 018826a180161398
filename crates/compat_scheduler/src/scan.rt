//! What may start now, by a scan: each slot that waits is compared with each that runs. It is the plain
//! program beside the counts.

ghost use Rattle.std.specs.Prelude.{◌≡◌, ℕ, ◌<◌, ◌↔◌, IsTrue, length, MatchOption};
ghost use Rattle.compat_scheduler.specs.Settings.{copies};
ghost use Rattle.compat_scheduler.specs.Machines.{slot_at};
ghost use Rattle.compat_scheduler.specs.Starts.{IsAllowedBeside, MayStart, IsFirst};

use crate::Slot;
use crate::setting::Setting;
use seuss_base::Level;

/// Whether one slot in this mode may run beside another one.
fn is_allowed_beside(setting: &Setting, one: usize, mode: Level, other: usize, slot: Slot) -> bool
    requires first { one < copies setting.now }
    requires second { other < copies setting.now }
    ensures { IsTrue result ↔ IsAllowedBeside setting.now one mode other slot }
{
    match slot {
        Slot::Running {
            pass: _,
            mode: theirs,
            clean: _,
        } => {
            setting.beside(one, other).is_at_least(mode)
                && setting.beside(other, one).is_at_least(theirs)
        }
        Slot::Pending(_) => true,
        Slot::Ended => true,
    }
}

/// Whether a slot may run in this mode beside all that run.
fn is_allowed(setting: &Setting, slots: &[Slot], one: usize, mode: Level) -> bool
    requires many { length slots.now ≡ copies setting.now }
    requires within { one < copies setting.now }
    ensures { IsTrue result ↔ ((j : ℕ) → IsAllowedBeside setting.now one mode j (slot_at slots.now j)) }
{
    for other in 0..slots.len() {
        let allowed = is_allowed_beside(setting, one, mode, other, slots[other]);
        if !allowed {
            return false;
        }
    }
    true
}

/// The mode in which a slot may start now, if it may.
fn mode_to_start(setting: &Setting, slots: &[Slot], one: usize) -> Option<Level>
    requires many { length slots.now ≡ copies setting.now }
    requires within { one < copies setting.now }
    ensures { MatchOption result ((x : Level) →
        ¬ MayStart setting.now slots.now one x) (MayStart setting.now slots.now one) }
{
    let Slot::Pending(mode) = slots[one] else {
        return None;
    };
    let allowed = is_allowed(setting, slots, one, mode);
    if allowed { Some(mode) } else { None }
}

/// The first slot by number that may start now, with its mode.
pub fn first_to_start(setting: &Setting, slots: &[Slot]) -> Option<(usize, Level)>
    requires { length slots.now ≡ copies setting.now }
    ensures { MatchOption result ((i : ℕ) (x : Level) →
        ¬ MayStart setting.now slots.now i x)
        (λ found. IsFirst setting.now slots.now found.0 found.1) }
{
    for one in 0..slots.len() {
        if let Some(mode) = mode_to_start(setting, slots, one) {
            return Some((one, mode));
        }
    }
    None
}
