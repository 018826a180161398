//! What a start does to the slots and their flags.

ghost use Rattle.std.specs.Prelude.{◌≡◌, ℕ, ◌<◌, ◌↔◌, IsTrue, length};
ghost use Rattle.compat_scheduler.specs.Settings.{beside, copies};
ghost use Rattle.compat_scheduler.specs.Machines.{slot_at};
ghost use Rattle.compat_scheduler.specs.Starts.{IsFirmBeside, IsFirmBesideAll, RunsFrom, lowered};

use crate::Slot;
use crate::setting::Setting;
use seuss_base::Level;

/// Whether a slot is firm-safe beside all that run.
fn is_firm_beside_all(setting: &Setting, slots: &[Slot], one: usize) -> bool
    requires many { length slots.now ≡ copies setting.now }
    requires within { one < copies setting.now }
    ensures { IsTrue result ↔ IsFirmBesideAll setting.now slots.now one }
{
    for other in 0..slots.len() {
        let firm = is_firm_beside(setting.beside(one, other), slots[other]);
        if !firm {
            return false;
        }
    }
    true
}

/// Whether this level lets a pass run beside a slot with its flag up.
fn is_firm_beside(level: Level, slot: Slot) -> bool
    ensures { IsTrue result ↔ IsFirmBeside level slot }
{
    match slot {
        Slot::Running {
            pass: _,
            mode: _,
            clean: _,
        } => level.is_at_least(Level::Firm),
        Slot::Pending(_) => true,
        Slot::Ended => true,
    }
}

/// A slot beside a newcomer, beside which it has this level.
fn slot_beside(level: Level, slot: Slot) -> Slot
    ensures { result ≡ lowered level slot }
{
    match (level, slot) {
        (Level::Firm, _) => slot,
        (
            _,
            Slot::Running {
                pass,
                mode,
                clean: _,
            },
        ) => Slot::Running {
            pass,
            mode,
            clean: false,
        },
        (_, _) => slot,
    }
}

/// Takes the flag from each pass that isn't firm-safe beside the newcomer.
fn lower_flags(setting: &Setting, slots: &mut [Slot], newcomer: usize)
    requires many { length slots.old ≡ copies setting.now }
    requires within { newcomer < copies setting.now }
    ensures { (j : ℕ) → slot_at slots.new j ≡ lowered (beside setting.now j newcomer) (slot_at slots.old j) }
{
    for other in 0..slots.len() {
        slots[other] = slot_beside(setting.beside(other, newcomer), slots[other]);
    }
}

/// Lets a slot run, beside all that run.
pub fn run_slot(setting: &Setting, slots: &mut [Slot], slot: usize, pass: u64, mode: Level)
    requires many { length slots.old ≡ copies setting.now }
    requires within { slot < copies setting.now }
    ensures { RunsFrom setting.now slots.old slot pass mode slots.new }
{
    let clean = is_firm_beside_all(setting, slots, slot);
    lower_flags(setting, slots, slot);
    slots[slot] = Slot::Running { pass, mode, clean };
}
