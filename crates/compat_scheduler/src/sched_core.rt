//! The scheduler and its calls.

ghost use Rattle.std.specs.Prelude.{◌≡◌, ◌≢◌, ◌*◌, ◌≤◌, ◌↔◌, IsTrue, IfOk, IfSome, MatchOption};
ghost use Rattle.seuss_base.specs.declared.level.Level.{Level};
ghost use Rattle.compat_scheduler.specs.declared.slot.Slot.TheVariants.{Pending};
ghost use Rattle.compat_scheduler.specs.declared.ticket.Ticket.{Ticket};
ghost use Rattle.compat_scheduler.specs.Settings.{one_slot_each};
ghost use Rattle.compat_scheduler.specs.Machines.{beginning, slot_at, IsAllDone, IsRunning, running_count};
ghost use Rattle.compat_scheduler.specs.Bars.{IsPending, barring_count};
ghost use Rattle.compat_scheduler.specs.Starts.{IsNext, NoneStarts, Starts};
ghost use Rattle.compat_scheduler.specs.Finishes.{IsVerdict, Finishes};

use crate::counting::{BarCounts, count_newcomer, first_free, read_count, uncount_leaver};
use crate::finishing::{
    begin_round, count_running, flag, is_round_done, judge, runs_as, slot_to_follow, stopped_after,
};
use crate::scan::first_to_start;
use crate::setting::{Setting, one_for_each};
use crate::starting::run_slot;
use crate::{FinishVerdict, Slot, Ticket};
use seuss_base::{CompatRows, Level, Memory, PassEnd};
use std::alloc::Global;
use std::marker::Model;

/// The scheduler: which attempt starts, which pass is void, when a round and the run are over. For each
/// slot and mode it keeps how many of the slots that run bar it, and changes these counts at each start
/// and finish. So no call but the plain `next_by_scan` compares slots with slots.
#[derive(Drop)]
pub struct SchedCore {
    setting: Setting,
    round: u32,
    starts: u64,
    stopped: bool,
    slots: Vec<Slot>,
    counts: Vec<BarCounts>,
}

impl Model for SchedCore {
    ghost use Rattle.compat_scheduler.specs.Machines.{Scheduler};
    ghost use Rattle.compat_scheduler.specs.Soundness.{IsScheduler};
    ghost use Rattle.compat_scheduler.specs.Counts.{AreCounts};

    ghost Value = { Scheduler };

    ghost view = { λ c. record {
      setting = c.setting;
      machine = record
          { round = c.round; starts = c.starts; stopped = c.stopped; slots = c.slots.items };
    } };

    ghost invariant = { λ c. IsScheduler c.setting
        (record { round = c.round; starts = c.starts; stopped = c.stopped; slots = c.slots.items })
        × AreCounts c.setting c.slots.items c.counts.items };
}

impl SchedCore {
    /// A scheduler at its beginning, over the actions that the rows count and this many rounds. It
    /// takes all the memory that its calls need. Its cost is that of the slots.
    pub fn new(
        alloc: Global,
        rows: CompatRows,
        actions: u32,
        rounds: u32,
    ) -> Result<SchedCore, Memory>
        requires counted { rows.count ≡ actions }
        requires few { rounds * actions ≤ 10000000 }
        ensures setting { IfOk result (λ core. core.setting ≡ one_slot_each rows actions rounds) }
        ensures machine { IfOk result (λ core. core.machine ≡ beginning core.setting) }
    {
        let setting = one_for_each(alloc, rows, actions, rounds)?;
        let slots = vec![in alloc; Slot::Pending(Level::Loose); setting.copies()]?;
        let counts = vec![in alloc; BarCounts { loose: 0, firm: 0 }; setting.copies()]?;
        let round = setting.first_round();
        Ok(SchedCore {
            setting,
            round,
            starts: 0,
            stopped: false,
            slots,
            counts,
        })
    }

    /// The ticket that `start` would answer now. It goes over the slots once, and reads one count of each.
    pub fn next(&self) -> Option<Ticket>
        ensures { MatchOption result (NoneStarts self.now.setting self.now.machine)
            (IsNext self.now.setting self.now.machine) }
    {
        if self.stopped || self.round == self.setting.rounds() {
            return None;
        }
        let (slot, mode) = first_free(self.slots.as_slice(), self.counts.as_slice())?;
        Some(Ticket {
            pass: self.starts,
            attempt: self.setting.attempt(self.round, slot),
            action: self.setting.action_of(slot),
            mode,
        })
    }

    /// The same ticket without the counts, as a plain program beside `next`: it compares each slot that
    /// waits with each that runs, so its cost is the product of the slots and those that run.
    pub fn next_by_scan(&self) -> Option<Ticket>
        ensures { MatchOption result (NoneStarts self.now.setting self.now.machine)
            (IsNext self.now.setting self.now.machine) }
    {
        if self.stopped || self.round == self.setting.rounds() {
            return None;
        }
        let (slot, mode) = first_to_start(&self.setting, self.slots.as_slice())?;
        Some(Ticket {
            pass: self.starts,
            attempt: self.setting.attempt(self.round, slot),
            action: self.setting.action_of(slot),
            mode,
        })
    }

    /// The mode in which a slot is pending, if it is.
    pub fn pending_mode(&self, slot: u32) -> Option<Level>
        ensures { MatchOption result (¬ IsPending self.now.machine.slots slot)
            (λ mode. slot_at self.now.machine.slots slot ≡ Pending mode) }
    {
        let at = slot as usize;
        if at >= self.slots.len() {
            return None;
        }
        let Slot::Pending(mode) = self.slots[at] else {
            return None;
        };
        Some(mode)
    }

    /// Whether the ticket's pass runs. It reads one slot.
    pub fn is_running(&self, ticket: &Ticket) -> bool
        ensures { IsTrue result ↔ IsRunning self.now.setting self.now.machine ticket.now }
    {
        if self.setting.copies() == 0 || self.round == self.setting.rounds() {
            return false;
        }
        let slot = self.setting.slot_of(ticket);
        let attempt = self.setting.attempt(self.round, slot);
        let action = self.setting.action_of(slot);
        runs_as(self.slots[slot], ticket.pass, ticket.mode)
            && ticket.attempt == attempt
            && ticket.action == action
    }

    /// How many of the slots that run bar this one, which is pending: beside them it may not run in its
    /// mode. It reads one count. The slot of an action has the action's number, as `new` makes them.
    pub fn barred_by(&self, slot: u32) -> u32
        requires { IsPending self.now.machine.slots slot }
        ensures { (mode : Level) → slot_at self.now.machine.slots slot ≡ Pending mode →
            result ≡ barring_count self.now.setting self.now.machine.slots slot mode }
    {
        let at = slot as usize;
        match self.slots[at] {
            Slot::Pending(mode) => read_count(mode, self.counts[at]),
            Slot::Running {
                pass: _,
                mode: _,
                clean: _,
            } => 0,
            Slot::Ended => 0,
        }
    }

    /// Starts the first attempt of this round, by number, that may run beside all that run. None
    /// comes where no pass can start: the scheduler has stopped, all rounds are done, or each
    /// attempt that waits is barred by one that runs. It goes over the slots four times, one after
    /// another: for the choice, for its flag, for the flags of the others, and for the counts.
    pub fn start(&mut self) -> Option<Ticket>
        ensures setting { self.new.setting ≡ self.old.setting }
        ensures machine { MatchOption result
            (NoneStarts self.old.setting self.old.machine × (self.new.machine
            ≡ self.old.machine))
            (λ ticket. Starts self.old.setting self.old.machine ticket self.new.machine) }
        ensures running { IfSome result (IsRunning self.new.setting self.new.machine) }
        ensures others { (other : Ticket) → IsRunning self.old.setting self.old.machine other →
            IsRunning self.new.setting self.new.machine other }
    {
        let ticket = self.next()?;
        let slot = self.setting.slot_of(&ticket);
        run_slot(
            &self.setting,
            self.slots.as_mut_slice(),
            slot,
            ticket.pass,
            ticket.mode,
        );
        count_newcomer(&self.setting, self.counts.as_mut_slice(), slot, ticket.mode);
        self.starts += 1;
        Some(ticket)
    }

    /// The verdict that `finish` would answer now. It reads one slot.
    pub fn verdict(&self, ticket: &Ticket, end: &PassEnd) -> FinishVerdict
        requires { IsRunning self.now.setting self.now.machine ticket.now }
        ensures { IsVerdict self.now.setting self.now.machine ticket.now end.now result }
    {
        let slot = self.setting.slot_of(ticket);
        let clean = flag(&self.slots[slot]);
        judge(clean, end)
    }

    /// Ends a pass that runs. Where it is void its attempt is tried again in mode firm. It goes over the
    /// slots for the counts and for the end of the round, and once more where a round begins.
    pub fn finish(&mut self, ticket: Ticket, end: PassEnd) -> FinishVerdict
        requires { IsRunning self.old.setting self.old.machine ticket }
        ensures setting { self.new.setting ≡ self.old.setting }
        ensures machine { Finishes self.old.setting self.old.machine ticket end result self.new.machine }
        ensures others { (other : Ticket) → IsRunning self.old.setting self.old.machine other →
            other.pass ≢ ticket.pass → IsRunning self.new.setting self.new.machine other }
    {
        let verdict = self.verdict(&ticket, &end);
        let slot = self.setting.slot_of(&ticket);
        uncount_leaver(&self.setting, self.counts.as_mut_slice(), slot, ticket.mode);
        self.slots[slot] = slot_to_follow(&verdict);
        self.stopped = stopped_after(self.stopped, &end);
        let done = is_round_done(self.slots.as_slice(), self.stopped);
        if done {
            self.round += 1;
            begin_round(self.slots.as_mut_slice());
        }
        verdict
    }

    /// Whether no round is left. It looks at no slot.
    pub fn all_done(&self) -> bool
        ensures { IsTrue result ↔ IsAllDone self.now.setting self.now.machine }
    {
        self.round == self.setting.rounds()
    }

    /// Whether a trapped or spent end has stopped the scheduler.
    pub fn stopped(&self) -> bool
        ensures { result ≡ self.now.machine.stopped }
    {
        self.stopped
    }

    /// How many passes run. It goes over the slots once.
    pub fn running(&self) -> u32
        ensures { result ≡ running_count self.now.machine }
    {
        count_running(self.slots.as_slice())
    }
}
