//! What a scheduler is set up with.

ghost use Rattle.std.specs.Prelude.{◌≡◌, ◌==◌, if◌then◌else◌, ◌+◌, ◌*◌, ◌<◌, ◌≤◌, ◌%◌, ◌^◌, IfOk, length};
ghost use Rattle.std.specs.List.{range_with_len};
ghost use Rattle.compat_scheduler.specs.Settings.{action_of, beside, copies, one_slot_each};
ghost use Rattle.compat_scheduler.specs.Machines.{slot_of};

use crate::Ticket;
use seuss_base::{CompatRows, Level, Memory};
use std::alloc::Global;
use std::marker::Model;

/// What a scheduler is set up with: the levels, the action of each slot of a round, and the rounds.
#[derive(Drop)]
pub struct Setting {
    rows: CompatRows,
    actions: Vec<u32>,
    rounds: u32,
}

impl Model for Setting {
    ghost use Rattle.std.specs.Prelude.{◌*◌, ◌<◌, ◌≤◌, ◌^◌, All, length};
    ghost use Rattle.compat_scheduler.specs.Settings.{Setting as Set_up};

    ghost Value = { Set_up };

    ghost view = { λ s. record { levels = s.rows; actions = s.actions.items; rounds = s.rounds } };

    ghost invariant = { λ s. All (λ action. action < s.rows.count) s.actions.items
        × (s.rounds * length s.actions.items ≤ 10000000) × (length s.actions.items < 2 ^ 32) };
}

impl Setting {
    /// How many slots a round has.
    pub fn copies(&self) -> usize
        ensures value { result ≡ copies self.now }
        ensures fits { result < 2 ^ 32 }
        ensures few { self.now.rounds * copies self.now ≤ 10000000 }
    {
        self.actions.len()
    }

    pub fn rounds(&self) -> u32
        ensures { result ≡ self.now.rounds }
    {
        self.rounds
    }

    /// The round at the beginning. Without slots all rounds are done at once.
    pub fn first_round(&self) -> u32
        ensures { result ≡ (if copies self.now == 0 then self.now.rounds else 0) }
    {
        if self.copies() == 0 { self.rounds } else { 0 }
    }

    /// The action of a slot.
    pub fn action_of(&self, slot: usize) -> u32
        requires { slot < copies self.now }
        ensures { result ≡ action_of self.now slot }
    {
        self.actions[slot]
    }

    /// How far the action of one slot is safe beside that of another one.
    pub fn beside(&self, one: usize, other: usize) -> Level
        requires first { one < copies self.now }
        requires second { other < copies self.now }
        ensures { result ≡ beside self.now one other }
    {
        self.rows.level(self.actions[one], self.actions[other])
    }

    /// The number of the attempt of a slot in a round.
    pub fn attempt(&self, round: u32, slot: usize) -> u64
        requires round { round ≤ self.now.rounds }
        requires slot { slot < copies self.now }
        ensures value { result ≡ round * copies self.now + slot }
        ensures slot { result % copies self.now ≡ slot }
    {
        round as u64 * self.copies() as u64 + slot as u64
    }

    /// The slot of a ticket. There is at least one.
    pub fn slot_of(&self, ticket: &Ticket) -> usize
        requires { 0 < copies self.now }
        ensures value { result ≡ slot_of self.now ticket.now }
        ensures within { result < copies self.now }
    {
        (ticket.attempt % self.copies() as u64) as usize
    }
}

/// A setting in which each action has one slot. It takes all the memory that this needs.
pub fn one_for_each(
    alloc: Global,
    rows: CompatRows,
    actions: u32,
    rounds: u32,
) -> Result<Setting, Memory>
    requires counted { rows.count ≡ actions }
    requires few { rounds * actions ≤ 10000000 }
    ensures { IfOk result (λ setting. setting ≡ one_slot_each rows actions rounds) }
{
    let slots = numbers_below(alloc, actions)?;
    Ok(Setting {
        rows,
        actions: slots,
        rounds,
    })
}

/// The numbers from 0 up to before this one.
fn numbers_below(alloc: Global, count: u32) -> Result<Vec<u32>, Memory>
    ensures { IfOk result (λ numbers. numbers.items ≡ range_with_len 0 count) }
{
    let mut numbers = Vec::with_capacity(alloc, count as usize)?;
    for number in 0..count {
        numbers.push(number)?;
    }
    Ok(numbers)
}
