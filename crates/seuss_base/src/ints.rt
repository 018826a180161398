//! Sequences of numbers that grow and shrink at their ends.

ghost use Rattle.std.specs.Prelude.{◌≡◌, ◌^◌, ◌<◌, [], ◌∷◌, ◌++◌, length, slice_get, OnOk, OnErr, IfOk};
ghost use Rattle.std.specs.Prelude.{MatchOption};

use crate::Memory;
use std::alloc::Global;
use std::collections::VecDeque;
use std::marker::Model;

/// A sequence of signed 64-bit numbers that grows and shrinks at its ends, which contracts see as
/// the list of its numbers.
#[derive(Debug, Drop)]
pub struct Ints {
    items: VecDeque<i64>,
}

impl Model for Ints {
    ghost use Rattle.std.specs.Prelude.{List, ℤ};

    ghost Value = { List ℤ };

    ghost view = { λ ints. ints.items.items };
}

impl Ints {
    /// The empty sequence. It takes no memory.
    pub fn new(alloc: Global) -> Ints
        ensures { result ≡ [] }
    {
        Ints {
            items: VecDeque::new(alloc),
        }
    }

    /// How many numbers there are.
    pub fn len(&self) -> u64
        ensures value { result ≡ length self.now }
        ensures few { result < 2 ^ 63 }
    {
        self.items.len() as u64
    }

    /// The number at a place, counted from 0, or None at a place that isn't below the length.
    pub fn get(&self, at: u64) -> Option<i64>
        ensures { result ≡ slice_get self.now at }
    {
        self.items.get(at as usize).copied()
    }

    /// Puts a number at the end. Where memory is refused, the sequence stays as it was.
    pub fn push(&mut self, x: i64) -> Result<(), Memory>
        ensures ok { OnOk result (self.new ≡ self.old ++ x ∷ []) }
        ensures err { OnErr result (self.new ≡ self.old) }
    {
        self.items.push_back(x)?;
        Ok(())
    }

    /// Takes the first number off. None comes exactly on an empty sequence.
    pub fn remove_first(&mut self) -> Option<i64>
        ensures { MatchOption result ((self.old ≡ []) × (self.new ≡ []))
            (λ first. self.old ≡ first ∷ self.new) }
    {
        self.items.pop_front()
    }

    /// Takes the last number off. None comes exactly on an empty sequence.
    pub fn remove_last(&mut self) -> Option<i64>
        ensures { MatchOption result ((self.old ≡ []) × (self.new ≡ []))
            (λ last. self.old ≡ self.new ++ last ∷ []) }
    {
        self.items.pop_back()
    }

    /// An equal sequence of its own.
    pub fn copy(&self, alloc: Global) -> Result<Ints, Memory>
        ensures { IfOk result (λ ints. ints ≡ self.now) }
    {
        let (front, back) = self.items.as_slices();
        let mut copied = Vec::from_slice(alloc, front)?;
        copied.extend_from_slice(back)?;
        Ok(Ints {
            items: VecDeque::from_vec(copied),
        })
    }
}
