//! A source in memory, for tests: it hands out pieces, and fails at chosen calls.

ghost use Rattle.std.specs.Prelude.{◌≡◌, ◌<◌, ◌≤◌};
ghost use Rattle.seuss_base.specs.Sources.{Stock, Supplies};

use crate::{Failed, List, Source};
use std::marker::Model;

/// Bytes in memory, handed out in pieces. It tells what is left.
#[derive(Debug, Drop)]
pub struct MemorySource {
    bytes: List<u8>,
    /// How many of the bytes were taken.
    taken: usize,
    /// How many bytes a call takes at the most.
    piece: usize,
    /// The numbers of the calls that fail, from 1.
    failing: List<u64>,
    /// How many calls were made.
    calls: u64,
    /// How many calls have failed.
    faults: u64,
}

impl Model for MemorySource {
    ghost use Rattle.std.specs.Prelude.{◌≤◌, ◌<◌, ◌^◌, length, drop};
    ghost use Rattle.seuss_base.specs.Sources.{Stock};

    ghost Value = { Stock };

    ghost view = { λ s. record {
      left = drop s.taken s.bytes;
      piece = s.piece;
      failing = s.failing;
      calls = s.calls;
      faults =
          s.faults;
    } };

    ghost invariant = { λ s. (s.taken ≤ length s.bytes) × (1 ≤ s.piece) };
}

impl MemorySource {
    /// A source of these bytes. Each call takes at most `piece` of them, and the calls whose
    /// numbers, from 1, stand in `failing` fail.
    pub fn new(bytes: List<u8>, piece: usize, failing: List<u64>) -> MemorySource
        requires { 1 ≤ piece }
        ensures left { result.left ≡ bytes }
        ensures piece { result.piece ≡ piece }
        ensures failing { result.failing ≡ failing }
        ensures calls { result.calls ≡ 0 }
        ensures faults { result.faults ≡ 0 }
    {
        MemorySource {
            bytes,
            taken: 0,
            piece,
            failing,
            calls: 0,
            faults: 0,
        }
    }
}

impl Source for MemorySource {
    ghost use Rattle.std.specs.Prelude.{◌≡◌, ◌<◌, ◌≤◌, ◌^◌, [], length, IfOk, IfSome, OnErr, Some};
    ghost use Rattle.seuss_base.specs.Faults.{Rose};
    ghost use Rattle.seuss_base.specs.Sources.{Moves, Supplies};

    ghost left = { λ s. Some s.left };

    ghost faults = { λ s. s.faults };

    fn read(&mut self, into: &mut [u8]) -> Result<usize, Failed>
        requires { 0 < length into.old }
        ensures exact { Supplies self.old self.new (length into.old) result }
        ensures within { IfOk result (λ n. n ≤ length into.old) }
        ensures moved { IfOk result (λ n. Moves self.old.left n into.new (Some self.new.left)) }
        ensures end { IfOk result (λ n. n ≡ 0 → self.old.left ≡ []) }
        ensures failed { OnErr result (Rose self.old.faults self.new.faults) }
        ensures kept { OnErr result (self.new.left ≡ self.old.left) }
        ensures counted { self.old.faults ≤ self.new.faults }
        ensures bounded { self.new.faults < 2 ^ 64 }
    {
        self.calls = self.calls.saturating_add(1);
        if self.failing.as_slice().contains(&self.calls) {
            self.faults = self.faults.saturating_add(1);
            return Err(Failed);
        }
        let left = &self.bytes.as_slice()[self.taken..];
        let n = self.piece.min(into.len().min(left.len()));
        into[..n].copy_from_slice(&left[..n]);
        self.taken += n;
        Ok(n)
    }
}
