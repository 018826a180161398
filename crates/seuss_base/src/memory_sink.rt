//! A sink in memory, for tests: it takes pieces, is full at some time, and fails at chosen calls.

ghost use Rattle.std.specs.Prelude.{◌≡◌, ◌≤◌, [], IfOk};

use crate::{Failed, List, Memory, Sink};
use std::alloc::Global;
use std::marker::Model;

/// A room in memory that is written to in pieces. It tells what was written.
#[derive(Debug, Drop)]
pub struct MemorySink {
    bytes: Vec<u8>,
    /// How many bytes it holds.
    capacity: usize,
    /// How many bytes a call takes at the most.
    piece: usize,
    /// The numbers of the calls that fail, from 1.
    failing: List<u64>,
    /// How many calls were made.
    calls: u64,
    /// How many calls have failed.
    faults: u64,
}

impl Model for MemorySink {
    ghost use Rattle.std.specs.Prelude.{◌≤◌, vec_len, vec_capacity};
    ghost use Rattle.seuss_base.specs.Sinks.{Store};

    ghost Value = { Store };

    ghost view = { λ s. record {
      written = s.bytes.items;
      capacity = s.capacity;
      piece = s.piece;
      failing = s.failing;
      calls =
          s.calls;
      faults = s.faults;
    } };

    ghost invariant = { λ s. (vec_len s.bytes ≤ s.capacity) × (s.capacity ≤ vec_capacity s.bytes)
        × (1 ≤ s.piece) };
}

impl MemorySink {
    /// An empty sink that holds `capacity` bytes, whose memory it takes at once. Each call takes at
    /// most `piece` bytes, and the calls whose numbers, from 1, stand in `failing` fail.
    pub fn new(
        alloc: Global,
        capacity: usize,
        piece: usize,
        failing: List<u64>,
    ) -> Result<MemorySink, Memory>
        requires { 1 ≤ piece }
        ensures written { IfOk result (λ sink. sink.written ≡ []) }
        ensures capacity { IfOk result (λ sink. sink.capacity ≡ capacity) }
        ensures piece { IfOk result (λ sink. sink.piece ≡ piece) }
        ensures failing { IfOk result (λ sink. sink.failing ≡ failing) }
        ensures calls { IfOk result (λ sink. sink.calls ≡ 0) }
        ensures faults { IfOk result (λ sink. sink.faults ≡ 0) }
    {
        Ok(MemorySink {
            bytes: Vec::with_capacity(alloc, capacity)?,
            capacity,
            piece,
            failing,
            calls: 0,
            faults: 0,
        })
    }

    /// The bytes that were written, in their order.
    pub fn written(&self) -> &[u8]
        ensures { result.now ≡ self.now.written }
    {
        self.bytes.as_slice()
    }
}

impl Sink for MemorySink {
    ghost use Rattle.std.specs.Prelude.{◌≡◌, ◌<◌, ◌≤◌, ◌^◌, ◌++◌, length, take, IfOk, OnErr, Some};
    ghost use Rattle.seuss_base.specs.Faults.{Rose};
    ghost use Rattle.seuss_base.specs.Sinks.{Adds, Stores};

    ghost written = { λ s. Some s.written };

    ghost faults = { λ s. s.faults };

    fn write(&mut self, from: &[u8]) -> Result<usize, Failed>
        requires { 0 < length from.now }
        ensures exact { Stores self.old self.new (length from.now) result }
        ensures some { IfOk result (λ n. 0 < n) }
        ensures within { IfOk result (λ n. n ≤ length from.now) }
        ensures added { IfOk result
            (λ n. Some self.new.written ≡ Some (self.old.written ++ take n from.now)) }
        ensures failed { OnErr result (Rose self.old.faults self.new.faults) }
        ensures kept { OnErr result (self.new.written ≡ self.old.written) }
        ensures counted { self.old.faults ≤ self.new.faults }
        ensures bounded { self.new.faults < 2 ^ 64 }
    {
        self.calls = self.calls.saturating_add(1);
        let free = self.capacity - self.bytes.len();
        if free == 0 || self.failing.as_slice().contains(&self.calls) {
            self.faults = self.faults.saturating_add(1);
            return Err(Failed);
        }
        let n = self.piece.min(from.len().min(free));
        self.bytes.extend_from_slice(&from[..n]).unwrap();
        Ok(n)
    }
}
