//! Where bytes are written to, and what a write that fails leaves.

ghost use Rattle.std.specs.Prelude.{◌≡◌, ℕ, ◌<◌, ◌≤◌, ◌^◌, List, length, take, Option, IfOk, OnErr};
ghost use Rattle.seuss_base.specs.Faults.{Rose};
ghost use Rattle.seuss_base.specs.Sinks.{Adds};

use crate::Failed;

/// Where bytes are written to.
pub trait Sink {
    /// The bytes that were written, where the sink tells them.
    ghost written: { Self → Option (List ℕ) };

    /// How many writes have failed. The count never falls, and stands still at its end.
    ghost faults: { Self → ℕ };

    /// Takes some bytes from the front of a piece, at least one, and answers how many.
    fn write(&mut self, from: &[u8]) -> Result<usize, Failed>
        requires { 0 < length from.now }
        ensures some { IfOk result (λ n. 0 < n) }
        ensures within { IfOk result (λ n. n ≤ length from.now) }
        ensures added { IfOk result (λ n. Adds (written self.old) (written self.new) (take n from.now)) }

        // A fault is answered only where the count rose, and then nothing was added.
        ensures failed { OnErr result (Rose (faults self.old) (faults self.new)) }
        ensures kept { OnErr result (written self.new ≡ written self.old) }
        ensures counted { faults self.old ≤ faults self.new }
        ensures bounded { faults self.new < 2 ^ 64 };
}
