//! Where bytes are read from, and what a read that fails leaves.

ghost use Rattle.std.specs.Prelude.{◌≡◌, ℕ, ◌<◌, ◌≤◌, ◌^◌, List, [], length, Option, IfOk, IfSome, OnErr};
ghost use Rattle.seuss_base.specs.Faults.{Rose};
ghost use Rattle.seuss_base.specs.Sources.{Moves};

/// A read or a write failed.
#[derive(Clone, Copy, Debug, PartialEq, Eq)]
pub struct Failed;

/// Where bytes are read from.
pub trait Source {
    /// The bytes that are left, where the source tells them.
    ghost left: { Self → Option (List ℕ) };

    /// How many reads have failed. The count never falls, and stands still at its end.
    ghost faults: { Self → ℕ };

    /// Moves some bytes into the front of a buffer, and answers how many. 0 is the end.
    fn read(&mut self, into: &mut [u8]) -> Result<usize, Failed>
        requires { 0 < length into.old }
        ensures within { IfOk result (λ n. n ≤ length into.old) }
        ensures moved { IfOk result
            (λ n. IfSome (left self.old) (λ bytes. Moves bytes n into.new (left self.new))) }
        ensures end { IfOk result (λ n. n ≡ 0 → IfSome (left self.old) (λ bytes. bytes ≡ [])) }

        // A fault is answered only where the count rose, and loses no byte.
        ensures failed { OnErr result (Rose (faults self.old) (faults self.new)) }
        ensures kept { OnErr result (left self.new ≡ left self.old) }
        ensures counted { faults self.old ≤ faults self.new }
        ensures bounded { faults self.new < 2 ^ 64 };
}
