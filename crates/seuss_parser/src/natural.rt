//! Numbers in digits, which are never negative.

ghost use Rattle.std.specs.Prelude.{◌≡◌, ◌<◌, ◌^◌, pos, neg_ℤ, nat_abs};

use std::marker::Model;

/// A number of a text, which is never negative.
#[derive(Debug, Drop)]
pub struct Natural {
    value: i64,
}

impl Model for Natural {
    ghost use Rattle.std.specs.Prelude.{◌≡◌, ℕ, ℤ, pos};

    ghost Value = { ℤ };

    ghost view = { λ natural. natural.value };

    ghost invariant = { λ natural. (n : ℕ) × (natural.value ≡ pos n) };
}

impl Natural {
    pub(crate) fn new(value: u64) -> Natural
        requires { value < 2 ^ 63 }
        ensures { result ≡ pos value }
    {
        Natural {
            value: value as i64,
        }
    }

    pub(crate) fn value(&self) -> i64
        ensures { result ≡ self.now }
    {
        self.value
    }

    pub(crate) fn size(&self) -> u64
        ensures { result ≡ nat_abs self.now }
    {
        self.value.unsigned_abs()
    }

    pub(crate) fn negated(&self) -> i64
        ensures { result ≡ neg_ℤ self.now }
    {
        0 - self.value
    }
}
