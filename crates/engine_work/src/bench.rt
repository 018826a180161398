//! The passes that a worker holds.

ghost use Rattle.std.specs.Prelude.{◌≡◌, ◌<◌, ◌↔◌, [], ◌∷◌, ◌++◌, length, IsTrue, MatchOption};
ghost use Rattle.engine_work.specs.Benches.{held_in, fresh, waiting, MayBegin};

use pass_seats::Pass;

/// A pass that a worker holds, with whether the gate was told of its next step, and whether the last try of
/// this step found the box taken.
#[derive(Debug, Drop)]
pub struct HeldPass {
    pub(crate) pass: Pass,
    pub(crate) gated: bool,
    pub(crate) busy: bool,
}

impl HeldPass {
    /// A pass whose next step wasn't tried.
    pub(crate) fn new(pass: Pass) -> HeldPass
        ensures { result ≡ fresh pass }
    {
        HeldPass {
            pass,
            gated: false,
            busy: false,
        }
    }

    /// A pass whose next step found its box taken.
    pub(crate) fn waiting(pass: Pass) -> HeldPass
        ensures { result ≡ waiting pass }
    {
        HeldPass {
            pass,
            gated: true,
            busy: true,
        }
    }
}

/// The passes that a worker holds, at most four, in the order in which they are tried.
#[derive(Debug, Drop)]
pub(crate) enum Bench {
    Empty,
    One(HeldPass),
    Two(HeldPass, HeldPass),
    Three(HeldPass, HeldPass, HeldPass),
    Four(HeldPass, HeldPass, HeldPass, HeldPass),
}

impl Bench {
    /// Whether a further pass may be begun: there are fewer than four, and each found its box taken.
    pub(crate) fn may_begin(&self) -> bool
        ensures { IsTrue result ↔ MayBegin (held_in self.now) }
    {
        match self {
            Bench::Empty => true,
            Bench::One(a) => a.busy,
            Bench::Two(a, b) => a.busy && b.busy,
            Bench::Three(a, b, c) => a.busy && b.busy && c.busy,
            Bench::Four(_, _, _, _) => false,
        }
    }

    /// Takes the first pass off.
    pub(crate) fn pop(self) -> Option<(HeldPass, Bench)>
        ensures first { MatchOption result (held_in self ≡ []) (λ r. held_in self ≡ r.0 ∷ held_in r.1) }
        ensures room { MatchOption result (held_in self ≡ []) (λ r. length (held_in r.1) < 4) }
    {
        match self {
            Bench::Empty => None,
            Bench::One(a) => Some((a, Bench::Empty)),
            Bench::Two(a, b) => Some((a, Bench::One(b))),
            Bench::Three(a, b, c) => Some((a, Bench::Two(b, c))),
            Bench::Four(a, b, c, d) => Some((a, Bench::Three(b, c, d))),
        }
    }

    /// Puts a pass behind the others.
    pub(crate) fn push(self, last: HeldPass) -> Bench
        requires { length (held_in self) < 4 }
        ensures { held_in result ≡ held_in self ++ last ∷ [] }
    {
        match self {
            Bench::Empty => Bench::One(last),
            Bench::One(a) => Bench::Two(a, last),
            Bench::Two(a, b) => Bench::Three(a, b, last),
            Bench::Three(a, b, c) => Bench::Four(a, b, c, last),
            Bench::Four(_, _, _, _) => unreachable!(),
        }
    }
}
