//! A gate that holds one attempt back until another one has come to its steps.

use seuss_base::Gate;
use std::sync::atomic::{AtomicBool, AtomicU64, Ordering};
use std::thread;

/// How many turns an attempt is held at the most.
const MOST_TURNS: u64 = 1_000_000;

/// How many steps the other attempt has to come to.
const STEPS: u64 = 3;

/// Holds attempt 0 before its step on box 1 until it was told of three steps of attempt 1. Where it isn't told of them
/// for a million turns it lets attempt 0 go on, and raises its flag.
#[derive(Drop)]
pub struct HoldingGate {
    told: AtomicU64,
    is_up: AtomicBool,
}

impl HoldingGate {
    pub fn new() -> HoldingGate {
        HoldingGate {
            told: AtomicU64::new(0),
            is_up: AtomicBool::new(false),
        }
    }

    /// Whether attempt 0 was let go on without three steps of attempt 1.
    pub fn is_up(&self) -> bool {
        self.is_up.load(Ordering::SeqCst)
    }

    fn hold(&self) {
        for _ in 0..MOST_TURNS {
            if self.told.load(Ordering::SeqCst) >= STEPS {
                return;
            }
            thread::yield_now();
        }
        self.is_up.store(true, Ordering::SeqCst);
    }
}

impl Gate for HoldingGate {
    fn before(&self, _worker: u32, attempt: u64, box_number: u32) {
        match attempt {
            0 if box_number == 1 => self.hold(),
            1 => {
                self.told.fetch_add(1, Ordering::SeqCst);
            }
            _ => {}
        }
    }
}
