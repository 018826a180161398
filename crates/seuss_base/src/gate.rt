//! Gates, which are told of each method step ahead of it.

/// Told ahead of each method step which worker is about to make it. Tests hold a step back with one.
pub trait Gate {
    /// A worker is about to make a step of an attempt on a box, and holds no box.
    /// Boxes are numbered from 0 in order of declaration, workers and attempts from 0.
    fn before(&self, worker: u32, attempt: u64, box_number: u32);
}

/// A gate that lets every step pass at once.
#[derive(Clone, Copy, Debug)]
pub struct FreeGate;

impl Gate for FreeGate {
    fn before(&self, _worker: u32, _attempt: u64, _box_number: u32) {}
}
