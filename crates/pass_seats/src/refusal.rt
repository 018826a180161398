//! Why an engine refuses a call.

/// Why an engine refused a call.
#[derive(Clone, Copy, Debug, PartialEq, Eq)]
pub enum EngineRefusal {
    /// Memory was refused in this call.
    Memory,
    /// The entry would have this stamp, which is 2^63.
    Worn(u64),
    /// The seat of this number gave the engine up.
    GivenUp(u32),
}
