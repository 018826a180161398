//! Certificates that hold, with their levels.

use seuss_base::Level;

/// A certificate that holds: its cat, the methods that it names, and its level.
#[derive(Clone, Copy, Debug, PartialEq, Eq)]
pub struct Certificate {
    pub cat: u32,
    pub first: u32,
    pub second: u32,
    pub level: Level,
}
