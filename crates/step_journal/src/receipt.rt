//! Where an entry was appended, and with which stamp.

/// Where a call appended its entry in the journal, counted from 0, and the stamp of that entry.
#[derive(Clone, Copy, Debug, PartialEq, Eq)]
pub struct Receipt {
    pub place: u64,
    pub stamp: u64,
}
