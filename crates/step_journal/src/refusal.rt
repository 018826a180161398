//! Why a cell with a journal refused a call.

/// Why a cell with a journal refused a call.
#[derive(Clone, Copy, Debug, PartialEq, Eq)]
pub enum CellRefusal {
    /// Want of memory. The cell is broken from then on.
    Memory,
    /// The entry would have this stamp, which is 2^63.
    Worn(u64),
    /// An earlier call broke the cell.
    Broken,
}
