//! What the type of an engine names.

use box_lock::CellNames;
use std::marker::Brand;
use std::sync::ledger::Ledger;

/// Which tables an engine stands on, how many seats it has, and what its run is set up with. The code and the first
/// variables of its cells are named by `CellNames`, the ledger of its finishes by `Ledger`. No value of a type with
/// this bound is made: it is a name for proofs, by which seats, passes and desks of different engines can't be mixed
/// up.
pub trait EngineNames: CellNames + Ledger {
    ghost use Rattle.pass_seats.specs.Names.{Names};

    ghost names: { Names };
}

impl EngineNames for Brand {
    ghost use Rattle.pass_seats.specs.Names.{no_names};

    ghost names = { no_names };
}
