//! What the cells of one run have in common.

use std::marker::Brand;

/// Which code the cells run, and the first variables of each box by its number. No value of a type
/// with this bound is made: it is a name for proofs, by which cells of different runs can't be mixed
/// up.
pub trait CellNames {
    ghost use Rattle.std.specs.Prelude.{ℕ, List};
    ghost use Rattle.seuss_program.specs.declared.state.Value.{Value};
    ghost use Rattle.method_code.specs.declared.method.Method.{Method};

    ghost code: { List Method };

    ghost first: { ℕ → List Value };
}

impl CellNames for Brand {
    ghost use Rattle.std.specs.Prelude.{[]};

    ghost code = { [] };

    ghost first = { λ _. [] };
}
