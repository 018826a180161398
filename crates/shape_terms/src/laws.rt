//! Laws of cases.

ghost use Rattle.std.specs.Prelude.{◌≡◌, ◌≤◌, ◌↔◌, ℕ, List, length, slice_get, None, Some};
ghost use Rattle.std.specs.List.{Contains};
ghost use Rattle.seuss_program.specs.declared.program.Program.{Program};
ghost use Rattle.seuss_program.specs.declared.state.Value.{Value};
ghost use Rattle.seuss_program.specs.Keeping.{AreOf, Keeps, var_kinds, param_kinds};
ghost use Rattle.shape_terms.specs.declared.case.Case.{Case};
ghost use Rattle.shape_terms.specs.Points.{Point, HasNumbers};
ghost use Rattle.shape_terms.specs.Symbols.{IsOf, values_at};
ghost use Rattle.shape_terms.specs.Cases.{Pair, pair_at, cases_of, first_above};
ghost use Rattle.shape_terms.specs.Counts.{product, counts_of, IsFirstAbove};

/// Every state of a cat, with all arguments of both methods of a certificate, is of exactly one of its
/// cases, and no case stands twice among these.
pub fn each_state_is_of_one_case()
    ensures some { (p : Program) (cat semi : ℕ) (pair : Pair) (state args others : List Value) → Keeps p →
        pair_at p cat semi ≡ Some pair →
        AreOf state (var_kinds pair.cat.vars) → AreOf args (param_kinds pair.first.params) →
        AreOf others (param_kinds pair.second.params) →
        (c : Case) × (at : Point) × Contains (cases_of pair) c × HasNumbers at
        × IsOf c at state args others }
    ensures one { (pair : Pair) (c d : Case) (at there : Point) (state args others : List Value) →
        Contains (cases_of pair) c → Contains (cases_of pair) d → IsOf c at state args others →
        IsOf d there state args others → c ≡ d }
    ensures once { (pair : Pair) (i j : ℕ) (c : Case) → slice_get (cases_of pair) i ≡ Some c →
        slice_get (cases_of pair) j ≡ Some c → i ≡ j }
{}

/// Each point of a case gives a state of the cat and arguments of both methods.
pub fn points_are_states()
    ensures state { (pair : Pair) (c : Case) (at : Point) → Contains (cases_of pair) c → HasNumbers at →
        AreOf (values_at c.vars at) (var_kinds pair.cat.vars) }
    ensures first { (pair : Pair) (c : Case) (at : Point) → Contains (cases_of pair) c → HasNumbers at →
        AreOf (values_at c.first at) (param_kinds pair.first.params) }
    ensures second { (pair : Pair) (c : Case) (at : Point) → Contains (cases_of pair) c → HasNumbers at →
        AreOf (values_at c.second at) (param_kinds pair.second.params) }
{}

/// A certificate has as many cases as the product of how many each variable and each parameter has. Where
/// these are at most 4,096, no product of the first counts passes it; else the first one that does is at
/// most the number of cases.
pub fn too_many_exactly()
    ensures number { (pair : Pair) → length (cases_of pair) ≡ product (counts_of pair) }
    ensures none { (pair : Pair) → (first_above 1 (counts_of pair) ≡ None) ↔
        (length (cases_of pair) ≤ 4096) }
    ensures first { (pair : Pair) (count : ℕ) → first_above 1 (counts_of pair) ≡ Some count →
        IsFirstAbove (counts_of pair) count }
    ensures at_least { (pair : Pair) (count : ℕ) → first_above 1 (counts_of pair) ≡ Some count →
        count ≤ length (cases_of pair) }
{}
