//! What safe properties are: the laws of regions, and that each attempt keeps them.

ghost use Rattle.std.specs.Prelude.{◌≡◌, ℕ, ℤ, All, IsTrue, List, Some};
ghost use Rattle.seuss_program.specs.Attempts.{tight};
ghost use Rattle.seuss_program.specs.Initials.{initial};
ghost use Rattle.seuss_program.specs.declared.program.Program.{Program};
ghost use Rattle.seuss_program.specs.declared.state.Value.{Value};
ghost use Rattle.seuss_program.specs.declared.tree.Expr.{Expr};
ghost use Rattle.seuss_program.specs.declared.tree.Kind.{Kind};
ghost use Rattle.seuss_program.specs.declared.tree.Ref.{Ref};
ghost use Rattle.seuss_program.specs.Values.{fits, value};
ghost use Rattle.seuss_program.specs.Keeping.{AreOf, Keeps, Scope, kind_in};
ghost use Rattle.safety_check.specs.Properties.{All_ended, Holds, IsKept, IsProperty, Property};
ghost use Rattle.safety_check.specs.Safety.{IsSafe};
ghost use Rattle.safety_check.specs.Regions.{Fit, Regions};
ghost use Rattle.safety_check.specs.RegionValues.{region, Told};

/// The value of an expression lies in its region. Where it has none, the expression traps.
pub fn values_lie_in_regions()
    ensures { (s : Scope) (e : Expr Ref) (k : Kind) (vars slots : List Value) (regions : Regions) →
        kind_in s e ≡ Some k → AreOf vars s.vars → AreOf slots s.slots → Fit regions vars slots →
        Told (region e regions) (value e vars slots) }
{}

/// A property that is true of the start values of each box of its cat, and of whose cat no procedure is bad,
/// holds in every initial state and is kept by every attempt that is accepted or rejected. So it holds at the
/// end of each run of such attempts.
pub fn safe_properties_are_kept()
    ensures kept { (p : Program) (property : Property) → Keeps p → IsProperty p property → IsSafe p property →
        IsKept p property }
    ensures runs { (p : Program) (property : Property) (input : List ℤ) (actions : List ℕ) (budget : ℕ) →
        Keeps p → IsProperty p property → IsSafe p property → All (λ z. IsTrue (fits z)) input →
        All_ended (tight p actions (initial p input) budget).outcomes →
        Holds p property (tight p actions (initial p input) budget).state }
{}
