//! Values have the kinds of their expressions, and names are there.

ghost use Rattle.std.specs.Prelude.{◌≡◌, List, Some, IfOk};
ghost use Rattle.seuss_program.specs.declared.tree.Expr.{Expr};
ghost use Rattle.seuss_program.specs.declared.tree.Kind.{Kind};
ghost use Rattle.seuss_program.specs.declared.tree.Ref.{Ref};
ghost use Rattle.seuss_program.specs.declared.state.Value.{Value};
ghost use Rattle.seuss_program.specs.Values.{value, named};
ghost use Rattle.seuss_program.specs.Keeping.{AreOf, Scope, kind_in, kind_at, kind_set};
ghost use Rattle.meaning_laws.specs.Kinds.{IsOf, standing};

/// The value of an expression that has a kind is a trap or a value of this kind, whose numbers have 64 bits.
/// Since each part has the kind that is wanted there (`parts_have_kinds`), no part of a wrong kind is ever
/// met.
pub fn values_have_kinds()
    ensures { (s : Scope) (e : Expr Ref) (k : Kind) (vars slots : List Value) → kind_in s e ≡ Some k →
        AreOf vars s.vars → AreOf slots s.slots → IfOk (value e vars slots) (λ v. IsOf v k) }
{}

/// A name that has a kind is that of a variable or a slot that is there, with a value of this kind. So is
/// one that may be assigned.
pub fn names_are_there()
    ensures there { (s : Scope) (name : Ref) (k : Kind) (vars slots : List Value) → kind_at s name ≡ Some k →
        AreOf vars s.vars → AreOf slots s.slots →
        standing name vars slots ≡ Some (named name vars slots) }
    ensures kind { (s : Scope) (name : Ref) (k : Kind) (vars slots : List Value) → kind_at s name ≡ Some k →
        AreOf vars s.vars → AreOf slots s.slots → IsOf (named name vars slots) k }
    ensures set { (s : Scope) (name : Ref) (k : Kind) → kind_set s name ≡ Some k → kind_at s name ≡ Some k }
{}
