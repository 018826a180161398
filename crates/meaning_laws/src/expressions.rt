//! What each expression means, by what its parts mean, and the kinds that are wanted of them.

ghost use Rattle.std.specs.Prelude.{◌≡◌, ◌≢◌, ◌⊎◌, ℤ, pos, neg_ℤ, Bool, true, false, not, if◌then◌else◌};
ghost use Rattle.std.specs.Prelude.{List, [], length, Some, Ok, IsTrue};
ghost use Rattle.seuss_program.specs.declared.state.Value.{Value};
ghost use Rattle.seuss_program.specs.declared.state.Value.TheVariants as V;
ghost use Rattle.seuss_program.specs.declared.tree.Expr.{Expr};
ghost use Rattle.seuss_program.specs.declared.tree.Fun.{Fun};
ghost use Rattle.seuss_program.specs.declared.tree.Fun.TheVariants.{Len};
ghost use Rattle.seuss_program.specs.declared.tree.Kind.{Kind};
ghost use Rattle.seuss_program.specs.declared.tree.Kind.TheVariants as K;
ghost use Rattle.seuss_program.specs.declared.tree.Node.TheVariants as N;
ghost use Rattle.seuss_program.specs.declared.tree.Op.{Op};
ghost use Rattle.seuss_program.specs.declared.tree.Op.TheVariants.{And, Or};
ghost use Rattle.seuss_program.specs.declared.tree.Ref.{Ref};
ghost use Rattle.seuss_program.specs.Values.{and_then, apply, bool_of, exact, int_of, is_comparison, measure};
ghost use Rattle.seuss_program.specs.Values.{named, seq_of, value};
ghost use Rattle.seuss_program.specs.Keeping.{Scope, kind_at, kind_in, two_kind};
ghost use Rattle.meaning_laws.specs.Literals.{ComparesLength, IsLiteral};

/// The value of an expression, by the values of its parts. What two parts mean under an operator is said by
/// `two_parts_mean`.
pub fn expressions_mean()
    ensures number { (e : Expr Ref) (z : ℤ) (vars slots : List Value) → e.node ≡ N.Int z →
        value e vars slots ≡ Ok (V.Int z) }
    ensures truth { (e : Expr Ref) (b : Bool) (vars slots : List Value) → e.node ≡ N.Bool b →
        value e vars slots ≡ Ok (V.Bool b) }
    ensures empty { (e : Expr Ref) (vars slots : List Value) → e.node ≡ N.Empty →
        value e vars slots ≡ Ok (V.Seq []) }
    ensures name { (e : Expr Ref) (name : Ref) (vars slots : List Value) → e.node ≡ N.Name name →
        value e vars slots ≡ Ok (named name vars slots) }
    ensures negated { (e part : Expr Ref) (vars slots : List Value) → e.node ≡ N.Neg part →
        value e vars slots ≡ and_then (value part vars slots) (λ v. exact (neg_ℤ (int_of v))) }
    ensures inverted { (e part : Expr Ref) (vars slots : List Value) → e.node ≡ N.Not part →
        value e vars slots ≡ and_then (value part vars slots) (λ v. Ok (V.Bool (not (bool_of v)))) }
    ensures measured { (e part : Expr Ref) (fun : Fun) (vars slots : List Value) → e.node ≡ N.One fun part →
        value e vars slots ≡ and_then (value part vars slots) (λ v. measure fun (seq_of v)) }
{}

/// The value of two parts under an operator. In a comparison a length beside a literal counts exactly, also
/// where it doesn't fit 64 bits. `or` and `and` take the right part only where the left one doesn't decide.
/// Any other two parts have their values, the left one first.
pub fn two_parts_mean()
    ensures length_on_the_left { (e left right sequence : Expr Ref) (op : Op) (vars slots : List Value) →
        e.node ≡ N.Two op left right → IsTrue (is_comparison op) → left.node ≡ N.One Len sequence →
        IsLiteral right →
        value e vars slots ≡ and_then (value sequence vars slots)
        (λ v. and_then (value right vars slots) (apply op (V.Int (pos (length (seq_of v)))))) }
    ensures length_on_the_right { (e left right sequence : Expr Ref) (op : Op) (vars slots : List Value) →
        e.node ≡ N.Two op left right → IsTrue (is_comparison op) → IsLiteral left →
        right.node ≡ N.One Len sequence →
        value e vars slots ≡ and_then (value left vars slots)
        (λ x. and_then (value sequence vars slots) (λ v. apply op x (V.Int (pos (length (seq_of v)))))) }
    ensures disjunction { (e left right : Expr Ref) (vars slots : List Value) →
        e.node ≡ N.Two Or left right →
        value e vars slots ≡ and_then (value left vars slots) (λ x. if bool_of x then Ok (V.Bool true)
        else and_then (value right vars slots) (λ y. Ok (V.Bool (bool_of y)))) }
    ensures conjunction { (e left right : Expr Ref) (vars slots : List Value) →
        e.node ≡ N.Two And left right →
        value e vars slots ≡ and_then (value left vars slots) (λ x. if bool_of x
        then and_then (value right vars slots) (λ y. Ok (V.Bool (bool_of y))) else Ok (V.Bool false)) }
    ensures others { (e left right : Expr Ref) (op : Op) (vars slots : List Value) →
        e.node ≡ N.Two op left right → op ≢ Or → op ≢ And → ¬ ComparesLength op left right →
        value e vars slots ≡ and_then (value left vars slots)
        (λ x. and_then (value right vars slots) (apply op x)) }
    ensures decided { (left right : Expr Ref) (op : Op) →
        ComparesLength op left right ⊎ ¬ ComparesLength op left right }
{}

/// Where an expression has a kind, each part of it has the kind that is wanted there.
pub fn parts_have_kinds()
    ensures name { (s : Scope) (e : Expr Ref) (name : Ref) (k : Kind) → e.node ≡ N.Name name →
        kind_in s e ≡ Some k →
        kind_at s name ≡ Some k }
    ensures negated { (s : Scope) (e part : Expr Ref) (k : Kind) → e.node ≡ N.Neg part →
        kind_in s e ≡ Some k →
        kind_in s part ≡ Some K.Int }
    ensures inverted { (s : Scope) (e part : Expr Ref) (k : Kind) → e.node ≡ N.Not part →
        kind_in s e ≡ Some k →
        kind_in s part ≡ Some K.Bool }
    ensures measured { (s : Scope) (e part : Expr Ref) (fun : Fun) (k : Kind) → e.node ≡ N.One fun part →
        kind_in s e ≡ Some k →
        kind_in s part ≡ Some K.Seq }
    ensures of_two { (s : Scope) (e left right : Expr Ref) (op : Op) (k : Kind) →
        e.node ≡ N.Two op left right → kind_in s e ≡ Some k →
        (a b : Kind) × (kind_in s left ≡ Some a) × (kind_in s right ≡ Some b) × (two_kind op a b ≡ Some k) }
{}
