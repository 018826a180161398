//! Laws of what is told in a case, and of verdicts.

ghost use Rattle.std.specs.Prelude.{◌≡◌, ℕ, List, Ok, Some, None, IsTrue};
ghost use Rattle.seuss_program.specs.declared.tree.Ref.{Ref};
ghost use Rattle.seuss_program.specs.declared.tree.Expr.{Expr};
ghost use Rattle.seuss_program.specs.declared.tree.Proc.{Proc};
ghost use Rattle.seuss_program.specs.declared.state.Value.{Value};
ghost use Rattle.seuss_program.specs.declared.state.Vars.{Vars};
ghost use Rattle.seuss_program.specs.Values.{value};
ghost use Rattle.shape_terms.specs.declared.symbol.Symbol.{Symbol};
ghost use Rattle.shape_terms.specs.Points.{Point};
ghost use Rattle.shape_terms.specs.Symbols.{value_at, values_at};
ghost use Rattle.seuss_program.specs.declared.program.Program.{Program};
ghost use Rattle.seuss_program.specs.Keeping.{Keeps};
ghost use Rattle.shape_terms.specs.Cases.{Pair, pair_at, cases_of};
ghost use Rattle.commute_certs.specs.declared.foreseen.Foreseen.{Foreseen};
ghost use Rattle.seuss_base.specs.declared.level.Level.{Level};
ghost use Rattle.commute_certs.specs.declared.why.Why.{Why};
ghost use Rattle.commute_certs.specs.declared.verdict.Verdict.{Verdict};
ghost use Rattle.commute_certs.specs.declared.verdict.Verdict.TheVariants.{Yes, No, Unclear};
ghost use Rattle.commute_certs.specs.Decisions.{Decides};
ghost use Rattle.commute_certs.specs.Verdicts.{both_single, too_many, IsVerdict};
ghost use Rattle.commute_certs.specs.Runs.{alone};
ghost use Rattle.commute_certs.specs.Terms.{told};
ghost use Rattle.commute_certs.specs.Foreseen.{foreseen, run_at};

/// What is told of an expression in a case is its value at every point.
pub fn told_is_value()
    ensures { (e : Expr Ref) (vars slots : List Symbol) (s : Symbol) (p : Point) → told e vars slots ≡ Ok s →
        value e (values_at vars p) (values_at slots p) ≡ Ok (value_at s p) }
{}

/// What is foreseen of a single method in a case is its run on the variables of its box alone, at every
/// point.
pub fn foreseen_is_run()
    ensures { (q : Proc Ref) (args vars : List Symbol) (f : Foreseen) (p : Point) →
        foreseen q args vars ≡ Ok f →
        alone q (values_at args p) (values_at vars p) ≡ run_at f p }
{}

/// What is decided over all cases of two single methods, where they are few, is the verdict.
pub fn decided_is_verdict()
    ensures { (p : Program) (cat semi : ℕ) (pair : Pair) (verdict : Verdict) → Keeps p →
        pair_at p cat semi ≡ Some pair →
        IsTrue (both_single pair) → too_many pair ≡ None →
        Decides pair.first pair.second (cases_of pair) verdict → IsVerdict pair verdict }
{
    shape_terms::laws::each_state_is_of_one_case();
    shape_terms::laws::points_are_states();
}

/// A certificate has one verdict: it holds up to one level, or it is refuted, or it is unclear. States that
/// refute it may be many, and so may be the reasons why it is unclear.
pub fn one_verdict()
    ensures level { (pair : Pair) (level other : Level) → IsVerdict pair (Yes level) →
        IsVerdict pair (Yes other) → level ≡ other }
    ensures yes_or_no { (pair : Pair) (level : Level) (vars : Vars) (first second : List Value) →
        IsVerdict pair (Yes level) → IsVerdict pair (No vars first second) → ⊥ }
    ensures yes_or_unclear { (pair : Pair) (level : Level) (why : Why) →
        IsVerdict pair (Yes level) → IsVerdict pair (Unclear why) → ⊥ }
    ensures no_or_unclear { (pair : Pair) (vars : Vars) (first second : List Value) (why : Why) →
        IsVerdict pair (No vars first second) → IsVerdict pair (Unclear why) → ⊥ }
{}
