//! What a rejection leaves.

ghost use Rattle.std.specs.Prelude.{◌≡◌, ◌≢◌, ◌≤◌, ℕ, suc, List, Some};
ghost use Rattle.seuss_base.specs.declared.outcome.Outcome.TheVariants.{Rejected};
ghost use Rattle.seuss_program.specs.declared.program.Program.{Program};
ghost use Rattle.seuss_program.specs.declared.state.State.{State};
ghost use Rattle.seuss_program.specs.declared.state.Value.{Value};
ghost use Rattle.seuss_program.specs.declared.tree.Alternative.{Alternative};
ghost use Rattle.seuss_program.specs.declared.tree.Proc.{Proc};
ghost use Rattle.seuss_program.specs.declared.tree.Ref.{Ref};
ghost use Rattle.seuss_program.specs.Programs.{level_of, procedure_of, vars_of};
ghost use Rattle.seuss_program.specs.Bodies.{Called};
ghost use Rattle.seuss_program.specs.Attempts.{attempt, ended, entry_slots};
ghost use Rattle.seuss_program.specs.Keeping.{Keeps};
ghost use Rattle.meaning_laws.specs.Alternatives.{alternatives_of, NoneHolds};
ghost use Rattle.meaning_laws.specs.Rejections.{PreRejects};

/// Where every precondition is false, an attempt is rejected, and changes neither the state nor the budget.
pub fn plain_rejection_changes_nothing()
    ensures { (p : Program) (depth box number : ℕ) (q : Proc Ref) (alts : List (Alternative Ref))
        (args : List Value) (state : State) (budget : ℕ) →
        procedure_of p box number ≡ Some q → alternatives_of q.form ≡ Some alts →
        NoneHolds alts (vars_of state box) (entry_slots q args) →
        attempt p depth box number args state budget ≡ ended Rejected state budget }
{}

/// An attempt changes no variables of another box whose level isn't lower.
pub fn attempts_stay_below()
    ensures { (p : Program) (depth box number other : ℕ) (args : List Value) (state : State) (budget : ℕ) →
        Keeps p →
        other ≢ box → level_of p box ≤ level_of p other →
        vars_of (attempt p depth box number args state budget).state other ≡ vars_of state other }
{}

/// Where the preprocedure of the chosen alternative is rejected, so is the attempt. It leaves the state and
/// the budget that the preprocedure left, in which the variables of its own box are as before.
pub fn rejected_preprocedure_leaves_the_box()
    ensures rejected { (p : Program) (depth box number : ℕ) (q : Proc Ref) (args : List Value)
        (state : State) (budget : ℕ) (left : Called) →
        procedure_of p box number ≡ Some q → PreRejects p depth box q args state budget left →
        attempt p (suc depth) box number args state budget ≡ ended Rejected left.state left.budget }
    ensures own_box { (p : Program) (depth box number : ℕ) (q : Proc Ref) (args : List Value)
        (state : State) (budget : ℕ) (left : Called) →
        Keeps p → procedure_of p box number ≡ Some q → PreRejects p depth box q args state budget left →
        vars_of left.state box ≡ vars_of state box }
{}
