//! Which alternative of a procedure is chosen.

ghost use Rattle.std.specs.Prelude.{◌≡◌, ◌⊎◌, ℕ, suc, List, Some};
ghost use Rattle.seuss_base.specs.declared.outcome.Outcome.TheVariants.{Trapped};
ghost use Rattle.seuss_base.specs.declared.outcome.Trap.{Trap};
ghost use Rattle.seuss_program.specs.declared.program.Program.{Program};
ghost use Rattle.seuss_program.specs.declared.state.State.{State};
ghost use Rattle.seuss_program.specs.declared.state.Value.{Value};
ghost use Rattle.seuss_program.specs.declared.tree.Alternative.{Alternative};
ghost use Rattle.seuss_program.specs.declared.tree.Proc.{Proc};
ghost use Rattle.seuss_program.specs.declared.tree.Ref.{Ref};
ghost use Rattle.seuss_program.specs.Programs.{procedure_of, vars_of};
ghost use Rattle.seuss_program.specs.Attempts.{attempt, chosen, ended, entry_slots};
ghost use Rattle.meaning_laws.specs.Alternatives.{alternatives_of, IsChosen, IsTrapped, NoneHolds};

/// An attempt does what the first alternative does whose precondition is true. Where a precondition traps
/// before one is true, it ends with this trap. One of the two is the case, or every precondition is false.
pub fn first_alternative_is_chosen()
    ensures chosen { (p : Program) (depth box number : ℕ) (q : Proc Ref) (alts : List (Alternative Ref))
        (a : Alternative Ref) (args : List Value) (state : State) (budget : ℕ) →
        procedure_of p box number ≡ Some q → alternatives_of q.form ≡ Some alts →
        IsChosen alts (vars_of state box) (entry_slots q args) a →
        attempt p (suc depth) box number args state budget
        ≡ chosen p (attempt p depth) box q a a.pre state (entry_slots q args) budget }
    ensures trapped { (p : Program) (depth box number : ℕ) (q : Proc Ref) (alts : List (Alternative Ref))
        (trap : Trap) (args : List Value) (state : State) (budget : ℕ) →
        procedure_of p box number ≡ Some q → alternatives_of q.form ≡ Some alts →
        IsTrapped alts (vars_of state box) (entry_slots q args) trap →
        attempt p (suc depth) box number args state budget ≡ ended (Trapped trap) state budget }
    ensures decided { (alts : List (Alternative Ref)) (vars slots : List Value) →
        NoneHolds alts vars slots
        ⊎ (((a : Alternative Ref) × IsChosen alts vars slots a)
        ⊎ ((trap : Trap) × IsTrapped alts vars slots trap)) }
{}
