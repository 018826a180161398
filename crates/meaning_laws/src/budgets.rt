//! What is left of the budget.

ghost use Rattle.std.specs.Prelude.{◌≤◌, ℕ, List};
ghost use Rattle.seuss_program.specs.declared.program.Program.{Program};
ghost use Rattle.seuss_program.specs.declared.state.State.{State};
ghost use Rattle.seuss_program.specs.declared.state.Value.{Value};
ghost use Rattle.seuss_program.specs.declared.tree.Ref.{Ref};
ghost use Rattle.seuss_program.specs.declared.tree.Statement.{Statement};
ghost use Rattle.seuss_program.specs.Bodies.{statement, body};
ghost use Rattle.seuss_program.specs.Attempts.{attempt};

/// No statement, no body and no attempt leaves more of the budget than it was given.
pub fn budgets_never_rise()
    ensures attempts { (p : Program) (depth box number : ℕ) (args : List Value) (state : State)
        (budget : ℕ) →
        (attempt p depth box number args state budget).budget ≤ budget }
    ensures statements { (p : Program) (depth box : ℕ) (s : Statement Ref) (state : State)
        (slots : List Value) (budget : ℕ) →
        (statement p (attempt p depth) box s state slots budget).budget ≤ budget }
    ensures bodies { (p : Program) (depth box : ℕ) (ss : List (Statement Ref)) (state : State)
        (slots : List Value) (budget : ℕ) →
        (body p (attempt p depth) box ss state slots budget).budget ≤ budget }
{}
