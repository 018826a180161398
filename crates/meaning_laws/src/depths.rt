//! The bounds in the definitions are never met.

ghost use Rattle.std.specs.Prelude.{◌≡◌, ◌≢◌, ◌≤◌, ◌<◌, ℕ, suc, List, length, Some, IsTrue};
ghost use Rattle.seuss_base.specs.declared.outcome.Outcome.TheVariants.{Rejected};
ghost use Rattle.seuss_program.specs.declared.program.Program.{Program};
ghost use Rattle.seuss_program.specs.declared.state.State.{State};
ghost use Rattle.seuss_program.specs.declared.state.Value.{Value};
ghost use Rattle.seuss_program.specs.declared.tree.Expr.{Expr};
ghost use Rattle.seuss_program.specs.declared.tree.Proc.{Proc};
ghost use Rattle.seuss_program.specs.declared.tree.Ref.{Ref};
ghost use Rattle.seuss_program.specs.declared.tree.Statement.{Statement};
ghost use Rattle.seuss_program.specs.declared.tree.Statement.TheVariants.{While};
ghost use Rattle.seuss_program.specs.Programs.{level_of, procedure_of};
ghost use Rattle.seuss_program.specs.Bodies.{Meaning, body, looped, statement};
ghost use Rattle.seuss_program.specs.Attempts.{attempt};
ghost use Rattle.seuss_program.specs.Keeping.{Keeps, is_total};

/// Calls go strictly downward, so an attempt is the same at every depth above the level of its box. Attempts
/// of actions begin there, so that no call is ever rejected for its depth.
pub fn depth_is_enough()
    ensures { (p : Program) (depth box number : ℕ) (args : List Value) (state : State) (budget : ℕ) →
        Keeps p →
        level_of p box < depth →
        attempt p depth box number args state budget
        ≡ attempt p (suc (level_of p box)) box number args state budget }
{}

/// Below a box of a level there is a box of each lower level, so a level is below the number of boxes.
pub fn levels_are_few()
    ensures below { (p : Program) (box : ℕ) → Keeps p → box < length p.boxes →
        level_of p box < length p.boxes }
    ensures few { (p : Program) (box : ℕ) → Keeps p → level_of p box < 128 }
{}

/// A loop has no more turns than its budget, so it is the same with any greater bound on its turns.
pub fn turns_are_enough()
    ensures looped { (p : Program) (depth box turns : ℕ) (cond : Expr Ref) (turn : List (Statement Ref))
        (state : State) (slots : List Value) (budget : ℕ) →
        budget ≤ turns →
        looped box turns cond (body p (attempt p depth) box turn) state slots budget
        ≡ looped box budget cond (body p (attempt p depth) box turn) state slots budget }
    ensures statement { (p : Program) (depth box turns : ℕ) (cond : Expr Ref) (turn : List (Statement Ref))
        (state : State) (slots : List Value) (budget : ℕ) →
        budget ≤ turns →
        statement p (attempt p depth) box (While cond turn) state slots budget
        ≡ looped box turns cond (body p (attempt p depth) box turn) state slots budget }
{}

/// A total method doesn't reject, so a body never goes on after a call that was rejected.
pub fn total_methods_never_reject()
    ensures { (p : Program) (depth box number : ℕ) (q : Proc Ref) (args : List Value) (state : State)
        (budget : ℕ) →
        procedure_of p box number ≡ Some q → IsTrue (is_total q.form) →
        (attempt p (suc depth) box number args state budget).outcome ≢ Rejected }
{}
