//! What each statement means, by what the bodies inside it mean.

ghost use Rattle.std.specs.Prelude.{◌≡◌, ℕ, List, Option};
ghost use Rattle.seuss_program.specs.declared.program.Program.{Program};
ghost use Rattle.seuss_program.specs.declared.state.State.{State};
ghost use Rattle.seuss_program.specs.declared.state.Value.{Value};
ghost use Rattle.seuss_program.specs.declared.tree.Call.{Call};
ghost use Rattle.seuss_program.specs.declared.tree.Expr.{Expr};
ghost use Rattle.seuss_program.specs.declared.tree.Kind.{Kind};
ghost use Rattle.seuss_program.specs.declared.tree.Ref.{Ref};
ghost use Rattle.seuss_program.specs.declared.tree.Statement.{Statement};
ghost use Rattle.seuss_program.specs.declared.tree.Statement.TheVariants as S;
ghost use Rattle.seuss_program.specs.Programs.{vars_of};
ghost use Rattle.seuss_program.specs.Values.{value};
ghost use Rattle.seuss_program.specs.Bodies.{Callee, arguments, body, branched, call_with, evaluated_into};
ghost use Rattle.seuss_program.specs.Bodies.{looped, statement};

/// What a statement does, by what the bodies inside it do.
pub fn statements_mean()
    ensures declares { (p : Program) (callee : Callee) (box : ℕ) (name : Ref) (kind : Kind) (e : Expr Ref)
        (state : State) (slots : List Value) (budget : ℕ) →
        statement p callee box (S.Let name kind e) state slots budget
        ≡ evaluated_into box name (value e (vars_of state box) slots) state slots budget }
    ensures assigns { (p : Program) (callee : Callee) (box : ℕ) (name : Ref) (e : Expr Ref) (state : State)
        (slots : List Value) (budget : ℕ) →
        statement p callee box (S.Assign name e) state slots budget
        ≡ evaluated_into box name (value e (vars_of state box) slots) state slots budget }
    ensures calls { (p : Program) (callee : Callee) (box : ℕ) (bind : Option Ref) (call : Call Ref)
        (state : State) (slots : List Value) (budget : ℕ) →
        statement p callee box (S.Call bind call) state slots budget
        ≡ call_with p callee box bind call (arguments call.args (vars_of state box) slots) state slots
        budget }
    ensures branches { (p : Program) (callee : Callee) (box : ℕ) (cond : Expr Ref)
        (holds fails : List (Statement Ref)) (state : State) (slots : List Value) (budget : ℕ) →
        statement p callee box (S.If cond holds fails) state slots budget
        ≡ branched (value cond (vars_of state box) slots) (body p callee box holds)
        (body p callee box fails) state slots budget }
    ensures loops { (p : Program) (callee : Callee) (box : ℕ) (cond : Expr Ref)
        (turn : List (Statement Ref)) (state : State) (slots : List Value) (budget : ℕ) →
        statement p callee box (S.While cond turn) state slots budget
        ≡ looped box budget cond (body p callee box turn) state slots budget }
{}
