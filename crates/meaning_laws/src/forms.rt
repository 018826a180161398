//! States keep the form of the program, and slots their kinds.

ghost use Rattle.std.specs.Prelude.{◌≡◌, ℕ, ℤ, true, List, length, slice_get, Some, None, IfSome, All};
ghost use Rattle.std.specs.Prelude.{IsTrue};
ghost use Rattle.seuss_program.specs.declared.program.Program.{Program};
ghost use Rattle.seuss_program.specs.declared.state.State.{State};
ghost use Rattle.seuss_program.specs.declared.state.Value.{Value};
ghost use Rattle.seuss_program.specs.declared.state.Value.TheVariants.{Int};
ghost use Rattle.seuss_program.specs.declared.tree.Cat.{Cat};
ghost use Rattle.seuss_program.specs.declared.tree.Proc.{Proc};
ghost use Rattle.seuss_program.specs.declared.tree.Ref.{Ref};
ghost use Rattle.seuss_program.specs.declared.tree.Statement.{Statement};
ghost use Rattle.seuss_program.specs.Values.{fits};
ghost use Rattle.seuss_program.specs.Programs.{cat_of, procedure_of, vars_of};
ghost use Rattle.seuss_program.specs.Bodies.{statement, body};
ghost use Rattle.seuss_program.specs.Attempts.{action_attempt, attempt, entry_slots, result_of, tight};
ghost use Rattle.seuss_program.specs.Initials.{initial};
ghost use Rattle.seuss_program.specs.Keeping.{AreOf, HasForm, Keeps, body_fits, param_kinds, scope_of};
ghost use Rattle.seuss_program.specs.Keeping.{slot_kinds};
ghost use Rattle.seuss_program.specs.Keeping.{statement_fits};
ghost use Rattle.meaning_laws.specs.Forms.{AreFormed, HasResult, LeavesFormed};

/// A statement or a body that fits the text of its procedure leaves a state of the program's form and slots
/// of their kinds, where it began with such ones, however deep its calls may go.
pub fn bodies_keep_form()
    ensures statements { (p : Program) (depth box : ℕ) (c : Cat Ref) (q : Proc Ref)
        (s : Statement Ref) (state : State) (slots : List Value) (budget : ℕ) →
        Keeps p → cat_of p box ≡ Some c → IsTrue (statement_fits (scope_of p.cats c q) s) →
        AreFormed p q state slots →
        LeavesFormed p q (statement p (attempt p depth) box s state slots budget) }
    ensures bodies { (p : Program) (depth box : ℕ) (c : Cat Ref) (q : Proc Ref)
        (ss : List (Statement Ref)) (state : State) (slots : List Value) (budget : ℕ) →
        Keeps p → cat_of p box ≡ Some c → IsTrue (body_fits (scope_of p.cats c q) ss) →
        AreFormed p q state slots →
        LeavesFormed p q (body p (attempt p depth) box ss state slots budget) }
{}

/// The variables of a box have their kinds in a state of the program's form, and so have the slots at an
/// entry where the arguments have those of the parameters. The result is the int in its slot, which is
/// there.
pub fn places_are_there()
    ensures variables { (p : Program) (box : ℕ) (c : Cat Ref) (q : Proc Ref) (state : State) →
        cat_of p box ≡ Some c → HasForm p state →
        AreOf (vars_of state box) (scope_of p.cats c q).vars }
    ensures entry { (q : Proc Ref) (args : List Value) → AreOf args (param_kinds q.params) →
        AreOf (entry_slots q args) (slot_kinds q) }
    ensures result { (q : Proc Ref) (slots : List Value) → AreOf slots (slot_kinds q) → q.gives ≡ true →
        (z : ℤ) × (slice_get slots (length q.params) ≡ Some (Int z)) × (result_of q slots ≡ Some z) }
{}

/// An attempt of a procedure with arguments of its parameters' kinds leaves a state of the program's form,
/// and has a result exactly where it is accepted and the procedure gives one. The result has 64 bits.
/// Attempts of actions and runs of them leave such a state, too.
pub fn attempts_keep_form()
    ensures state { (p : Program) (depth box number : ℕ) (q : Proc Ref) (args : List Value) (state : State)
        (budget : ℕ) →
        Keeps p → procedure_of p box number ≡ Some q → AreOf args (param_kinds q.params) →
        HasForm p state →
        HasForm p (attempt p depth box number args state budget).state }
    ensures result { (p : Program) (depth box number : ℕ) (q : Proc Ref) (args : List Value) (state : State)
        (budget : ℕ) →
        procedure_of p box number ≡ Some q → HasResult q (attempt p depth box number args state budget) }
    ensures fits { (p : Program) (depth box number : ℕ) (q : Proc Ref) (args : List Value) (state : State)
        (budget : ℕ) →
        Keeps p → procedure_of p box number ≡ Some q → AreOf args (param_kinds q.params) →
        HasForm p state →
        IfSome (attempt p depth box number args state budget).result (λ z. IsTrue (fits z)) }
    ensures action { (p : Program) (action : ℕ) (state : State) (budget : ℕ) → Keeps p → HasForm p state →
        HasForm p (action_attempt p (slice_get p.actions action) state budget).state }
    ensures action_result { (p : Program) (action : ℕ) (state : State) (budget : ℕ) → Keeps p →
        (action_attempt p (slice_get p.actions action) state budget).result ≡ None }
    ensures run { (p : Program) (actions : List ℕ) (state : State) (budget : ℕ) → Keeps p → HasForm p state →
        HasForm p (tight p actions state budget).state }
{}

/// A checked program starts in a state of its form, with any input of numbers of 64 bits.
pub fn starts_in_form()
    ensures { (p : Program) (input : List ℤ) → Keeps p → All (λ z. IsTrue (fits z)) input →
        HasForm p (initial p input) }
{}
