//! What the effects of a procedure mean for its steps.

ghost use Rattle.std.specs.Prelude.{◌≡◌, ℕ, ◌<◌, ◌⊎◌, Some, true, false, List, slice_get};
ghost use Rattle.seuss_program.specs.declared.program.Program.{Program};
ghost use Rattle.seuss_program.specs.declared.tree.Ref.{Ref};
ghost use Rattle.seuss_program.specs.declared.tree.Expr.{Expr};
ghost use Rattle.seuss_program.specs.declared.tree.Proc.{Proc};
ghost use Rattle.seuss_program.specs.declared.state.Value.{Value};
ghost use Rattle.seuss_program.specs.Programs.{procedure_of};
ghost use Rattle.seuss_program.specs.Values.{value};
ghost use Rattle.seuss_program.specs.Bodies.{arguments};
ghost use Rattle.seuss_program.specs.Keeping.{is_total};
ghost use Rattle.method_code.specs.declared.method.Method.{Method};
ghost use Rattle.method_code.specs.declared.frame.Frame.{Frame};
ghost use Rattle.method_code.specs.Codes.{compiled, method_code};
ghost use Rattle.method_code.specs.Frames.{IsPlace};
ghost use Rattle.method_code.specs.Kinds.{is_late};
ghost use Rattle.method_code.specs.Beside.{MayBegin};
ghost use Rattle.effect_sets.specs.Effects.{mentions, any_mentions, has_late};
ghost use Rattle.effect_sets.specs.Depends.{Agree, StaysInSets, EarlyStaysInTests};

/// The value of an expression, and those of arguments, depend on the variables that stand in them.
pub fn values_depend_on_mentions()
    ensures expression { (e : Expr Ref) (vars others slots : List Value) →
        Agree (λ v. mentions v e) vars others →
        value e vars slots ≡ value e others slots }
    ensures arguments { (es : List (Expr Ref)) (vars others slots : List Value) →
        Agree (λ v. any_mentions v es) vars others →
        arguments es vars slots ≡ arguments es others slots }
{}

/// A step of a procedure, from whatever frame, depends on the variables that the procedure reads, and
/// changes none but those that it writes.
pub fn step_stays_in_sets()
    ensures { (code : List Method) (q : Proc Ref) (frame : Frame) (budget : ℕ) →
        slice_get code frame.method ≡ Some (method_code q) → StaysInSets code q.form frame budget }
{}

/// An early step of a procedure depends on the variables that the procedure tests, and changes none.
pub fn early_step_stays_in_tests()
    ensures { (code : List Method) (q : Proc Ref) (frame : Frame) (budget : ℕ) →
        slice_get code frame.method ≡ Some (method_code q) → EarlyStaysInTests code q.form frame budget }
{}

/// A place of a procedure other than its entry is one behind a call, or the one at which it goes on where
/// a preprocedure rejected.
pub fn later_places_are_behind_calls()
    ensures { (q : Proc Ref) (place : ℕ) (slots : List Value) → 0 < place → IsPlace q place slots →
        (has_late q.form ≡ true) ⊎ ((place ≡ 1) × (is_total q.form ≡ false)) }
{}

/// A late step is one of a total method, one behind a call, or one from the place at which a procedure goes
/// on where a preprocedure rejected.
pub fn late_steps_are_behind_calls()
    ensures { (p : Program) (box number : ℕ) (q : Proc Ref) (frame : Frame) →
        procedure_of p box number ≡ Some q →
        MayBegin p box number q frame → is_late (compiled p) frame ≡ true →
        (is_total q.form ≡ true) ⊎
        ((has_late q.form ≡ true) ⊎ ((frame.place ≡ 1) × (is_total q.form ≡ false))) }
{}
