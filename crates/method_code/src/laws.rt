//! Laws of compiled code.

ghost use Rattle.std.specs.Prelude.{◌≡◌, ◌+◌, ◌*◌, ◌≤◌, ℕ, suc, true, false, List, [], ◌∷◌, ◌++◌, length};
ghost use Rattle.std.specs.Prelude.{slice_get, option_map, Option, Some, IsTrue};
ghost use Rattle.std.specs.List.{flat_map, list_any};
ghost use Rattle.seuss_base.specs.declared.outcome.PassEnd.{PassEnd};
ghost use Rattle.seuss_base.specs.declared.outcome.PassEnd.TheVariants.{PlainRejected};
ghost use Rattle.seuss_program.specs.declared.program.Program.{Program};
ghost use Rattle.seuss_program.specs.declared.program.ActionInfo.{ActionInfo};
ghost use Rattle.seuss_program.specs.declared.state.State.{State};
ghost use Rattle.seuss_program.specs.declared.state.Value.{Value};
ghost use Rattle.seuss_program.specs.declared.tree.Call.{Call};
ghost use Rattle.seuss_program.specs.declared.tree.Expr.{Expr};
ghost use Rattle.seuss_program.specs.declared.tree.Form.{Form};
ghost use Rattle.seuss_program.specs.declared.tree.Kind.{Kind};
ghost use Rattle.seuss_program.specs.declared.tree.Proc.{Proc};
ghost use Rattle.seuss_program.specs.declared.tree.Ref.{Ref};
ghost use Rattle.seuss_program.specs.declared.tree.Statement.{Statement};
ghost use Rattle.seuss_program.specs.declared.tree.Statement.TheVariants as S;
ghost use Rattle.seuss_program.specs.Programs.{level_of, procedure_of, vars_of};
ghost use Rattle.seuss_program.specs.Attempts.{action_attempt, attempt, entry_slots};
ghost use Rattle.seuss_program.specs.Keeping.{Keeps, Scope, form_fits, is_total};
ghost use Rattle.seuss_program.specs.Lines.{IsIn, body_calls, early_calls};
ghost use Rattle.method_code.specs.declared.instruction.CallCode.{CallCode};
ghost use Rattle.method_code.specs.declared.instruction.Instruction.TheVariants.{Set, Call as CallOf, Take};
ghost use Rattle.method_code.specs.declared.method.Head.{Head};
ghost use Rattle.method_code.specs.declared.method.Method.{Method};
ghost use Rattle.method_code.specs.declared.frame.Frame.{Frame};
ghost use Rattle.method_code.specs.declared.frame.End.TheVariants.{Rejected, RejectedPlain};
ghost use Rattle.method_code.specs.declared.activation.Activation.{Activation};
ghost use Rattle.method_code.specs.Codes.{call_code, code_of, compiled, entry_of, form_code, if_code};
ghost use Rattle.method_code.specs.Codes.{method_code, number_of, while_code};
ghost use Rattle.method_code.specs.Steps.{step, entry, leaves, runs};
ghost use Rattle.method_code.specs.Chains.{Next, Over, Passed, begun, chain, turned};
ghost use Rattle.method_code.specs.Passes.{EndsAs};
ghost use Rattle.method_code.specs.Kinds.{steps_made, pass_end, kinds_of, IsAction, IsInOrder, AllIdle};
ghost use Rattle.method_code.specs.Kinds.{Made, is_plain, rejects_plainly, calls_early, OnlyReads};
ghost use Rattle.method_code.specs.Singles.{IsRun, is_single, is_plainly_rejected};
ghost use Rattle.method_code.specs.Frames.{IsFrame, HasVars, FitsStep};
ghost use Rattle.method_code.specs.OwnSteps.{EachMade, FindsVars, IsOwnStep, MayMake};
ghost use Rattle.method_code.specs.Records.{Recorded, ChainsTo, AreMade, FrontMade, Makes, made_of};
ghost use Rattle.method_code.specs.CallsOfTexts.{heads_of, IsCallAmong, CallsByText, IsBodyCall};
ghost use Rattle.method_code.specs.CallsOfTexts.{IsHeadCall};
ghost use Rattle.method_code.specs.Records.{LeadsTo, IsStepFrom};

use meaning_laws::forms::places_are_there;
use meaning_laws::kinds::{names_are_there, values_have_kinds};

/// A chain of steps is the attempt. It is over after two steps for each 1 of the budget, two for each
/// level below the box of the action, and one more: with a budget of at most 1,000,000 after 2,000,300.
pub fn chain_is_attempt()
    ensures by_budget { (p : Program) (a : ActionInfo) (state : State) (budget steps : ℕ) → Keeps p →
        2 * budget + 2 * level_of p a.box_number + 1 ≤ steps →
        EndsAs (chain p steps (begun p a) state budget) (action_attempt p (Some a) state budget) }
    ensures at_most { (p : Program) (a : ActionInfo) (state : State) (budget steps : ℕ) → Keeps p →
        budget ≤ 1000000 → 2000300 ≤ steps →
        EndsAs (chain p steps (begun p a) state budget) (action_attempt p (Some a) state budget) }
{}

/// A pass is over in time, whatever variables each of its steps finds.
pub fn pass_is_over_in_time()
    ensures by_budget { (p : Program) (a : ActionInfo) (row : List (List Value)) (budget : ℕ) → Keeps p →
        2 * budget + 2 * level_of p a.box_number + 1 ≤ length row →
        (end : PassEnd) × (pass_end p row (begun p a) budget ≡ Some end) }
    ensures at_most { (p : Program) (a : ActionInfo) (row : List (List Value)) (budget : ℕ) → Keeps p →
        budget ≤ 1000000 → 2000300 ≤ length row →
        (end : PassEnd) × (pass_end p row (begun p a) budget ≡ Some end) }
{}

/// A finished pass of an action has one commit step, with early steps before it and late ones after it.
pub fn pass_commits_once()
    ensures { (p : Program) (a : ActionInfo) (row : List (List Value)) (budget : ℕ) (end : PassEnd) →
        Keeps p →
        IsAction p a → pass_end p row (begun p a) budget ≡ Some end →
        IsInOrder (kinds_of (compiled p) (steps_made p row (begun p a) budget)) }
{}

/// A finished pass of an action is plainly rejected exactly where one of its steps is a plain rejection.
/// Then it has changed nothing.
pub fn plain_pass_is_idle()
    ensures exactly { (p : Program) (a : ActionInfo) (row : List (List Value)) (budget : ℕ) (end : PassEnd)
        → Keeps p →
        IsAction p a → pass_end p row (begun p a) budget ≡ Some end →
        is_plain end ≡ list_any (λ (s : Made). rejects_plainly s.stepped.end)
        (steps_made p row (begun p a) budget) }
    ensures idle { (p : Program) (a : ActionInfo) (row : List (List Value)) (budget : ℕ) → Keeps p →
        IsAction p a → pass_end p row (begun p a) budget ≡ Some PlainRejected →
        AllIdle (steps_made p row (begun p a) budget) }
{}

/// A step that calls a preprocedure, and one that plainly rejects, isn't late and only reads. A step from an
/// instruction is no such step.
pub fn early_step_is_idle()
    ensures early { (code : List Method) (frame : Frame) (budget : ℕ) (vars : List Value) →
        calls_early (step code frame budget vars).end ≡ true →
        OnlyReads code frame budget vars (step code frame budget vars) }
    ensures plain { (code : List Method) (frame : Frame) (budget : ℕ) (vars : List Value) →
        (step code frame budget vars).end ≡ RejectedPlain →
        OnlyReads code frame budget vars (step code frame budget vars) }
    ensures instruction { (m : Method) (method budget at : ℕ) (vars slots : List Value) →
        (calls_early (runs m method budget at vars slots).end ≡ false)
        × (rejects_plainly (runs m method budget at vars slots).end ≡ false) }
{}

/// From the rejection place of a procedure a step only ends rejected, and changes nothing.
pub fn rejection_place_only_rejects()
    ensures { (p : Program) (box number : ℕ) (q : Proc Ref) (slots : List Value) (budget : ℕ)
        (vars : List Value) →
        procedure_of p box number ≡ Some q → is_total q.form ≡ false →
        step (compiled p) (record { method = number_of p box number; place = 1; slots = slots }) budget vars
        ≡ leaves (number_of p box number) budget vars Rejected }
{}

/// The actions of a program are actions of their boxes.
pub fn actions_are_actions()
    ensures { (p : Program) (number : ℕ) (a : ActionInfo) → Keeps p → slice_get p.actions number ≡ Some a →
        IsAction p a }
{}

/// For a procedure without preprocedures, calls and loops the one step from its entry is its run.
pub fn single_step_is_run()
    ensures { (p : Program) (depth box number : ℕ) (q : Proc Ref) (args : List Value) (state : State)
        (budget : ℕ) →
        procedure_of p box number ≡ Some q → IsTrue (is_single q.form) →
        IsRun (step (compiled p) (entry (compiled p) (number_of p box number) args) budget
        (vars_of state box))
        box state budget (attempt p (suc depth) box number args state budget) }
{}

/// A step from an entry rejects plainly exactly where no precondition holds.
pub fn plain_rejection_is_told()
    ensures { (p : Program) (box number : ℕ) (q : Proc Ref) (args : List Value) (vars : List Value)
        (budget : ℕ) →
        procedure_of p box number ≡ Some q →
        rejects_plainly (step (compiled p) (entry (compiled p) (number_of p box number) args) budget
        vars).end
        ≡ is_plainly_rejected q.form vars (entry_slots q args) }
{}

/// A step from a frame of the code keeps the form of the variables: their kinds, and numbers of 64 bits. At
/// a call its procedure waits at a frame of its own, and the call has its arguments; a returned number has
/// 64 bits.
pub fn step_keeps_form()
    ensures { (p : Program) (box : ℕ) (frame : Frame) (budget : ℕ) (vars : List Value) → Keeps p →
        (is : IsFrame p box frame) → HasVars p box vars →
        FitsStep p box is.number (step (compiled p) frame budget vars) }
{
    values_have_kinds();
    names_are_there();
    places_are_there();
}

/// A pass of an action whose steps find variables of their boxes stays among the frames of that action's
/// line and tail.
pub fn pass_stays_among_its_own()
    ensures own { (p : Program) (a : ActionInfo) (row : List (List Value)) (budget : ℕ) → Keeps p →
        IsAction p a →
        EachMade (FindsVars p) (steps_made p row (begun p a) budget) →
        EachMade (IsOwnStep p a) (steps_made p row (begun p a) budget) }
    ensures may { (p : Program) (a : ActionInfo) (row : List (List Value)) (budget : ℕ) → Keeps p →
        IsAction p a →
        EachMade (FindsVars p) (steps_made p row (begun p a) budget) →
        EachMade (MayMake p a) (steps_made p row (begun p a) budget) }
{
    values_have_kinds();
    names_are_there();
    places_are_there();
}

/// At the number of a procedure stands its code, and nothing where there is no such procedure.
pub fn code_of_each_procedure()
    ensures { (p : Program) (box number : ℕ) →
        slice_get (compiled p) (number_of p box number) ≡ option_map method_code (procedure_of p box number) }
{}

/// What the code of a procedure calls its text calls: an instruction a call in a body, an alternative its
/// preprocedure, and so each step, wherever in the procedure it begins.
pub fn code_calls_what_its_text_calls()
    ensures instructions { (p : Program) (box number : ℕ) (q : Proc Ref) (call : CallCode) → Keeps p →
        procedure_of p box number ≡ Some q → IsIn (CallOf call) (form_code q.form) →
        IsCallAmong (body_calls q.form) call.target call.method }
    ensures alternatives { (p : Program) (box number : ℕ) (q : Proc Ref) (head : Head) (call : CallCode) →
        Keeps p → procedure_of p box number ≡ Some q → IsIn head (heads_of (entry_of q.form)) →
        head.early ≡ Some call → IsCallAmong (early_calls q.form) call.target call.method }
    ensures steps { (p : Program) (box number : ℕ) (q : Proc Ref) (frame : Frame) (budget : ℕ)
        (vars : List Value) → Keeps p → procedure_of p box number ≡ Some q →
        frame.method ≡ number_of p box number →
        CallsByText q.form (step (compiled p) frame budget vars).end }
{}

/// What a text that fits calls its code calls, and the call fits, too.
pub fn text_calls_are_in_the_code()
    ensures bodies { (s : Scope) (f : Form Ref) (call : Call Ref) → IsTrue (form_fits s f) →
        IsIn call (body_calls f) → IsBodyCall s call (form_code f) }
    ensures preprocedures { (s : Scope) (f : Form Ref) (call : Call Ref) → IsTrue (form_fits s f) →
        IsIn call (early_calls f) → IsHeadCall s call (heads_of (entry_of f)) }
{}

/// The code of each statement, by the codes of the statements inside it.
pub fn code_of_each_statement()
    ensures declares { (name : Ref) (kind : Kind) (e : Expr Ref) →
        code_of (S.Let name kind e) ≡ Set name e ∷ [] }
    ensures assigns { (name : Ref) (e : Expr Ref) → code_of (S.Assign name e) ≡ Set name e ∷ [] }
    ensures calls { (bind : Option Ref) (call : Call Ref) →
        code_of (S.Call bind call) ≡ CallOf (call_code call) ∷ Take bind ∷ [] }
    ensures branches { (cond : Expr Ref) (holds fails : List (Statement Ref)) →
        code_of (S.If cond holds fails) ≡ if_code cond (flat_map code_of holds) (flat_map code_of fails) }
    ensures loops { (cond : Expr Ref) (turn : List (Statement Ref)) →
        code_of (S.While cond turn) ≡ while_code cond (flat_map code_of turn) }
{}

/// Recorded steps that chain, each made from some variables, are the steps of a pass that finds these
/// variables, and so is a front of them; made in turn on the boxes of a state they are its chain.
pub fn recorded_steps_are_a_pass()
    ensures front { (p : Program) (a : Activation) (budget : ℕ) (es : List Recorded)
        (row : List (List Value)) (end : PassEnd) → ChainsTo p a budget es end →
        FrontMade (compiled p) es row → steps_made p row a budget ≡ made_of p es row }
    ensures end { (p : Program) (a : Activation) (budget : ℕ) (es : List Recorded) (row : List (List Value))
        (end : PassEnd) → ChainsTo p a budget es end → AreMade (compiled p) es row →
        pass_end p row a budget ≡ Some end }
    ensures steps { (p : Program) (a : Activation) (budget : ℕ) (es : List Recorded)
        (row : List (List Value)) (end : PassEnd) → ChainsTo p a budget es end →
        AreMade (compiled p) es row → steps_made p row a budget ≡ made_of p es row }
    ensures chain { (p : Program) (a : Activation) (budget : ℕ) (es : List Recorded) (end : PassEnd)
        (s t : State) → ChainsTo p a budget es end → Makes p s es t →
        (left : ℕ) × (chain p (length es) a s budget
        ≡ Some (record { end = end; state = t; budget = left })) }
{}

/// A pass that is over after some steps is over so after more.
pub fn chain_is_over_for_good()
    ensures { (p : Program) (n k : ℕ) (a : Activation) (s : State) (budget : ℕ) (passed : Passed) →
        chain p n a s budget ≡ Some passed → chain p (n + k) a s budget ≡ Some passed }
{}

/// One more step of an open pass leads it on, or ends it.
pub fn open_pass_goes_on()
    ensures on { (p : Program) (a b next : Activation) (budget left : ℕ) (es : List Recorded)
        (e : Recorded) → LeadsTo p a budget es b left → IsStepFrom b left e →
        turned p (record b { frame = e.after }) e.end ≡ Next next →
        LeadsTo p a budget (es ++ e ∷ []) next e.budget_after }
    ensures over { (p : Program) (a b : Activation) (budget left : ℕ) (es : List Recorded) (e : Recorded)
        (end : PassEnd) → LeadsTo p a budget es b left → IsStepFrom b left e →
        turned p (record b { frame = e.after }) e.end ≡ Over end →
        ChainsTo p a budget (es ++ e ∷ []) end }
{}
