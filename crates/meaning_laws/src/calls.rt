//! What calls go to.

ghost use Rattle.std.specs.Prelude.{◌≡◌, ℕ, Bool, Option, Some, IsTrue};
ghost use Rattle.seuss_program.specs.declared.program.Program.{Program};
ghost use Rattle.seuss_program.specs.declared.tree.Call.{Call};
ghost use Rattle.seuss_program.specs.declared.tree.Cat.{Cat};
ghost use Rattle.seuss_program.specs.declared.tree.Form.{Form};
ghost use Rattle.seuss_program.specs.declared.tree.Proc.{Proc};
ghost use Rattle.seuss_program.specs.declared.tree.Ref.{Ref};
ghost use Rattle.seuss_program.specs.Programs.{cat_of, procedure_of};
ghost use Rattle.seuss_program.specs.Keeping.{Keeps, scope_of, call_fits, called, form_fits};
ghost use Rattle.meaning_laws.specs.Calls.{GoesDown, Matches};

/// The text of each procedure of a box fits what it sees: the calls in it fit, too.
pub fn texts_fit()
    ensures { (p : Program) (box number : ℕ) (c : Cat Ref) (q : Proc Ref) → Keeps p →
        cat_of p box ≡ Some c → procedure_of p box number ≡ Some q →
        IsTrue (form_fits (scope_of p.cats c q) q.form) }
{}

/// A call that fits names a procedure that is there, of the wanted form, of a box on a lower level; its
/// arguments are a trap or values of the kinds of the parameters.
pub fn calls_are_there()
    ensures named { (p : Program) (box : ℕ) (c : Cat Ref) (q : Proc Ref) (form : Form Ref → Bool)
        (bind : Option Ref) (call : Call Ref) →
        IsTrue (call_fits (scope_of p.cats c q) form bind call) →
        (callee : Proc Ref) × (called (scope_of p.cats c q) call ≡ Some callee) }
    ensures there { (p : Program) (box : ℕ) (c : Cat Ref) (q : Proc Ref) (form : Form Ref → Bool)
        (bind : Option Ref) (call : Call Ref) (callee : Proc Ref) →
        Keeps p → cat_of p box ≡ Some c → IsTrue (call_fits (scope_of p.cats c q) form bind call) →
        called (scope_of p.cats c q) call ≡ Some callee → GoesDown p form box call callee }
    ensures matches { (p : Program) (box : ℕ) (c : Cat Ref) (q : Proc Ref) (form : Form Ref → Bool)
        (bind : Option Ref) (call : Call Ref) (callee : Proc Ref) →
        IsTrue (call_fits (scope_of p.cats c q) form bind call) →
        called (scope_of p.cats c q) call ≡ Some callee → Matches (scope_of p.cats c q) bind call callee }
{}
