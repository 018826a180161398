//! What the definitions of lists of properties say together.
ghost use Rattle.std.specs.Prelude.{◌≡◌, ℕ, List, Result};
ghost use Rattle.seuss_program.specs.declared.program.Program.{Program};
ghost use Rattle.safety_check.specs.declared.property.Property.{Property};
ghost use Rattle.safety_texts.specs.declared.refusal.PropertyRefusal.{PropertyRefusal as Refusal};
ghost use Rattle.safety_texts.specs.Verdicts.{IsVerdict, IsAnswered};

/// A text has one answer for a program, want of memory apart: one list of properties, or one refusal.
pub fn one_list()
    ensures { (p : Program) (text : List ℕ) (one other : Result (List Property) Refusal) →
        IsVerdict p text one → IsVerdict p text other → IsAnswered one → IsAnswered other → one ≡ other }
{
    seuss_text::one_fault();
    seuss_text::one_reading();
    seuss_text::tokens_have_kinds();
    seuss_parser::one_expression();
}
