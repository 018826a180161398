//! Laws of reading: words have one answer.

ghost use Rattle.std.specs.Prelude.{◌≡◌, ℕ, List, All, Result};
ghost use Rattle.seuss_parser.specs.Answers.{Parses, IsAnswered};
ghost use Rattle.seuss_parser.specs.SingleExpressions.{ParsesExpression, SaysOfWords};
ghost use Rattle.seuss_parser.specs.Spelling.{IsWord};
ghost use Rattle.seuss_parser.specs.declared.refusal.ParseRefusal.{ParseRefusal as Refusal};
ghost use Rattle.seuss_parser.specs.declared.word.Word.{Word as AWord};
ghost use Rattle.seuss_program.specs.declared.tree.Expr.{Expr};
ghost use Rattle.seuss_program.specs.declared.tree.Name.{Name as AName};
ghost use Rattle.seuss_program.specs.declared.tree.Tree.{Tree};

/// The words of a text have one answer, want of memory apart: one tree, or one place of a refusal.
pub fn one_answer()
    ensures { (words : List AWord) (one other : Result Tree Refusal) → All IsWord words →
        Parses one words → Parses other words → IsAnswered one → IsAnswered other → one ≡ other }
{}

/// The words of a text from a place on have one answer, want of memory apart: one expression and the place
/// behind it, or one place of a refusal.
pub fn one_expression()
    ensures { (words : List AWord) (from : ℕ) (one other : Result (Expr AName × ℕ) Refusal) →
        All IsWord words → ParsesExpression one words from → ParsesExpression other words from →
        SaysOfWords one → SaysOfWords other → one ≡ other }
{}
