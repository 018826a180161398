//! Laws of the canonical text: what is printable, and that parentheses stand where they are needed.

ghost use Rattle.std.specs.Prelude.{◌≡◌, ◌↔◌, ℕ, ◌≤◌, List, length, All};
ghost use Rattle.seuss_text.specs.Limits.{AreInLimits};
ghost use Rattle.seuss_text.specs.Rows.{AreTokens};
ghost use Rattle.seuss_text.specs.declared.token.Token.{Token};
ghost use Rattle.seuss_parser.specs.Spelling.{AreProgram, Spells};
ghost use Rattle.seuss_parser.specs.Words.{words_of};
ghost use Rattle.seuss_program.specs.declared.tree.Tree.{Tree};
ghost use Rattle.seuss_program.specs.declared.tree.Name.{Name};
ghost use Rattle.seuss_program.specs.declared.tree.Expr.{Expr};
ghost use Rattle.seuss_print.specs.Items.{tokens_in};
ghost use Rattle.seuss_print.specs.Expressions.{printed, expression, at_level};
ghost use Rattle.seuss_print.specs.Canonical.{program, canonical_text};
ghost use Rattle.seuss_print.specs.Lines.{SameUpToLines};
ghost use Rattle.seuss_print.specs.Places.{StandsAt};
ghost use Rattle.seuss_print.specs.Printable.{IsWithinLimit, IsPrintable};

use seuss_text::tokens_have_kinds;

/// Every tree that is read from the tokens of a text is printable.
pub fn parsed_is_printable()
    ensures { (text : List ℕ) (tokens : List Token) (tree : Tree) → AreTokens text tokens →
        AreInLimits text tokens → AreProgram (words_of text tokens) tree → IsPrintable tree }
{
    tokens_have_kinds();
}

/// Trees that differ in lines alone have one canonical text.
pub fn lines_dont_show()
    ensures { (tree other : Tree) → SameUpToLines tree other → canonical_text tree ≡ canonical_text other }
{}

/// No text that spells a tree, but for lines, has fewer tokens than its canonical text: without a pair of
/// its parentheses it would be another tree's, or none's.
pub fn fewest_tokens()
    ensures { (text : List ℕ) (tokens : List Token) (tree other : Tree) → AreTokens text tokens →
        AreInLimits text tokens → AreProgram (words_of text tokens) other → SameUpToLines tree other →
        length (tokens_in (program tree)) ≤ length tokens }
{
    tokens_have_kinds();
}

/// In each place of an expression a part is printed in parentheses exactly where its words without them are
/// not this part there.
pub fn parentheses_are_needed()
    ensures printed { (level : ℕ) (e : Expr Name) → level ≤ 7 →
        StandsAt level (tokens_in (at_level level (printed e))) e }
    ensures bare { (level : ℕ) (e : Expr Name) → level ≤ 7 → All IsWithinLimit (tokens_in (expression e)) →
        (at_level level (printed e) ≡ expression e) ↔ StandsAt level (tokens_in (expression e)) e }
{}
