//! Whole trees in the canonical text.

ghost use Rattle.std.specs.Prelude.{◌≡◌, ◌++◌, All, IfOk, OnOk};
ghost use Rattle.std.specs.List.{flat_map};
ghost use Rattle.seuss_parser.specs.Spelling.{Spells};
ghost use Rattle.seuss_program.specs.declared.tree.Tree.{Tree as Parsed};
ghost use Rattle.seuss_print.specs.Items.{text_of};
ghost use Rattle.seuss_print.specs.Lines.{SameUpToLines};
ghost use Rattle.seuss_print.specs.Canonical.{cat, box, canonical_text};
ghost use Rattle.seuss_print.specs.Printable.{IsPrintable, IsKeptCat};

use crate::declarations::{push_box, push_cat};
use crate::numbers::push_number;
use seuss_base::{Memory, Text};
use seuss_program::{BoxDecl, Cat, Name, Tree};
use std::alloc::Global;

/// The version of the notation.
const VERSION: i64 = 1;

/// The canonical text of a tree: one text for all trees that differ in lines alone.
pub fn print(alloc: Global, tree: &Tree) -> Result<Text, Memory>
    requires { IsPrintable tree.now }
    ensures text { IfOk result (λ text. text ≡ canonical_text tree.now) }
    ensures spells { IfOk result
        (λ text. (other : Parsed) × Spells text other × SameUpToLines tree.now other) }
{
    let mut text = Text::new(alloc);
    push_tree(&mut text, tree)?;
    Ok(text)
}

/// Puts a tree at the end.
fn push_tree(text: &mut Text, tree: &Tree) -> Result<(), Memory>
    requires { IsPrintable tree.now }
    ensures { OnOk result (text.new ≡ text.old ++ canonical_text tree.now) }
{
    text.push_all(b"seuss ")?;
    push_number(text, VERSION)?;
    text.push(b'\n')?;
    push_cats(text, tree.cats.as_slice())?;
    push_boxes(text, tree.boxes.as_slice())
}

/// Puts cats at the end.
fn push_cats(text: &mut Text, cats: &[Cat<Name>]) -> Result<(), Memory>
    requires kept { All IsKeptCat cats.now }
    ensures { OnOk result (text.new ≡ text.old ++ text_of (flat_map cat cats.now)) }
{
    for c in cats {
        push_cat(text, c)?;
    }
    Ok(())
}

/// Puts boxes at the end.
fn push_boxes(text: &mut Text, boxes: &[BoxDecl]) -> Result<(), Memory>
    ensures { OnOk result (text.new ≡ text.old ++ text_of (flat_map box boxes.now)) }
{
    for b in boxes {
        push_box(text, b)?;
    }
    Ok(())
}
