//! The checks of a tree in their order, and the tree with its program.
ghost use Rattle.std.specs.Prelude.{◌≡◌};
ghost use Rattle.seuss_program.specs.declared.tree.Tree.{Tree as TheTree};
ghost use Rattle.seuss_program.specs.WellFormed.{IsWellFormed};
ghost use Rattle.box_types.specs.BuiltInTexts.{with_built_ins as with_cats};
ghost use Rattle.box_types.specs.Faults.{test_of};
ghost use Rattle.box_types.specs.Namings.{named};
ghost use Rattle.box_types.specs.Refusals.{IsAccepted, Refuses, Judges, Resolves, refusal_of};
ghost use Rattle.box_types.specs.Walks.{found};

use crate::built_in_texts::{with_built_ins, without_built_ins};
use crate::checking::{Check, Stop};
use crate::naming_cats::make_program;
use crate::refusal::CheckRefusal;
use crate::walk_cats::walk_tree;
use seuss_program::{Program, Tree};
use std::alloc::Global;
use std::marker::Model;

/// A text that passes the checks, with the program that it stands for. Contracts see it as its tree.
#[derive(Debug, Drop)]
pub struct Resolved {
    tree: Tree,
    program: Program,
}

impl Model for Resolved {
    ghost use Rattle.std.specs.Prelude.{◌≡◌};
    ghost use Rattle.seuss_program.specs.declared.tree.Tree.{Tree as TheTree};
    ghost use Rattle.seuss_program.specs.contracts.tree.Tree as tree_row;
    ghost use Rattle.seuss_program.specs.WellFormed.{IsWellFormed};
    ghost use Rattle.box_types.specs.Namings.{named};
    ghost use Rattle.box_types.specs.Refusals.{IsAccepted};

    ghost Value = { TheTree };

    ghost coded = { tree_row.the_row.coded };

    ghost view = { λ r. r.tree };

    ghost invariant = { λ r. IsWellFormed r.tree × IsAccepted r.tree × (r.program ≡ named r.tree) };
}

impl Resolved {
    /// The tree, and its program, in which all levels are 0.
    pub fn into_parts(self) -> (Tree, Program)
        ensures tree { result.0 ≡ self }
        ensures program { result.1 ≡ named self }
        ensures well_formed { IsWellFormed self }
        ensures accepted { IsAccepted self }
    {
        let Resolved { tree, program } = self;
        (tree, program)
    }
}

/// The refusal of a check that stopped.
pub(crate) fn refusal(check: Check, line: u32) -> CheckRefusal
    ensures { result ≡ refusal_of check line }
{
    match check {
        Check::Twice => CheckRefusal::Twice(line),
        Check::Unknown => CheckRefusal::Unknown(line),
        Check::WrongKind => CheckRefusal::WrongKind(line),
        Check::WrongType => CheckRefusal::WrongType(line),
        Check::Arguments => CheckRefusal::Arguments(line),
        Check::Count => CheckRefusal::Count(line),
    }
}

/// Makes one check of a text with the built-in cats in front.
fn make_check(alloc: Global, check: Check, whole: &Tree) -> Result<(), CheckRefusal>
    ensures { Refuses check result (found (test_of check) whole.now) }
{
    match walk_tree(alloc, check, whole) {
        Ok(()) => Ok(()),
        Err(Stop::Line(line)) => Err(refusal(check, line)),
        Err(Stop::Memory) => Err(CheckRefusal::Memory),
    }
}

/// Makes the checks of a text with the built-in cats in front, up to the first that fails.
#[tactic(auto, using(crate::proofs::Judged::judging))]
fn judge(alloc: Global, whole: &Tree) -> Result<(), CheckRefusal>
    ensures { (tree : TheTree) → whole.now ≡ with_cats tree → Judges result tree }
{
    make_check(alloc, Check::Twice, whole)?;
    make_check(alloc, Check::Unknown, whole)?;
    make_check(alloc, Check::WrongKind, whole)?;
    make_check(alloc, Check::WrongType, whole)?;
    make_check(alloc, Check::Arguments, whole)?;
    make_check(alloc, Check::Count, whole)
}

/// Makes the checks of a tree, in their order, and the program that it stands for. A refusal is the first
/// check that fails, by the line of its first place.
pub fn resolve(alloc: Global, tree: Tree) -> Result<Resolved, CheckRefusal>
    requires { IsWellFormed tree }
    ensures { Resolves result tree }
{
    let whole = with_built_ins(alloc, tree)?;
    judge(alloc, &whole)?;
    let program = make_program(alloc, &whole)?;
    Ok(Resolved {
        tree: without_built_ins(whole),
        program,
    })
}
