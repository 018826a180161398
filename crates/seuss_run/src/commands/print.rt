//! The command `print`.

ghost use Rattle.std.specs.Prelude.{◌≤◌, length};
ghost use Rattle.seuss_print.specs.Printable.{IsPrintable};
ghost use Rattle.seuss_run.specs.Loadings.{Performs};
ghost use Rattle.seuss_run.specs.Stages.{◌>=>◌, makes};
ghost use Rattle.seuss_run.specs.Verdicts.{has_tree_alone, Printing};
ghost use Rattle.seuss_run.specs.declared.reading.TheConstants.{MOST_BYTES};

use crate::answer::Answer;
use crate::halt::Halt;
use crate::loading::load_tree;
use crate::words::Command;
use seuss_print::print;
use seuss_program::Tree;
use std::alloc::Global;

/// Prints a tree.
fn spell(alloc: Global, tree: &Tree) -> Result<Answer, Halt>
    requires { IsPrintable tree.now }
    ensures { Performs Command.Print (makes Printing) tree.now result }
{
    Ok(Answer {
        status: 0,
        text: print(alloc, tree)?,
    })
}

/// What the command does with the bytes that were read.
pub(crate) fn perform(alloc: Global, bytes: &[u8]) -> Result<Answer, Halt>
    requires { length bytes.now ≤ MOST_BYTES }
    ensures { Performs Command.Print (has_tree_alone >=> makes Printing) bytes.now result }
{
    let tree = load_tree(alloc, bytes)?;
    spell(alloc, &tree)
}
