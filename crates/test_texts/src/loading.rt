//! The program that a text spells, through all checks.

ghost use Rattle.std.specs.Prelude.{IfOk};
ghost use Rattle.seuss_print.specs.Printable.{IsPrintable};
ghost use Rattle.seuss_program.specs.Keeping.{Keeps};
ghost use Rattle.seuss_program.specs.WellFormed.{IsWellFormed};
ghost use Rattle.seuss_text.specs.Limits.{AreInLimits};
ghost use Rattle.seuss_text.specs.Rows.{AreTokens};

use box_types::{CheckRefusal, resolve};
use call_order::{OrderRefusal, order};
use seuss_parser::{ParseRefusal, parse};
use seuss_print::parsed_is_printable;
use seuss_program::{Program, Tree};
use seuss_text::{TextRefusal, Tokens, tokens};
use std::alloc::Global;
use thiserror::Error;

/// Why a text has no program.
#[derive(Debug, Drop, Error)]
pub enum Fault {
    #[error("tokens: {0}")]
    Tokens(TextRefusal),
    #[error("a tree: {0}")]
    Tree(ParseRefusal),
    #[error("names, types and counts: {0}")]
    Names(CheckRefusal),
    #[error("calls and boxes: {0}")]
    Calls(OrderRefusal),
}

/// The tree that the tokens of a text are.
fn tree_of(alloc: Global, text: &[u8], tokens: &Tokens) -> Result<Tree, Fault>
    requires tokens { AreTokens text.now tokens.now.list }
    requires limits { AreInLimits text.now tokens.now.list }
    ensures { IfOk result IsPrintable }
{
    parsed_is_printable();
    match parse(alloc, text, tokens) {
        Ok(tree) => Ok(tree),
        Err(refusal) => Err(Fault::Tree(refusal)),
    }
}

/// The program of a tree.
fn program_in(alloc: Global, tree: Tree) -> Result<Program, Fault>
    requires { IsWellFormed tree }
    ensures { IfOk result Keeps }
{
    match resolve(alloc, tree) {
        Ok(resolved) => order(alloc, resolved).map_err(Fault::Calls),
        Err(refusal) => Err(Fault::Names(refusal)),
    }
}

/// The program that a text spells.
pub fn program_of(alloc: Global, text: &[u8]) -> Result<Program, Fault>
    ensures { IfOk result Keeps }
{
    let tokens = tokens(alloc, text).map_err(Fault::Tokens)?;
    let tree = tree_of(alloc, text, &tokens)?;
    program_in(alloc, tree)
}
