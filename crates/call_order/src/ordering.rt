//! The checks of calls and of boxes, one after the other, and the program with its levels.

ghost use Rattle.std.specs.Prelude.{◌≡◌, ◌<◌, ◌≤◌, length, map, Some, IfOk};
ghost use Rattle.box_types.specs.Namings.{named};
ghost use Rattle.call_order.specs.Answers.{Orders, Levels, line_of};
ghost use Rattle.call_order.specs.Cycles.{GivesBoxes, given_of};
ghost use Rattle.seuss_program.specs.Keeping.{Keeps, above};
ghost use Rattle.seuss_program.specs.Programs.{level_of};

use crate::OrderRefusal;
use crate::calls::{first_partial_call, first_total_call};
use crate::cycles::{first_cyclic, given_rows};
use crate::levelling::with_levels;
use crate::levels::levels;
use box_types::Resolved;
use seuss_program::{BoxInfo, Program, Tree};
use std::alloc::Global;

/// The program of a text that passes the checks of names, kinds and types. Its refusals are tested in their
/// order: a body that calls a partial method, a preprocedure that is a total one, and a box that is given to
/// itself, each at its first place.
pub fn order(alloc: Global, resolved: Resolved) -> Result<Program, OrderRefusal>
    ensures answer { Orders result resolved }
    ensures keeps { IfOk result Keeps }
    ensures few { IfOk result (λ p. length p.actions ≤ 256) }
{
    let (tree, program) = resolved.into_parts();
    order_parts(alloc, &tree, program)
}

/// The level of a box: 0 where it is given none, else one more than the greatest level of its given boxes.
pub fn level_of(program: &Program, box_number: u32) -> u32
    requires { box_number < length program.now.boxes }
    ensures value { result ≡ level_of program.now box_number }
    ensures exact { Keeps program.now → result ≡ above
        (map (level_of program.now) (given_of program.now.boxes box_number)) }
{
    program.boxes.as_slice()[box_number as usize].level
}

/// The program of a tree, from the one in which all levels are 0.
fn order_parts(alloc: Global, tree: &Tree, program: Program) -> Result<Program, OrderRefusal>
    requires named { program ≡ named tree.now }
    requires few { length program.boxes ≤ 128 }
    ensures { Orders result tree.now }
{
    match first_partial_call(tree, program.cats.as_slice()) {
        Some(line) => Err(OrderRefusal::PartialCall(line)),
        None => match first_total_call(tree, program.cats.as_slice()) {
            Some(line) => Err(OrderRefusal::TotalCall(line)),
            None => set_levels(alloc, program),
        },
    }
}

/// A program with the levels of its boxes.
fn set_levels(alloc: Global, program: Program) -> Result<Program, OrderRefusal>
    requires few { length program.boxes ≤ 128 }
    requires there { GivesBoxes program.boxes }
    ensures { Levels result program }
{
    let rows = given_rows(alloc, program.boxes.as_slice())?;
    if let Some(first) = first_cyclic(program.boxes.as_slice(), &rows) {
        let line = line_at(program.boxes.as_slice(), first);
        return Err(OrderRefusal::Cycle { line, first });
    }
    let levels = levels(alloc, program.boxes.as_slice(), &rows)?;
    let Program {
        cats,
        boxes,
        actions,
    } = program;
    let boxes = with_levels(alloc, boxes, levels.as_slice())?;
    Ok(Program {
        cats,
        boxes,
        actions,
    })
}

/// The line on which a box is declared.
fn line_at(boxes: &[BoxInfo], number: u32) -> u32
    requires { number < length boxes.now }
    ensures { line_of boxes.now number ≡ Some result }
{
    boxes[number as usize].name.line
}
