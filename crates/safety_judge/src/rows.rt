//! The cases of a procedure by number.

ghost use Rattle.std.specs.Prelude.{◌≡◌, ◌*◌, ◌≤◌, min, map, length, IfOk};
ghost use Rattle.safety_check.specs.Cases as cases;
ghost use Rattle.safety_judge.specs.Rows as meant;

use crate::choices::Choices;
use safety_check::{Frame, Region};
use seuss_base::{List, Memory};
use std::alloc::Global;

/// One more than the greatest number of cases that are looked at.
const CAP: u64 = 4_097;

/// A product, up to the cap.
fn times(a: u64, b: u64) -> u64
    requires { a ≤ 4097 }
    ensures { result ≡ min 4097 (a * b) }
{
    (a * b.min(CAP)).min(CAP)
}

/// How many rows there are, up to the cap.
fn count_rows(choices: &[List<Region>]) -> u64
    ensures { result ≡ min 4097 (cases.product (map length choices.now)) }
{
    let mut product = 1u64;
    for regions in choices {
        product = times(product, regions.len());
    }
    product
}

/// How many cases there are, up to the cap.
pub(crate) fn count(choices: &Choices) -> u64
    ensures { result ≡ min 4097 (cases.product (map length choices.now.vars)
        * cases.product (map length choices.now.slots)) }
{
    let vars = count_rows(choices.vars.as_slice());
    times(vars, count_rows(choices.slots.as_slice()))
}

/// How many digits a place has.
fn base(choices: &List<Region>) -> u64
    ensures { result ≡ meant.base choices.now }
{
    choices.len().max(1)
}

/// The region that a number picks at a place.
fn picked(choices: &List<Region>, number: u64) -> Region
    ensures { result ≡ meant.picked choices.now number }
{
    match choices.as_slice().get((number % base(choices)) as usize) {
        Some(r) => *r,
        None => Region::Anything,
    }
}

/// One region of each, by the digits of a number.
fn row_at(alloc: Global, choices: &[List<Region>], number: u64) -> Result<List<Region>, Memory>
    ensures { IfOk result (λ row. row ≡ meant.row_at choices.now number) }
{
    let mut row = List::new(alloc);
    let mut left = number;
    for regions in choices {
        row.push(picked(regions, left))?;
        left = left / base(regions);
    }
    Ok(row)
}

/// What is left of a number behind the digits of some places.
fn left_of(choices: &[List<Region>], number: u64) -> u64
    ensures { result ≡ meant.left_of choices.now number }
{
    let mut left = number;
    for regions in choices {
        left = left / base(regions);
    }
    left
}

/// The frame of a number.
pub(crate) fn frame_at(alloc: Global, choices: &Choices, number: u64) -> Result<Frame, Memory>
    ensures { IfOk result (λ frame. frame ≡ meant.frame_at choices.now number) }
{
    let vars = row_at(alloc, choices.vars.as_slice(), number)?;
    let left = left_of(choices.vars.as_slice(), number);
    let slots = row_at(alloc, choices.slots.as_slice(), left)?;
    Ok(Frame { vars, slots })
}
