//! The level of each box.

ghost use Rattle.std.specs.Prelude.{◌≡◌, ◌<◌, ◌≤◌, length, All, IfOk};
ghost use Rattle.call_order.specs.Cycles.{GivesBoxes, HasNoCycle};
ghost use Rattle.call_order.specs.Marks.{KnowsAllGiven};
ghost use Rattle.call_order.specs.LevelLists.{AreLevels, level_at, level_above, next_levels};

use seuss_base::{List, Memory};
use seuss_program::BoxInfo;
use std::alloc::Global;

/// The level of each box. Each round is right for the boxes that fewer boxes stand below than there
/// were rounds, so one round more than there are boxes is right for all.
pub(crate) fn levels(
    alloc: Global,
    boxes: &[BoxInfo],
    rows: &List<List<bool>>,
) -> Result<List<u32>, Memory>
    requires few { length boxes.now ≤ 128 }
    requires there { GivesBoxes boxes.now }
    requires known { KnowsAllGiven boxes.now rows.now }
    requires acyclic { HasNoCycle boxes.now }
    ensures { IfOk result (AreLevels boxes.now) }
{
    let mut levels = List::new(alloc);
    for _ in 0..boxes.len() + 1 {
        levels = next(alloc, boxes, &levels)?;
    }
    Ok(levels)
}

/// The levels of boxes above levels of boxes.
fn next(alloc: Global, boxes: &[BoxInfo], levels: &List<u32>) -> Result<List<u32>, Memory>
    requires { All (λ level. level < 1000) levels.now }
    ensures { IfOk result (λ next. next ≡ next_levels boxes.now levels.now) }
{
    let mut next = List::new(alloc);
    for info in boxes {
        next.push(above(info.given.as_slice(), levels))?;
    }
    Ok(next)
}

/// One more than the greatest level of these boxes, or 0 where there are none.
fn above(given: &[u32], levels: &List<u32>) -> u32
    requires { All (λ level. level < 1000) levels.now }
    ensures { result ≡ level_above levels.now given.now }
{
    let mut level = 0;
    for number in given {
        level = level.max(level_at(levels, *number) + 1);
    }
    level
}

fn level_at(levels: &List<u32>, number: u32) -> u32
    requires { All (λ level. level < 1000) levels.now }
    ensures value { result ≡ level_at levels.now number }
    ensures small { result < 1000 }
{
    match levels.as_slice().get(number as usize) {
        Some(level) => *level,
        None => 0,
    }
}
