//! Which boxes are given to themselves, through any number of boxes.

ghost use Rattle.std.specs.Prelude.{◌≡◌, ◌<◌, ◌≤◌, length, All, IfOk, IfSome, MatchOption};
ghost use Rattle.call_order.specs.Cycles.{given_of, GivesBoxes, IsFirstCyclic, HasNoCycle};
ghost use Rattle.call_order.specs.Marks.{no_marks, marked_with, spread_from, spread_below, spread_times};
ghost use Rattle.call_order.specs.Marks.{KnowsGiven, KnowsAllGiven};

use seuss_base::{List, Memory};
use seuss_program::BoxInfo;
use std::alloc::Global;

/// The first box by declaration that is given to itself, by the row of marks of each box.
pub(crate) fn first_cyclic(boxes: &[BoxInfo], rows: &List<List<bool>>) -> Option<u32>
    requires few { length boxes.now ≤ 128 }
    requires known { KnowsAllGiven boxes.now rows.now }
    ensures first { MatchOption result (HasNoCycle boxes.now) (IsFirstCyclic boxes.now) }
    ensures within { IfSome result (λ first. first < length boxes.now) }
{
    for number in 0..boxes.len() {
        if rows.as_slice()[number].as_slice()[number] {
            return Some(number as u32);
        }
    }
    None
}

/// For each box a row of marks: which boxes it is given, through any number of boxes.
pub(crate) fn given_rows(alloc: Global, boxes: &[BoxInfo]) -> Result<List<List<bool>>, Memory>
    requires { GivesBoxes boxes.now }
    ensures { IfOk result (KnowsAllGiven boxes.now) }
{
    let mut rows = List::new(alloc);
    for info in boxes {
        rows.push(given_row(alloc, boxes, info.given.as_slice())?)?;
    }
    Ok(rows)
}

/// Which boxes a box is given, through any number of boxes. As many passes as there are boxes leave
/// nothing to be marked.
fn given_row(alloc: Global, boxes: &[BoxInfo], given: &[u32]) -> Result<List<bool>, Memory>
    requires there { GivesBoxes boxes.now }
    requires given { All (λ g. g < length boxes.now) given.now }
    ensures { IfOk result
        (λ marks. marks ≡ spread_times boxes.now (length boxes.now)
        (marked_with given.now (no_marks (length boxes.now)))) }
{
    let mut marks = unmarked(alloc, boxes.len())?;
    mark_all(given, &mut marks);
    for _ in 0..boxes.len() {
        spread(boxes, &mut marks);
    }
    Ok(marks)
}

fn unmarked(alloc: Global, count: usize) -> Result<List<bool>, Memory>
    ensures { IfOk result (λ marks. marks ≡ no_marks count) }
{
    let mut marks = List::new(alloc);
    for _ in 0..count {
        marks.push(false)?;
    }
    Ok(marks)
}

/// Marks what each marked box is given, in the order of the boxes.
fn spread(boxes: &[BoxInfo], marks: &mut List<bool>)
    requires there { GivesBoxes boxes.now }
    requires count { length marks.old ≡ length boxes.now }
    ensures value { marks.new ≡ spread_below boxes.now (length boxes.now) marks.old }
    ensures count { length marks.new ≡ length marks.old }
{
    for number in 0..boxes.len() {
        spread_one(boxes, number, marks);
    }
}

/// Marks what a box is given, where it is marked itself.
fn spread_one(boxes: &[BoxInfo], number: usize, marks: &mut List<bool>)
    requires there { GivesBoxes boxes.now }
    requires number { number < length boxes.now }
    requires count { length marks.old ≡ length boxes.now }
    ensures value { marks.new ≡ spread_from boxes.now number marks.old }
    ensures count { length marks.new ≡ length marks.old }
{
    if marks.as_slice()[number] {
        mark_all(boxes[number].given.as_slice(), marks);
    }
}

fn mark_all(given: &[u32], marks: &mut List<bool>)
    requires { All (λ g. g < length marks.old) given.now }
    ensures value { marks.new ≡ marked_with given.now marks.old }
    ensures count { length marks.new ≡ length marks.old }
{
    for number in given {
        marks.set(*number as u64, true);
    }
}
