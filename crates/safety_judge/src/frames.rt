//! What is known of the values of all names, and how that changes.

ghost use Rattle.std.specs.Prelude.{◌≡◌, slice_set, IfOk};
ghost use Rattle.safety_check.specs.Regions as meant;

use crate::regions::region_round;
use safety_check::{Frame, Region};
use seuss_base::{List, Memory};
use seuss_program::Ref;
use std::alloc::Global;

/// What a frame has for a name.
pub(crate) fn region_of(name: Ref, frame: &Frame) -> Region
    ensures { result ≡ meant.regions_of frame.now name }
{
    let place = match name {
        Ref::Var(at) => frame.vars.as_slice().get(at as usize),
        Ref::Slot(at) => frame.slots.as_slice().get(at as usize),
        Ref::Given(_) | Ref::Method(_) | Ref::Cat(_) => None,
    };
    match place {
        Some(r) => *r,
        None => Region::Anything,
    }
}

/// Puts a region in a place of a list, if there is such a place.
fn put_at(regions: &mut List<Region>, at: u32, r: Region)
    ensures { regions.new ≡ slice_set regions.old at r }
{
    let at = at as u64;
    if at < regions.len() {
        regions.set(at, r);
    }
}

/// A name has another region.
pub(crate) fn put(name: Ref, r: Region, frame: Frame) -> Frame
    ensures { result ≡ meant.put name r frame }
{
    let Frame {
        mut vars,
        mut slots,
    } = frame;
    match name {
        Ref::Var(at) => put_at(&mut vars, at, r),
        Ref::Slot(at) => put_at(&mut slots, at, r),
        Ref::Given(_) | Ref::Method(_) | Ref::Cat(_) => {}
    }
    Frame { vars, slots }
}

/// Names may have any value.
pub(crate) fn forgotten(names: &[Ref], frame: Frame) -> Frame
    ensures { result ≡ meant.forgotten names.now frame }
{
    let mut frame = frame;
    for name in names {
        frame = put(*name, Region::Anything, frame);
    }
    frame
}

/// The smallest regions round those of two lists, place by place.
fn rounds(alloc: Global, xs: &[Region], ys: &[Region]) -> Result<List<Region>, Memory>
    ensures { IfOk result (λ both. both ≡ meant.rounds xs.now ys.now) }
{
    let mut both = List::new(alloc);
    for (at, x) in xs.iter().enumerate() {
        let Some(y) = ys.get(at) else {
            return Ok(both);
        };
        both.push(region_round(*x, *y))?;
    }
    Ok(both)
}

/// Each name has the smallest region round two.
pub(crate) fn joined(alloc: Global, one: &Frame, other: &Frame) -> Result<Frame, Memory>
    ensures { IfOk result (λ frame. frame ≡ meant.joined one.now other.now) }
{
    let vars = rounds(alloc, one.vars.as_slice(), other.vars.as_slice())?;
    let slots = rounds(alloc, one.slots.as_slice(), other.slots.as_slice())?;
    Ok(Frame { vars, slots })
}

/// An equal list of its own.
fn regions_copied(alloc: Global, regions: &List<Region>) -> Result<List<Region>, Memory>
    ensures { IfOk result (λ copied. copied ≡ regions.now) }
{
    Ok(List::from_vec(Vec::from_slice(alloc, regions.as_slice())?))
}

/// An equal frame of its own.
pub(crate) fn copied(alloc: Global, frame: &Frame) -> Result<Frame, Memory>
    ensures { IfOk result (λ copy. copy ≡ frame.now) }
{
    let vars = regions_copied(alloc, &frame.vars)?;
    let slots = regions_copied(alloc, &frame.slots)?;
    Ok(Frame { vars, slots })
}
