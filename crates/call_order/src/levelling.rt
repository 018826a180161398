//! Boxes with levels.

ghost use Rattle.std.specs.Prelude.{◌≡◌, length, IfOk};
ghost use Rattle.call_order.specs.LevelLists.{levelled_at, set_levels};

use seuss_base::{List, Memory};
use seuss_program::BoxInfo;
use std::alloc::Global;

/// The boxes with these levels.
pub(crate) fn with_levels(
    alloc: Global,
    boxes: List<BoxInfo>,
    levels: &[u32],
) -> Result<List<BoxInfo>, Memory>
    requires { length levels.now ≡ length boxes }
    ensures { IfOk result (λ levelled. levelled ≡ set_levels boxes levels.now) }
{
    let mut levelled = List::new(alloc);
    for (info, level) in boxes.into_vec().into_iter().zip(levels) {
        levelled.push(with_level(info, *level))?;
    }
    Ok(levelled)
}

fn with_level(info: BoxInfo, level: u32) -> BoxInfo
    ensures { result ≡ levelled_at info level }
{
    let BoxInfo {
        name,
        cat,
        given,
        ..
    } = info;
    BoxInfo {
        name,
        cat,
        given,
        level,
    }
}
