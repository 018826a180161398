//! Seats that look at the scheduler's whole list once more.

ghost use Rattle.std.specs.Prelude.{◌≡◌, IfOk, OnOk};
ghost use Rattle.engine_gather.specs.Seeing.{HasLooked, HaveLooked};

use pass_seats::{EngineNames, SchedDesk, SeatCore};
use quit_word::QuitWord;
use seuss_base::Memory;
use std::alloc::Global;

/// A seat that has looked at the scheduler's list. Where the scheduler's cell is broken the look shows
/// nothing of the list, and the seat has seen who gave the engine up.
fn see_list<N: EngineNames>(
    desk: &mut SchedDesk<N>,
    quit: &QuitWord,
    core: SeatCore<N>,
) -> SeatCore<N>
    requires { quit.now ≡ N.names.quit }
    ensures desk { desk.new ≡ desk.old }
    ensures looked { HasLooked N.names desk.old.cell core result }
{
    let mut seen = core;
    let _told = desk.standing(quit, &mut seen);
    seen.facts();
    seen
}

/// The seats, each of which has looked at the scheduler's list.
pub(crate) fn see_all<N: EngineNames>(
    alloc: Global,
    desk: &mut SchedDesk<N>,
    quit: &QuitWord,
    cores: Vec<SeatCore<N>>,
) -> Result<Vec<SeatCore<N>>, Memory>
    requires { quit.now ≡ N.names.quit }
    ensures desk { OnOk result (desk.new ≡ desk.old) }
    ensures looked { IfOk result (λ seen. HaveLooked N.names desk.old.cell cores.items seen.items) }
{
    let mut seen = Vec::new(alloc);
    for core in cores {
        seen.push(see_list(desk, quit, core))?;
    }
    Ok(seen)
}
