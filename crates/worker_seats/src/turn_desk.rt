//! The desks of boxes in their turns.

ghost use Rattle.std.specs.Prelude.{◌≡◌, ℕ, false, IfOk, MatchResult};
ghost use Rattle.method_code.specs.Plans.{AreMadeFrom};
ghost use Rattle.pass_seats.specs.Names.{AreNames};
ghost use Rattle.pass_seats.specs.Steps.{IsOpen, AdvancedAt, DeskRefused};

use box_turn::Kept;
use method_code::{Code, Plan};
use pass_seats::{BoxDesk, EngineNames, EngineRefusal, Progress, SeatCore};
use quit_word::QuitWord;
use std::alloc::Global;
use std::marker::Model;

/// The desk of a box that lies in a turn. There it keeps which box it is of.
#[derive(Drop)]
pub struct TurnDesk<N: EngineNames> {
    pub(crate) desk: BoxDesk<N>,
}

impl<N: EngineNames> Model for TurnDesk<N> {
    ghost use Rattle.pass_seats.specs.Desks.{BoxDeskState};

    ghost Value = { BoxDeskState };

    ghost view = { λ d. d.desk };
}

impl<N: EngineNames> Kept for TurnDesk<N> {
    ghost use Rattle.std.specs.Prelude.{◌≡◌};

    type Names = u32;

    ghost any = { 0 };

    ghost keeps = { λ number desk. desk.cell.number ≡ number };
}

impl<N: EngineNames> TurnDesk<N> {
    /// The desk of a box, as it lies in a turn.
    pub fn new(desk: BoxDesk<N>) -> TurnDesk<N>
        ensures { result ≡ desk }
    {
        TurnDesk { desk }
    }

    /// Makes one step of the pass in a slot of a seat, on this box, as at its desk.
    pub(crate) fn advance(
        &mut self,
        alloc: Global,
        code: &Code,
        plan: &Plan,
        quit: &QuitWord,
        seat: &mut SeatCore<N>,
        slot: u64,
    ) -> Result<Progress, EngineRefusal>
        requires named { AreNames N.names N.code N.first }
        requires code { code.now ≡ N.code }
        requires made { AreMadeFrom N.names.setting.program code.now plan.now }
        requires quit { quit.now ≡ N.names.quit }
        requires whole { seat.old.torn ≡ false }
        requires open { IsOpen seat.old slot self.old.cell.number }
        ensures done { IfOk result (λ progress. AdvancedAt N.names.setting.program N.code N.first self.old.cell
            self.new.cell seat.old seat.new slot progress) }
        ensures cell { self.new.cell.number ≡ self.old.cell.number }
        ensures refused { MatchResult result (λ _. ℕ) (DeskRefused self.old.cell seat.old seat.new slot) }
    {
        self.desk.advance(alloc, code, plan, quit, seat, slot)
    }

    /// The desk itself.
    pub fn into_desk(self) -> BoxDesk<N>
        ensures { result ≡ self }
    {
        let TurnDesk { desk } = self;
        desk
    }
}
