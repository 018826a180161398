//! A law of the seats of an engine.

ghost use Rattle.pass_seats.specs.Seats.{SeatState};
ghost use Rattle.pass_engine.specs.Engines.{EngineState, IsSeatOf, StaysGivenUp};

/// After a call with another seat a seat is still one of the engine.
pub fn seats_stay()
    ensures { (old new : EngineState) (seat : SeatState) → IsSeatOf old seat → StaysGivenUp old new →
        IsSeatOf new seat }
{}
