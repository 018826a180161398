//! Laws of the passes of a seat.

ghost use Rattle.std.specs.Prelude.{◌≡◌, ◌≢◌, ℕ, List, false, slice_get};
ghost use Rattle.seuss_program.specs.declared.program.Program.{Program};
ghost use Rattle.seuss_program.specs.declared.state.Value.{Value};
ghost use Rattle.method_code.specs.declared.method.Method.{Method};
ghost use Rattle.box_lock.specs.Cells.{CellState};
ghost use Rattle.pass_seats.specs.declared.pass.Pass.{Pass};
ghost use Rattle.pass_seats.specs.declared.pass.Progress.{Progress};
ghost use Rattle.pass_seats.specs.Names.{Names};
ghost use Rattle.pass_seats.specs.Seats.{SeatState, IsSeat};
ghost use Rattle.pass_seats.specs.Items.{ItemState};
ghost use Rattle.pass_seats.specs.Steps.{AdvancedAt, IsOpen};
ghost use Rattle.pass_seats.specs.Starts.{Taken};
ghost use Rattle.pass_seats.specs.Slots.{HasStep, MayGoOn};

/// A pass that a seat has taken has a next step (`taken`). After a step it has another one, or it is over and may
/// be finished (`stepped`). A step of one pass leaves the others of the seat as they were (`others`).
pub fn passes_go_on()
    ensures taken { (names : Names) (old new : SeatState) (item : ItemState) (pass : Pass) →
        Taken names old new item pass → HasStep new pass.slot }
    ensures stepped { (names : Names) (program : Program) (code : List Method) (first : ℕ → List Value)
        (cell after : CellState) (old new : SeatState) (slot b : ℕ) (progress : Progress) →
        IsSeat names old → old.torn ≡ false → IsOpen old slot b →
        AdvancedAt program code first cell after old new slot progress → MayGoOn progress new slot }
    ensures others { (program : Program) (code : List Method) (first : ℕ → List Value)
        (cell after : CellState) (old new : SeatState) (slot other : ℕ) (progress : Progress) →
        AdvancedAt program code first cell after old new slot progress → other ≢ slot →
        slice_get new.passes other ≡ slice_get old.passes other }
{}
