//! Laws of the settings of runs by turns.

ghost use Rattle.std.specs.Prelude.{◌≡◌, ℕ};
ghost use Rattle.seuss_base.specs.Tables.{Table};
ghost use Rattle.seuss_program.specs.declared.program.Program.{Program};
ghost use Rattle.seuss_program.specs.Orders.{slots_of};
ghost use Rattle.loose_records.specs.Settings.{setting_of};

/// The slots of a setting of turns are those of the program, by which its orders are lawful.
pub fn slots_are_the_programs()
    ensures { (p : Program) (levels : Table) (rounds budget : ℕ) →
        (setting_of p levels rounds budget).scheduler.actions ≡ slots_of p }
{}
