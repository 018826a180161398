//! What levels of the compatibility matrix are good for.

ghost use Rattle.std.specs.Prelude.{ℕ, ◌≤◌, List};
ghost use Rattle.seuss_base.specs.Tables.{Table};
ghost use Rattle.seuss_program.specs.declared.program.Program.{Program};
ghost use Rattle.seuss_program.specs.Keeping.{Keeps};
ghost use Rattle.compat_scheduler.specs.Settings.{Setting};
ghost use Rattle.compat_matrix.specs.declared.certificate.Certificate.{Certificate as CertificateOf};
ghost use Rattle.compat_matrix.specs.Certificates.{AreLevels};
ghost use Rattle.loose_records.specs.Settings.{IsSetting};

use compat_matrix::laws::rows_imply_safety;

/// The levels that a program's certificates and effects give make a setting, with any slots and rounds and a
/// budget from 1 to 1,000,000.
pub fn levels_make_a_setting()
    ensures { (p : Program) (es : List CertificateOf) (rows : Table) (actions : List ℕ)
        (rounds budget : ℕ) → Keeps p → AreLevels p es rows → 1 ≤ budget → budget ≤ 1000000 →
        IsSetting (record {
          program = p;
          scheduler = record { levels = rows; actions = actions; rounds = rounds };
          budget = budget;
        }) }
{
    rows_imply_safety();
}
