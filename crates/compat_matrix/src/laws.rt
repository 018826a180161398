//! Laws of levels.

ghost use Rattle.std.specs.Prelude.{◌≡◌, ◌≢◌, ℕ, List, Some, slice_get};
ghost use Rattle.seuss_base.specs.declared.level.Level.{Level};
ghost use Rattle.seuss_base.specs.declared.level.Level.TheVariants.{Never};
ghost use Rattle.seuss_base.specs.Levels.{IsAtLeast};
ghost use Rattle.seuss_program.specs.declared.program.Program.{Program};
ghost use Rattle.seuss_program.specs.declared.program.ActionInfo.{ActionInfo};
ghost use Rattle.seuss_program.specs.Keeping.{Keeps};
ghost use Rattle.method_code.specs.Kinds.{IsAction};
ghost use Rattle.method_code.specs.Beside.{SafeBeside};
ghost use Rattle.compat_matrix.specs.Rule.{CertifiedLevels, IsLevel, none_certified};
ghost use Rattle.seuss_program.specs.Programs.{procedure_of, cat_of};
ghost use Rattle.shape_terms.specs.Cases.{Pair as CertifiedPair};
ghost use Rattle.compat_matrix.specs.declared.certificate.Certificate.{Certificate as CertificateOf};
ghost use Rattle.seuss_base.specs.Tables.{Table, level_at};
ghost use Rattle.compat_matrix.specs.Certificates.{AreCertificates, AllHold, IsRefused, levels_of};
ghost use Rattle.compat_matrix.specs.Certificates.{AreLevels};
ghost use Rattle.seuss_program.specs.declared.state.Value.{Value};
ghost use Rattle.seuss_program.specs.declared.state.Vars.{Vars as VarsOf};
ghost use Rattle.commute_certs.specs.declared.why.Why.{Why};
ghost use Rattle.commute_certs.specs.declared.verdict.Verdict.{Verdict};
ghost use Rattle.commute_certs.specs.declared.verdict.Verdict.TheVariants.{Yes, No, Unclear};
ghost use Rattle.commute_certs.specs.Verdicts.{IsVerdict};
ghost use Rattle.compat_matrix.specs.Certified.{IsSound, Commute};

use effect_sets::laws::{
    early_step_stays_in_tests, late_steps_are_behind_calls, later_places_are_behind_calls,
    step_stays_in_sets,
};
use method_code::laws::{
    actions_are_actions, plain_rejection_is_told, rejection_place_only_rejects, single_step_is_run,
};

/// An action is safe beside another one at each level, loose or firm, up to the level that the rule gives
/// them. `certified` are levels of certificates that hold; where there is none, nothing is asked.
pub fn levels_imply_safety()
    ensures certified { (p : Program) (certified : CertifiedLevels) (a b : ActionInfo)
        (level wanted : Level) →
        Keeps p → IsAction p a → IsAction p b → IsSound p certified → IsLevel p certified a b level →
        IsAtLeast level wanted → wanted ≢ Never → SafeBeside p wanted a b }
    ensures plain { (p : Program) (a b : ActionInfo) (level wanted : Level) →
        Keeps p → IsAction p a → IsAction p b → IsLevel p none_certified a b level →
        IsAtLeast level wanted → wanted ≢ Never → SafeBeside p wanted a b }
{
    rejection_place_only_rejects();
    step_stays_in_sets();
    early_step_stays_in_tests();
    later_places_are_behind_calls();
    late_steps_are_behind_calls();
}

/// A certificate that holds at a level says the same of the steps from the entries of its methods, on each
/// box of its cat.
pub fn certificate_holds_for_steps()
    ensures { (p : Program) (pair : CertifiedPair) (level : Level) (box first second : ℕ) →
        cat_of p box ≡ Some pair.cat → procedure_of p box first ≡ Some pair.first →
        procedure_of p box second ≡ Some pair.second → IsVerdict pair (Yes level) →
        Commute p box first second pair.first pair.second level }
{
    single_step_is_run();
    plain_rejection_is_told();
}

/// The levels of certificates that hold are sound.
pub fn levels_of_certificates_are_sound()
    ensures { (p : Program) (es : List CertificateOf) → AreCertificates p es → IsSound p (levels_of es) }
{
    certificate_holds_for_steps();
}

/// The levels of a program's certificates and effects say how far its actions are safe beside one another.
pub fn rows_imply_safety()
    ensures { (p : Program) (es : List CertificateOf) (rows : Table) (a b : ℕ) (x y : ActionInfo)
        (wanted : Level) → Keeps p →
        AreLevels p es rows → slice_get p.actions a ≡ Some x → slice_get p.actions b ≡ Some y →
        IsAtLeast (level_at rows a b) wanted → wanted ≢ Never → SafeBeside p wanted x y }
{
    levels_imply_safety();
    levels_of_certificates_are_sound();
    actions_are_actions();
}

/// Certificates that hold are all of those that are written, and one that doesn't hold is refused in one
/// way: on one line, with a state from which it fails, or as unclear.
pub fn one_refusal()
    ensures all { (p : Program) (es : List CertificateOf) → AreCertificates p es → AllHold p }
    ensures none { (p : Program) (line : ℕ) (verdict : Verdict) → AllHold p → IsRefused p line verdict → ⊥ }
    ensures line { (p : Program) (line other : ℕ) (verdict two : Verdict) → IsRefused p line verdict →
        IsRefused p other two →
        line ≡ other }
    ensures kind { (p : Program) (line other : ℕ) (vars : VarsOf) (first second : List Value) (why : Why) →
        IsRefused p line (No vars first second) → IsRefused p other (Unclear why) → ⊥ }
{
    commute_certs::laws::one_verdict();
}
