//! The theorem of reduction: a loose record is as good as a tight run.

ghost use Rattle.std.specs.Prelude.{◌≡◌, ◌<◌, map, All, IsTrue, length};
ghost use Rattle.seuss_program.specs.declared.order.Placed.{Placed};
ghost use Rattle.seuss_program.specs.Attempts.{tight};
ghost use Rattle.seuss_program.specs.Keeping.{HasForm};
ghost use Rattle.seuss_program.specs.Orders.{IsLawful};
ghost use Rattle.loose_records.specs.declared.record.PassRecord.{PassRecord};
ghost use Rattle.loose_records.specs.declared.record.Record.{Record};
ghost use Rattle.loose_records.specs.LooseRecords.{IsLoose};
ghost use Rattle.loose_records.specs.Orders.{commit_order, is_kept};
ghost use Rattle.loose_records.specs.Settings.{RunSetting, IsSetting};

use compat_scheduler::laws::{
    attempts_are_kept_once, modes_are_lawful, open_passes_run, overlaps_are_allowed,
    passes_are_numbered, rounds_dont_interleave, stops_for_good, tickets_are_lawful,
    void_passes_are_plain,
};
use method_code::laws::{
    actions_are_actions, chain_is_attempt, chain_is_over_for_good, pass_commits_once,
    pass_stays_among_its_own, plain_pass_is_idle, recorded_steps_are_a_pass, step_keeps_form,
};

/// In every setting in which a record is loose, its commit order is lawful, and the tight run of the actions
/// of this order, from the first state of the record, gives the outcomes of the order and the last state.
pub fn reduction()
    ensures order { (s : RunSetting) (r : Record) → IsSetting s → IsLoose s r →
        IsLawful s.scheduler.actions s.scheduler.rounds (commit_order r) }
    ensures tight { (s : RunSetting) (r : Record) → IsSetting s → IsLoose s r →
        tight s.program (map (λ (p : Placed). p.action) (commit_order r)) r.first s.budget
        ≡ record { outcomes = map (λ (p : Placed). p.outcome) (commit_order r); state = r.last } }
    ensures last { (s : RunSetting) (r : Record) → IsSetting s → IsLoose s r → HasForm s.program r.last }
    ensures committed { (s : RunSetting) (r : Record) → IsSetting s → IsLoose s r →
        All (λ (p : PassRecord). IsTrue (is_kept p) → p.commit < length p.claims) r.passes }
{
    attempts_are_kept_once();
    modes_are_lawful();
    open_passes_run();
    overlaps_are_allowed();
    passes_are_numbered();
    rounds_dont_interleave();
    stops_for_good();
    tickets_are_lawful();
    void_passes_are_plain();
    actions_are_actions();
    chain_is_attempt();
    chain_is_over_for_good();
    pass_commits_once();
    pass_stays_among_its_own();
    plain_pass_is_idle();
    recorded_steps_are_a_pass();
    step_keeps_form();
}
