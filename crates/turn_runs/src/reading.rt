//! What a record says of a box and of a pass.

ghost use Rattle.std.specs.Prelude.{◌≡◌, ℕ, ◌<◌, ◌^◌, [], length, slice_get, slice_index_or, Some};
ghost use Rattle.method_code.specs.Kinds.{calls_early as calls_early_of};
ghost use Rattle.method_code.specs.Records.{Recorded};
ghost use Rattle.loose_records.specs.declared.record.PassRecord.{PassRecord as PassOf};
ghost use Rattle.loose_records.specs.Entries.{claimed};
ghost use Rattle.turn_runs.specs.Hands.{IsFirstOther};

use loose_records::{BoxEntry, Claim, PassRecord, Record};
use method_code::End;
use seuss_base::List;

/// The journal of a box. A box that isn't there has none.
pub fn entries_of(boxes: &List<List<BoxEntry>>, number: u32) -> &[BoxEntry]
    ensures { result.now ≡ slice_index_or boxes.now number [] }
{
    match boxes.get(number as u64) {
        Some(journal) => journal.as_slice(),
        None => &[],
    }
}

/// The claims of a pass so far.
pub fn claims_of(passes: &List<PassRecord>, number: u64) -> &[Claim]
    ensures { (pass : PassOf) → slice_get passes.now number ≡ Some pass → result.now ≡ pass.claims }
{
    match passes.get(number) {
        Some(pass) => pass.claims.as_slice(),
        None => &[],
    }
}

/// Whether a step ends by the call of a preprocedure.
fn calls_early(end: &End) -> bool
    ensures { result ≡ calls_early_of end.now }
{
    match end {
        End::Call {
            target: _,
            method: _,
            args: _,
            partial,
        } => *partial,
        End::Returned(_) => false,
        End::RejectedPlain => false,
        End::Rejected => false,
        End::Trapped(_) => false,
        End::Spent => false,
    }
}

/// Whether the step that a claim names ends by the call of a preprocedure.
fn claims_early(made: &Record, claim: &Claim) -> bool
    ensures { (e : Recorded) → claimed made.now claim.now ≡ Some e → result ≡ calls_early_of e.end }
{
    let entries = entries_of(&made.boxes, claim.box_number);
    match entries.get(claim.place as usize) {
        Some(entry) => calls_early(&entry.end),
        None => false,
    }
}

/// The number of the commit step of a pass whose steps are over: the first that doesn't end by the call of a
/// preprocedure.
pub fn commit_of(made: &Record, pass: u64) -> u32
    requires { (p : PassOf) × (slice_get made.now.passes pass ≡ Some p) × (length p.claims < 2 ^ 32) }
    ensures { (p : PassOf) → slice_get made.now.passes pass ≡ Some p →
        IsFirstOther made.now p.claims result }
{
    let claims = claims_of(&made.passes, pass);
    first_other(made, claims)
}

/// The number of the first of these claims whose step doesn't end by the call of a preprocedure.
fn first_other(made: &Record, claims: &[Claim]) -> u32
    requires { length claims.now < 2 ^ 32 }
    ensures { IsFirstOther made.now claims.now result }
{
    let many = claims.len() as u32;
    for number in 0..many {
        let early = claims_early(made, &claims[number as usize]);
        if !early {
            return number;
        }
    }
    many
}
