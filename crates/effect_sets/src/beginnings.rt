//! The variables that a procedure tests at its entry.

ghost use Rattle.std.specs.Prelude.{◌≡◌};
ghost use Rattle.std.specs.List.{list_any};
ghost use Rattle.effect_sets.specs.Masks.{early_mask, head_mask, add_tested, tested_mask, is_early};
ghost use Rattle.effect_sets.specs.Masks.{calls_first as calls_at_first};

use crate::mentions::{mentioned, mentioned_in};
use method_code::{CallCode, Entry, Head};

/// The variables in the arguments of a preprocedure, if there is one.
fn given(early: &Option<CallCode>) -> u32
    ensures { result ≡ early_mask early.now }
{
    match early {
        None => 0,
        Some(call) => mentioned_in(call.args.as_slice()),
    }
}

/// The variables that an alternative tests.
fn tested_by(head: &Head) -> u32
    ensures { result ≡ head_mask head.now }
{
    mentioned(&head.cond) | given(&head.early)
}

/// The variables that alternatives test.
fn tested_in(heads: &[Head]) -> u32
    ensures { result ≡ add_tested 0 heads.now }
{
    let mut set = 0;
    for head in heads {
        set |= tested_by(head);
    }
    set
}

/// Whether some alternative has a preprocedure.
fn some_early(heads: &[Head]) -> bool
    ensures { result ≡ list_any is_early heads.now }
{
    heads.iter().any(|head| head.early.is_some())
}

/// The variables that a procedure tests.
pub fn tested(entry: &Entry) -> u32
    ensures { result ≡ tested_mask entry.now }
{
    match entry {
        Entry::Total => 0,
        Entry::Partial(heads) => tested_in(heads.as_slice()),
    }
}

/// Whether a procedure may begin with the call of a preprocedure.
pub fn calls_first(entry: &Entry) -> bool
    ensures { result ≡ calls_at_first entry.now }
{
    match entry {
        Entry::Total => false,
        Entry::Partial(heads) => some_early(heads.as_slice()),
    }
}
