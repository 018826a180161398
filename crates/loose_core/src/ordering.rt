//! The commit order of a record: the passes that were kept, by the stamps of their commit steps.

ghost use Rattle.std.specs.Prelude.{◌≡◌, ◌<◌, IfOk, OnOk, All, IsTrue, length, map, ◌++◌, ◌∷◌, []};
ghost use Rattle.method_code.specs.Chains.{outcome_of};
ghost use Rattle.loose_records.specs.declared.record.PassRecord.{PassRecord as Pass};
ghost use Rattle.loose_records.specs.Orders.{commit_order, is_kept};
ghost use Rattle.loose_core.specs.declared.key.Key.{Key as KeyOf};
ghost use Rattle.loose_core.specs.Keys.{in_order, key_of, keys_of};

use crate::key::Key;
use compat_scheduler::FinishVerdict;
use loose_records::{PassRecord, Record};
use seuss_base::{List, Memory, Outcome, PassEnd};
use seuss_program::{Order, Placed};
use std::alloc::Global;

/// The kept passes by the stamps of their commit steps, those of one stamp by their attempts. Its memory is
/// taken where the list of the passes takes its own. Memory for the order is all that can be refused.
pub fn commit_order(made: &Record) -> Result<Order, Memory>
    requires { All (λ (p : Pass). IsTrue (is_kept p) → p.commit < length p.claims) made.now.passes }
    ensures { IfOk result (λ order. order.list ≡ commit_order made.now) }
{
    let alloc = *made.passes.allocator();
    let keys = sorted(keys(alloc, made.passes.as_slice())?)?;
    let list = placed(alloc, keys.as_slice())?;
    Ok(Order { list })
}

/// What is printed of these keys.
fn placed(alloc: Global, keys: &[Key]) -> Result<List<Placed>, Memory>
    ensures { IfOk result (λ list. list ≡ map (λ (k : KeyOf). k.placed) keys.now) }
{
    let mut list = List::new(alloc);
    for key in keys.iter() {
        list.push(key.placed)?;
    }
    Ok(list)
}

/// The keys by stamp and attempt, those that agree in both in the order that they had.
fn sorted(keys: Vec<Key>) -> Result<Vec<Key>, Memory>
    ensures { IfOk result (λ v. v.items ≡ in_order keys.items) }
{
    let mut keys = keys;
    keys.sort_by_key(|key| (key.stamp, key.placed.attempt))?;
    Ok(keys)
}

/// The keys of the kept passes, in their order.
fn keys(alloc: Global, passes: &[PassRecord]) -> Result<Vec<Key>, Memory>
    requires { All (λ (p : Pass). IsTrue (is_kept p) → p.commit < length p.claims) passes.now }
    ensures { IfOk result (λ v. v.items ≡ keys_of passes.now) }
{
    let mut keys = Vec::new(alloc);
    for pass in passes.iter() {
        add(&mut keys, pass)?;
    }
    Ok(keys)
}

/// Puts the key of a pass at the end, where the pass was kept.
fn add(keys: &mut Vec<Key>, pass: &PassRecord) -> Result<(), Memory>
    requires { IsTrue (is_kept pass.now) → pass.now.commit < length pass.now.claims }
    ensures { OnOk result (keys.new.items ≡ keys.old.items ++ keys_of (pass.now ∷ [])) }
{
    match pass.verdict {
        FinishVerdict::Kept => {
            keys.push(key(pass))?;
            Ok(())
        }
        FinishVerdict::Void => Ok(()),
    }
}

/// The key of a pass.
fn key(pass: &PassRecord) -> Key
    requires { pass.now.commit < length pass.now.claims }
    ensures { result ≡ key_of pass.now }
{
    let stamp = pass.claims.as_slice()[pass.commit as usize].stamp;
    Key {
        stamp,
        placed: Placed {
            attempt: pass.ticket.attempt,
            action: pass.ticket.action,
            outcome: outcome(pass.end),
        },
    }
}

/// The outcome of a pass that ends so.
fn outcome(end: PassEnd) -> Outcome
    ensures { result ≡ outcome_of end }
{
    match end {
        PassEnd::Accepted => Outcome::Accepted,
        PassEnd::PlainRejected => Outcome::Rejected,
        PassEnd::Rejected => Outcome::Rejected,
        PassEnd::Trapped(trap) => Outcome::Trapped(trap),
        PassEnd::Spent => Outcome::Spent,
    }
}
