//! What all views of the quit word say together, and all parts of the ledger.

ghost use Rattle.std.specs.Prelude.{◌≡◌, [], ◌+◌, ◌<◌, length, All, sum_by, None, false};
ghost use Rattle.pass_gather.specs.Parting.{amount_in};

use quit_word::{QuitFirst, QuitSeat, QuitView, QuitWord};
use std::sync::ledger::{Book, Ledger, Share as Part};

/// Takes all workers' views in.
fn join_workers(quit: &QuitWord, first: &mut QuitFirst, workers: Vec<QuitSeat>)
    requires name { first.old.name ≡ quit.now }
    requires unmarked { All (λ w. w.mark ≡ false) workers.items }
    requires workers { All (λ w. w.name ≡ quit.now) workers.items }
    requires before { All (λ h. h.1 ≡ false) first.old.held }
    ensures name { first.new.name ≡ first.old.name }
    ensures given { first.new.given ≡ first.old.given }
    ensures many { length first.new.held ≡ length first.old.held + length workers.items }
    ensures unmarked { All (λ h. h.1 ≡ false) first.new.held }
{
    let mut left = workers;
    while let Some(worker) = left.pop() {
        quit.join_worker(first, worker);
    }
}

/// Takes all other views in.
fn join_views(quit: &QuitWord, first: &mut QuitFirst, views: Vec<QuitView>)
    requires name { first.old.name ≡ quit.now }
    requires views { All (λ v. v.name ≡ quit.now) views.items }
    ensures same { (first.new.name ≡ first.old.name) × (first.new.given ≡ first.old.given)
        × (first.new.held ≡ first.old.held) }
    ensures seen { first.new.seen ≡ None → All (λ v. v.seen ≡ None) views.items }
{
    let mut left = views;
    while let Some(view) = left.pop() {
        quit.join_cell(first, view);
    }
}

/// Puts all views of the quit word together. Where no worker is marked, no view has seen anybody.
pub fn settle_all(
    quit: &QuitWord,
    first: &mut QuitFirst,
    workers: Vec<QuitSeat>,
    views: Vec<QuitView>,
)
    requires first { (first.old.name ≡ quit.now) × (first.old.held ≡ []) }
    requires all { length workers.items ≡ first.old.given }
    requires unmarked { All (λ w. w.mark ≡ false) workers.items }
    requires workers { All (λ w. w.name ≡ quit.now) workers.items }
    requires views { All (λ v. v.name ≡ quit.now) views.items }
    ensures { All (λ v. v.seen ≡ None) views.items }
{
    join_workers(quit, first, workers);
    join_views(quit, first, views);
    quit.settle(first);
}

/// Puts all parts of the ledger together. What they count is what the book counts.
pub fn audit_all<N: Ledger>(book: &mut Book<N>, parts: Vec<Part<N>>)
    requires each { All (λ p. p.parts ≡ 1) parts.items }
    requires all { length parts.items ≡ N.parts }
    ensures { 0 < N.parts → sum_by amount_in parts.items ≡ book.old.total }
{
    let mut left = parts;
    let Some(mut all) = left.pop() else {
        return;
    };
    while let Some(part) = left.pop() {
        all.merge(part);
    }
    book.audit(&mut all);
}
