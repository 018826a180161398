//! Regions of values.

ghost use Rattle.std.specs.Prelude.{◌≡◌};
ghost use Rattle.safety_check.specs.Regions as meant;
ghost use Rattle.safety_check.specs.RegionValues as by_values;

use crate::spans::{all_at_most, all_lengths, all_less, all_numbers, round, single};
use safety_check::{Region, Span};

/// The numbers that a value of a region may be.
pub(crate) fn numbers_of(r: Region) -> Span
    ensures { result ≡ meant.numbers_of r }
{
    match r {
        Region::Numbers(s) => s,
        Region::Truth(_) => single(0),
        Region::Lengths(_) => single(0),
        Region::Anything => all_numbers(),
    }
}

/// The bool that a value of a region is, where it is told.
pub(crate) fn truth_of(r: Region) -> Option<bool>
    ensures { result ≡ meant.truth_of r }
{
    match r {
        Region::Numbers(_) => Some(false),
        Region::Truth(told) => told,
        Region::Lengths(_) => Some(false),
        Region::Anything => None,
    }
}

/// The lengths that a value of a region may have.
pub(crate) fn lengths_of(r: Region) -> Span
    ensures { result ≡ meant.lengths_of r }
{
    match r {
        Region::Numbers(_) => single(0),
        Region::Truth(_) => single(0),
        Region::Lengths(s) => s,
        Region::Anything => all_lengths(),
    }
}

/// True where it is so for all values, false where it is so for none, else either.
fn decided(always: bool, never: bool) -> Option<bool>
    ensures { result ≡ meant.decided always never }
{
    match (always, never) {
        (true, _) => Some(true),
        (false, true) => Some(false),
        (false, false) => None,
    }
}

/// The bool turned, where it is told.
pub(crate) fn turned(told: Option<bool>) -> Option<bool>
    ensures { result ≡ meant.turned told }
{
    match told {
        Some(b) => Some(!b),
        None => None,
    }
}

/// Whether two bools are the same, where both are told.
fn same_truth(a: Option<bool>, b: Option<bool>) -> Option<bool>
    ensures { result ≡ meant.same_truth a b }
{
    match (a, b) {
        (Some(a), Some(b)) => Some(a == b),
        _ => None,
    }
}

/// Whether numbers of one span are less than those of another one.
pub(crate) fn less_numbers(s: Span, t: Span) -> Option<bool>
    ensures { result ≡ by_values.less_numbers s t }
{
    decided(all_less(s, t), all_at_most(t, s))
}

/// Whether numbers of one span are at most those of another one.
pub(crate) fn at_most_numbers(s: Span, t: Span) -> Option<bool>
    ensures { result ≡ by_values.at_most_numbers s t }
{
    decided(all_at_most(s, t), all_less(t, s))
}

/// Whether numbers of two spans are the same.
fn same_numbers(s: Span, t: Span) -> Option<bool>
    ensures { result ≡ meant.same_numbers s t }
{
    let always = all_at_most(s, t) && all_at_most(t, s);
    let never = all_less(s, t) || all_less(t, s);
    decided(always, never)
}

/// Whether two values are the same, where it is told.
pub(crate) fn same_region(r: Region, q: Region) -> Option<bool>
    ensures { result ≡ meant.same_region r q }
{
    match (r, q) {
        (Region::Numbers(s), Region::Numbers(t)) => same_numbers(s, t),
        (Region::Truth(a), Region::Truth(b)) => same_truth(a, b),
        _ => None,
    }
}

/// A bool that two agree on.
fn truth_round(a: Option<bool>, b: Option<bool>) -> Option<bool>
    ensures { result ≡ meant.truth_round a b }
{
    match (a, b) {
        (Some(true), Some(true)) => Some(true),
        (Some(false), Some(false)) => Some(false),
        _ => None,
    }
}

/// The smallest region round two.
pub(crate) fn region_round(r: Region, q: Region) -> Region
    ensures { result ≡ meant.region_round r q }
{
    match (r, q) {
        (Region::Numbers(s), Region::Numbers(t)) => Region::Numbers(round(s, t)),
        (Region::Truth(a), Region::Truth(b)) => Region::Truth(truth_round(a, b)),
        (Region::Lengths(s), Region::Lengths(t)) => Region::Lengths(round(s, t)),
        _ => Region::Anything,
    }
}
