//! Spans of numbers. Where 128 bits don't suffice for an end, memory is wanted.

ghost use Rattle.std.specs.Prelude.{◌≡◌, ◌+ℤ◌, ◌-ℤ◌, ◌++◌, ◌∷◌, [], IfOk, OnOk};
ghost use Rattle.std.specs.List.{flat_map};
ghost use Rattle.safety_check.specs.Spans as meant;

use safety_check::Span;
use seuss_base::{List, Memory};
use std::alloc::Global;

/// The least number of 64 bits, with their sign.
const LOWEST: i128 = -9_223_372_036_854_775_808;

/// The greatest number of 64 bits.
const HIGHEST: i128 = 9_223_372_036_854_775_807;

/// A sum.
fn added(a: i128, b: i128) -> Result<i128, Memory>
    ensures { IfOk result (λ z. z ≡ a +ℤ b) }
{
    match a.checked_add(b) {
        Some(z) => Ok(z),
        None => Err(Memory),
    }
}

/// A difference.
fn taken_off(a: i128, b: i128) -> Result<i128, Memory>
    ensures { IfOk result (λ z. z ≡ a -ℤ b) }
{
    match a.checked_sub(b) {
        Some(z) => Ok(z),
        None => Err(Memory),
    }
}

/// All numbers of 64 bits.
pub(crate) fn all_numbers() -> Span
    ensures { result ≡ meant.all_numbers }
{
    Span {
        least: LOWEST,
        most: Some(HIGHEST),
    }
}

/// The lengths of all sequences.
pub(crate) fn all_lengths() -> Span
    ensures { result ≡ meant.all_lengths }
{
    Span {
        least: 0,
        most: None,
    }
}

/// A single number.
pub(crate) fn single(z: i128) -> Span
    ensures { result ≡ meant.single z }
{
    Span {
        least: z,
        most: Some(z),
    }
}

/// Whether a span ends below a number.
fn ends_before(most: Option<i128>, z: i128) -> bool
    ensures { result ≡ meant.ends_before most z }
{
    match most {
        Some(m) => m < z,
        None => false,
    }
}

/// Whether a span ends at most at a number.
fn ends_by(most: Option<i128>, z: i128) -> bool
    ensures { result ≡ meant.ends_by most z }
{
    match most {
        Some(m) => m <= z,
        None => false,
    }
}

/// Whether each number of one span is less than each of another one.
pub(crate) fn all_less(s: Span, t: Span) -> bool
    ensures { result ≡ meant.all_less s t }
{
    ends_before(s.most, t.least)
}

/// Whether each number of one span is at most each of another one.
pub(crate) fn all_at_most(s: Span, t: Span) -> bool
    ensures { result ≡ meant.all_at_most s t }
{
    ends_by(s.most, t.least)
}

/// The span, unless it is empty.
fn unless_empty(s: Span) -> Option<Span>
    ensures { result ≡ meant.unless_empty s }
{
    if ends_before(s.most, s.least) {
        None
    } else {
        Some(s)
    }
}

/// The greatest sum, where both spans end.
fn end_sum(a: Option<i128>, b: Option<i128>) -> Result<Option<i128>, Memory>
    ensures { IfOk result (λ end. end ≡ meant.end_sum a b) }
{
    match (a, b) {
        (Some(a), Some(b)) => Ok(Some(added(a, b)?)),
        _ => Ok(None),
    }
}

/// The sums of numbers of two spans.
pub(crate) fn sums(s: Span, t: Span) -> Result<Span, Memory>
    ensures { IfOk result (λ span. span ≡ meant.sums s t) }
{
    let least = added(s.least, t.least)?;
    let most = end_sum(s.most, t.most)?;
    Ok(Span { least, most })
}

/// The least difference.
fn least_difference(a: i128, b: Option<i128>) -> Result<i128, Memory>
    ensures { IfOk result (λ z. z ≡ meant.least_difference a b) }
{
    match b {
        Some(b) => taken_off(a, b),
        None => taken_off(LOWEST, 1),
    }
}

/// The greatest difference, where the first span ends.
fn end_difference(a: Option<i128>, b: i128) -> Result<Option<i128>, Memory>
    ensures { IfOk result (λ end. end ≡ meant.end_difference a b) }
{
    match a {
        Some(a) => Ok(Some(taken_off(a, b)?)),
        None => Ok(None),
    }
}

/// The differences of numbers of two spans.
pub(crate) fn differences(s: Span, t: Span) -> Result<Span, Memory>
    ensures { IfOk result (λ span. span ≡ meant.differences s t) }
{
    let least = least_difference(s.least, t.most)?;
    let most = end_difference(s.most, t.least)?;
    Ok(Span { least, most })
}

/// The greatest number of 64 bits up to an end.
fn cut_end(most: Option<i128>) -> i128
    ensures { result ≡ meant.cut_end most }
{
    match most {
        Some(m) => m.min(HIGHEST),
        None => HIGHEST,
    }
}

/// The numbers of a span that have 64 bits, where there are some.
pub(crate) fn cut(s: Span) -> Option<Span>
    ensures { result ≡ meant.cut s }
{
    unless_empty(Span {
        least: s.least.max(LOWEST),
        most: Some(cut_end(s.most)),
    })
}

/// The span where all its numbers have 64 bits, else all numbers.
pub(crate) fn wrapped(s: Span) -> Span
    ensures { result ≡ meant.wrapped_span s }
{
    if LOWEST <= s.least && ends_by(s.most, HIGHEST) {
        s
    } else {
        all_numbers()
    }
}

/// Both ends one up.
pub(crate) fn raised(s: Span) -> Result<Span, Memory>
    ensures { IfOk result (λ span. span ≡ meant.raised s) }
{
    sums(s, single(1))
}

/// Both ends one down.
fn lowered(s: Span) -> Result<Span, Memory>
    ensures { IfOk result (λ span. span ≡ meant.lowered s) }
{
    differences(s, single(1))
}

/// The lower end at least 1, and then both ends one down.
pub(crate) fn shortened(s: Span) -> Result<Option<Span>, Memory>
    ensures { IfOk result (λ span. span ≡ meant.shortened s) }
{
    let filled = unless_empty(Span {
        least: s.least.max(1),
        most: s.most,
    });
    match filled {
        Some(t) => Ok(Some(lowered(t)?)),
        None => Ok(None),
    }
}

/// The greater of two ends, where both are there.
fn end_round(a: Option<i128>, b: Option<i128>) -> Option<i128>
    ensures { result ≡ meant.end_round a b }
{
    match (a, b) {
        (Some(a), Some(b)) => Some(a.max(b)),
        _ => None,
    }
}

/// The smallest span round two.
pub(crate) fn round(s: Span, t: Span) -> Span
    ensures { result ≡ meant.round s t }
{
    Span {
        least: s.least.min(t.least),
        most: end_round(s.most, t.most),
    }
}

/// Whether a span doesn't end below a number.
fn reaches(most: Option<i128>, z: i128) -> bool
    ensures { result ≡ meant.reaches most z }
{
    match most {
        Some(m) => z <= m,
        None => true,
    }
}

/// Whether a number lies in a span.
fn is_within(s: Span, z: i128) -> bool
    ensures { result ≡ meant.is_within s z }
{
    s.least <= z && reaches(s.most, z)
}

/// Puts the span that there is at the end of parts.
fn push_there(s: Option<Span>, parts: &mut List<Span>) -> Result<(), Memory>
    ensures { OnOk result (parts.new ≡ parts.old ++ meant.there s) }
{
    match s {
        Some(s) => parts.push(s),
        None => Ok(()),
    }
}

/// Puts what lies below a number at the end of parts.
fn push_below(c: i128, s: Span, parts: &mut List<Span>) -> Result<(), Memory>
    ensures { OnOk result (parts.new ≡ parts.old ++ meant.below c s) }
{
    let most = taken_off(c, 1)?;
    push_there(
        unless_empty(Span {
            least: s.least,
            most: Some(most),
        }),
        parts,
    )
}

/// Puts what lies above a number at the end of parts.
fn push_beyond(c: i128, s: Span, parts: &mut List<Span>) -> Result<(), Memory>
    ensures { OnOk result (parts.new ≡ parts.old ++ meant.beyond c s) }
{
    let least = added(c, 1)?;
    push_there(
        unless_empty(Span {
            least,
            most: s.most,
        }),
        parts,
    )
}

/// Puts what a cut in a span leaves at the end of parts.
fn push_parts(c: i128, s: Span, parts: &mut List<Span>) -> Result<(), Memory>
    ensures { OnOk result
        (parts.new ≡ parts.old ++ (meant.below c s ++ (meant.single c ∷ meant.beyond c s))) }
{
    push_below(c, s, parts)?;
    parts.push(single(c))?;
    push_beyond(c, s, parts)
}

/// Puts what a cut leaves of a span at the end of parts.
fn push_cut(c: i128, s: Span, parts: &mut List<Span>) -> Result<(), Memory>
    ensures { OnOk result (parts.new ≡ parts.old ++ meant.cut_at c s) }
{
    if is_within(s, c) {
        push_parts(c, s, parts)
    } else {
        parts.push(s)
    }
}

/// What a cut leaves of some spans.
pub(crate) fn cut_each(alloc: Global, c: i128, spans: &[Span]) -> Result<List<Span>, Memory>
    ensures { IfOk result (λ parts. parts ≡ flat_map (meant.cut_at c) spans.now) }
{
    let mut parts = List::new(alloc);
    for s in spans {
        push_cut(c, *s, &mut parts)?;
    }
    Ok(parts)
}
