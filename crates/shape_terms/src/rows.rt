//! Rows of coefficients modulo 2^64.

ghost use Rattle.std.specs.Prelude.{◌≡◌, ℕ, ℤ, pos, ◌+ℤ◌, ◌*ℤ◌, ◌++◌, ◌∷◌, [], replicate, slice_index_or};
ghost use Rattle.std.specs.Prelude.{IfOk};
ghost use Rattle.std.specs.Prelude.{MatchOption, ◌≢◌, Some, None, ◌&&◌, if◌then◌else◌};
ghost use Rattle.std.specs.Int.{w64, int_wrap};
ghost use Rattle.shape_terms.specs.Numbers.{coefficient as coefficient_of, unit as unit_of};
ghost use Rattle.shape_terms.specs.Numbers.{with_times as times_of, rows_with as rows_of};
ghost use Rattle.shape_terms.specs.Numbers.{is_zero as zero_of};
ghost use Rattle.shape_terms.specs.Rows.{RowsDiffer, SaysZero, first_apart as apart_by};

use crate::apart::Apart;
use seuss_base::{List, Memory};
use std::alloc::Global;

/// The coefficient at a place, which is 0 past the end.
pub(crate) fn coefficient(row: &List<i64>, at: u64) -> i64
    ensures { result ≡ coefficient_of row.now at }
{
    match row.as_slice().get(at as usize) {
        Some(c) => *c,
        None => 0,
    }
}

/// The row whose one coefficient is 1.
pub(crate) fn unit(alloc: Global, at: u32) -> Result<List<i64>, Memory>
    ensures { IfOk result (λ row. row ≡ unit_of at) }
{
    let mut row = List::from_vec(vec![in alloc; 0i64; at as usize]?);
    row.push(1)?;
    Ok(row)
}

/// A product modulo 2^64, in the signed range.
fn product(x: i64, y: i64) -> i64
    ensures { result ≡ int_wrap w64 (x *ℤ y) }
{
    x.wrapping_mul(y)
}

/// A sum modulo 2^64, in the signed range.
pub(crate) fn sum(x: i64, y: i64) -> i64
    ensures { result ≡ int_wrap w64 (x +ℤ y) }
{
    x.wrapping_add(y)
}

/// A number and some times another one, modulo 2^64.
pub(crate) fn with_times(k: i64, x: i64, y: i64) -> i64
    ensures { result ≡ times_of k x y }
{
    sum(x, product(k, y))
}

/// A row and some times another one, place by place.
pub(crate) fn rows_with(
    alloc: Global,
    k: i64,
    xs: &List<i64>,
    ys: &List<i64>,
) -> Result<List<i64>, Memory>
    ensures { IfOk result (λ row. row ≡ rows_of k xs.now ys.now) }
{
    let mut row = List::new(alloc);
    for at in 0..xs.len().max(ys.len()) {
        row.push(with_times(k, coefficient(xs, at), coefficient(ys, at)))?;
    }
    Ok(row)
}

/// An equal row of its own.
pub(crate) fn copy(alloc: Global, row: &List<i64>) -> Result<List<i64>, Memory>
    ensures { IfOk result (λ copied. copied ≡ row.now) }
{
    Ok(List::from_vec(Vec::from_slice(alloc, row.as_slice())?))
}

/// Whether a row has no coefficient but 0.
pub(crate) fn is_zero(row: &List<i64>) -> bool
    ensures value { result ≡ zero_of row.now }
    ensures says { SaysZero row.now result }
{
    for c in row.as_slice() {
        if *c != 0 {
            return false;
        }
    }
    true
}

/// The first place at which two rows differ.
pub(crate) fn rows_apart(xs: &List<i64>, ys: &List<i64>) -> Option<u64>
    ensures { RowsDiffer xs.now ys.now result }
{
    for at in 0..xs.len().max(ys.len()) {
        if coefficient(xs, at) != coefficient(ys, at) {
            return Some(at);
        }
    }
    None
}

/// The point that tells forms apart, by what differs first.
pub(crate) fn first_apart(
    constants: bool,
    atoms: Option<u64>,
    lengths: Option<u64>,
) -> Option<Apart>
    ensures { result ≡ apart_by constants atoms lengths }
{
    match (constants, atoms, lengths) {
        (true, _, _) => Some(Apart::Zero),
        (false, Some(at), _) => Some(Apart::Atom(at)),
        (false, None, Some(at)) => Some(Apart::Rest(at, 0)),
        (false, None, None) => None,
    }
}

/// The constant of a form, where both of its rows have no coefficient.
pub(crate) fn literal_if(atoms: bool, lengths: bool, constant: i64) -> Option<i64>
    ensures { result ≡ (if atoms && lengths then Some constant else None) }
{
    if atoms && lengths {
        Some(constant)
    } else {
        None
    }
}

/// Another number.
pub(crate) fn other(x: i64) -> i64
    ensures { result ≢ x }
{
    if x == 0 { 1 } else { 0 }
}
