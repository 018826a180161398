//! What two methods come to in a case, in both orders, and where these differ.

ghost use Rattle.std.specs.Prelude.{◌≡◌};
ghost use Rattle.shape_terms.specs.Points.{TellsApart};
ghost use Rattle.shape_terms.specs.Symbols.{values_at};
ghost use Rattle.commute_certs.specs.Orders.{orders, end_at, result_of, TellsOrders};
ghost use Rattle.commute_certs.specs.Answers.{Tells};

use crate::foreseeing::foresee;
use crate::foreseen::{Ending, Foreseen};
use crate::why::Untold;
use seuss_program::{Proc, Ref};
use shape_terms::{Apart, Case, NumForm, Symbol};
use std::alloc::Global;

/// What two methods come to in a case, in both orders.
#[derive(Debug, Drop)]
pub struct Orders {
    pub first: Foreseen,
    pub second_behind: Foreseen,
    pub second: Foreseen,
    pub first_behind: Foreseen,
}

/// Both methods in a case, in both orders.
pub fn in_both_orders(
    alloc: Global,
    first: &Proc<Ref>,
    second: &Proc<Ref>,
    case: &Case,
) -> Result<Orders, Untold>
    ensures { Tells result (orders first.now second.now case.now) }
{
    let (mine, theirs) = (case.first.as_slice(), case.second.as_slice());
    let begun = foresee(alloc, first, mine, case.vars.as_slice())?;
    let second_behind = foresee(alloc, second, theirs, begun.vars.as_slice())?;
    let other = foresee(alloc, second, theirs, case.vars.as_slice())?;
    let first_behind = foresee(alloc, first, mine, other.vars.as_slice())?;
    Ok(Orders {
        first: begun,
        second_behind,
        second: other,
        first_behind,
    })
}

/// Where two results differ, if they do anywhere.
fn results_apart(found: &Option<NumForm>, other: &Option<NumForm>) -> Option<Apart>
    ensures { TellsApart (result_of found.now) (result_of other.now) result }
{
    match (found, other) {
        (Some(form), Some(other)) => form.tell_apart(other),
        (None, None) => None,
        (Some(_), None) => Some(Apart::Zero),
        (None, Some(_)) => Some(Apart::Zero),
    }
}

/// Where two ends differ, if they do anywhere.
fn ends_apart(ending: &Ending, other: &Ending) -> Option<Apart>
    ensures { TellsApart (end_at ending.now) (end_at other.now) result }
{
    match (ending, other) {
        (Ending::Accepted(found), Ending::Accepted(other)) => results_apart(found, other),
        (Ending::Rejected, Ending::Rejected) => None,
        (Ending::RejectedPlainly, Ending::RejectedPlainly) => None,
        _ => Some(Apart::Zero),
    }
}

/// Where variables differ, if they do anywhere.
fn vars_apart(symbols: &[Symbol], others: &[Symbol]) -> Option<Apart>
    ensures { TellsApart (values_at symbols.now) (values_at others.now) result }
{
    if symbols.len() != others.len() {
        return Some(Apart::Zero);
    }
    for at in 0..symbols.len() {
        let apart = symbols[at].tell_apart(&others[at]);
        if apart.is_some() {
            return apart;
        }
    }
    None
}

/// Where both orders differ, if they do anywhere.
pub fn orders_apart(orders: &Orders) -> Option<Apart>
    ensures { TellsOrders orders.now result }
{
    let first = ends_apart(&orders.first_behind.ending, &orders.first.ending);
    if first.is_some() {
        return first;
    }
    let second = ends_apart(&orders.second.ending, &orders.second_behind.ending);
    if second.is_some() {
        return second;
    }
    vars_apart(
        orders.first_behind.vars.as_slice(),
        orders.second_behind.vars.as_slice(),
    )
}
