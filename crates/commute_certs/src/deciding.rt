//! The decision of a certificate, case by case, with a state that refutes it.

ghost use Rattle.std.specs.Prelude.{◌≡◌, ◌++◌, ◌∷◌, [], List as Items, Some, None, Ok, true, false, IsTrue};
ghost use Rattle.std.specs.Prelude.{IfOk};
ghost use Rattle.seuss_program.specs.declared.tree.Ref.{Ref as RefOf};
ghost use Rattle.seuss_program.specs.declared.tree.Proc.{Proc as ProcOf};
ghost use Rattle.std.specs.Option.{option_copied};
ghost use Rattle.seuss_program.specs.Keeping.{Keeps, method_at};
ghost use Rattle.shape_terms.specs.declared.case.Case.{Case as CaseOf};
ghost use Rattle.shape_terms.specs.Points.{point_of};
ghost use Rattle.shape_terms.specs.Symbols.{values_at};
ghost use Rattle.shape_terms.specs.Cases.{Pair, pair_at};
ghost use Rattle.commute_certs.specs.Foreseen.{is_plain};
ghost use Rattle.commute_certs.specs.Orders.{orders as orders_of};
ghost use Rattle.commute_certs.specs.Decisions.{Seen, Finds, Decides, verdict_by, why_by};
ghost use Rattle.commute_certs.specs.Verdicts.{IsVerdict};

use crate::foreseen::Ending;
use crate::laws;
use crate::orders::{Orders, in_both_orders, orders_apart};
use crate::singles::is_single;
use crate::verdict::Verdict;
use crate::why::{Reason, Untold, Why};
use seuss_base::{Level, List, Memory};
use seuss_program::{Cat, Proc, Program, Ref, Value, Vars};
use shape_terms::{Apart, Case, CaseRefusal, Symbol, cases};
use std::alloc::Global;

/// A state and arguments of both methods.
#[derive(Debug, Drop)]
pub struct Refutation {
    pub vars: Vars,
    pub first: List<Value>,
    pub second: List<Value>,
}

/// What is found in some cases: whether two orders differ anywhere, and a state from which they do though
/// the first method isn't plainly rejected.
#[derive(Debug, Drop)]
pub struct Found {
    pub differs: bool,
    pub loose: Option<Refutation>,
}

/// The values of symbols where they are told apart.
fn values_of(alloc: Global, symbols: &[Symbol], at: &Apart) -> Result<List<Value>, Memory>
    ensures { IfOk result (λ values. values ≡ values_at symbols.now (point_of at.now)) }
{
    let mut values = List::new(alloc);
    for symbol in symbols {
        values.push(symbol.value(alloc, at)?)?;
    }
    Ok(values)
}

/// Whether a method is plainly rejected.
fn is_plainly_rejected(ending: &Ending) -> bool
    ensures { result ≡ is_plain ending.now }
{
    match ending {
        Ending::Accepted(_) => false,
        Ending::Rejected => false,
        Ending::RejectedPlainly => true,
    }
}

/// A state of a case and arguments of both methods, where orders are told apart.
fn state_at(alloc: Global, case: &Case, at: &Apart) -> Result<Refutation, Memory>
    ensures vars { IfOk result (λ r. r.vars.values ≡ values_at case.now.vars (point_of at.now)) }
    ensures first { IfOk result (λ r. r.first ≡ values_at case.now.first (point_of at.now)) }
    ensures second { IfOk result (λ r. r.second ≡ values_at case.now.second (point_of at.now)) }
{
    let values = values_of(alloc, case.vars.as_slice(), at)?;
    let first = values_of(alloc, case.first.as_slice(), at)?;
    let second = values_of(alloc, case.second.as_slice(), at)?;
    Ok(Refutation {
        vars: Vars { values },
        first,
        second,
    })
}

/// Whether a difference brings no state: there is one, or the first method is plainly rejected.
fn brings_none(found: &Found, orders: &Orders) -> bool
    ensures known { IsTrue result → found.now.loose ≡ None → is_plain orders.now.first.ending ≡ true }
    ensures loose { result ≡ false → is_plain orders.now.first.ending ≡ false }
{
    found.loose.is_some() || is_plainly_rejected(&orders.first.ending)
}

/// What is found with one more case, whose orders these are.
fn with_case(alloc: Global, found: Found, case: &Case, orders: &Orders) -> Result<Found, Memory>
    ensures { (m n : ProcOf RefOf) (seen : Items CaseOf) → Seen m n seen found →
        orders_of m n case.now ≡ Ok orders.now →
        IfOk result (λ more. Seen m n (seen ++ case.now ∷ []) more) }
{
    let Some(at) = orders_apart(orders) else {
        return Ok(found);
    };
    if brings_none(&found, orders) {
        return Ok(Found {
            differs: true,
            loose: found.loose,
        });
    }
    Ok(Found {
        differs: true,
        loose: Some(state_at(alloc, case, &at)?),
    })
}

/// What is found over all cases.
fn find(
    alloc: Global,
    first: &Proc<Ref>,
    second: &Proc<Ref>,
    cases: &[Case],
) -> Result<Found, Untold>
    ensures { Finds first.now second.now cases.now result }
{
    let mut found = Found {
        differs: false,
        loose: None,
    };
    for case in cases {
        let orders = in_both_orders(alloc, first, second, case)?;
        found = with_case(alloc, found, case, &orders)?;
    }
    Ok(found)
}

/// The verdict by what is found over all cases.
fn verdict_of(found: Found) -> Verdict
    ensures { result ≡ verdict_by found.differs found.loose }
{
    let Found { differs, loose } = found;
    match loose {
        Some(refutation) => Verdict::No {
            vars: refutation.vars,
            first: refutation.first,
            second: refutation.second,
        },
        None => Verdict::Yes(if differs { Level::Loose } else { Level::Firm }),
    }
}

/// Why a pair is unclear, by what isn't told in a case.
fn why_of(reason: Reason) -> Why
    ensures { result ≡ why_by reason }
{
    match reason {
        Reason::MayTrap => Why::MayTrap,
        Reason::UndecidedCondition => Why::UndecidedCondition,
        Reason::NotShown => Why::NotShown,
    }
}

/// The verdict over the cases of two single methods.
fn over_cases(
    alloc: Global,
    first: &Proc<Ref>,
    second: &Proc<Ref>,
    cases: &[Case],
) -> Result<Verdict, Memory>
    ensures { IfOk result (λ verdict. Decides first.now second.now cases.now verdict) }
{
    match find(alloc, first, second, cases) {
        Ok(found) => Ok(verdict_of(found)),
        Err(Untold::Reason(reason)) => Ok(Verdict::Unclear(why_of(reason))),
        Err(Untold::Memory) => Err(Memory),
    }
}

/// A method of a cat.
fn method(own: &Cat<Ref>, name: Ref) -> Option<&Proc<Ref>>
    ensures { option_copied result ≡ method_at name own.now }
{
    match name {
        Ref::Method(number) => own.procs.get(number as u64),
        Ref::Var(_) => None,
        Ref::Slot(_) => None,
        Ref::Given(_) => None,
        Ref::Cat(_) => None,
    }
}

/// Decides a certificate of these two methods.
fn decide_for(
    alloc: Global,
    program: &Program,
    cat: u32,
    semi: u32,
    first: &Proc<Ref>,
    second: &Proc<Ref>,
) -> Result<Verdict, Memory>
    requires { Keeps program.now }
    ensures { (pair : Pair) → pair_at program.now cat semi ≡ Some pair → pair.first ≡ first.now →
        pair.second ≡ second.now →
        IfOk result (λ verdict. IsVerdict pair verdict) }
{
    laws::decided_is_verdict();
    if !is_single(&first.form) || !is_single(&second.form) {
        return Ok(Verdict::Unclear(Why::NotSingle));
    }
    match cases(alloc, program, cat, semi) {
        Ok(all) => over_cases(alloc, first, second, all.as_slice()),
        Err(CaseRefusal::TooMany(_)) => Ok(Verdict::Unclear(Why::TooManyCases)),
        Err(CaseRefusal::Memory) => Err(Memory),
    }
}

/// Decides a certificate of a cat: the highest level at which its first method semicommutes over its second
/// one, or a state from which it doesn't at loose, or why its cases don't tell.
pub fn decide(alloc: Global, program: &Program, cat: u32, semi: u32) -> Result<Verdict, Memory>
    requires { Keeps program.now }
    ensures { (pair : Pair) → pair_at program.now cat semi ≡ Some pair →
        IfOk result (λ verdict. IsVerdict pair verdict) }
{
    let Some(own) = program.cats.get(cat as u64) else {
        return Ok(Verdict::Unclear(Why::NotSingle));
    };
    let Some(certificate) = own.semis.get(semi as u64) else {
        return Ok(Verdict::Unclear(Why::NotSingle));
    };
    let Some(first) = method(own, certificate.first) else {
        return Ok(Verdict::Unclear(Why::NotSingle));
    };
    let Some(second) = method(own, certificate.second) else {
        return Ok(Verdict::Unclear(Why::NotSingle));
    };
    decide_for(alloc, program, cat, semi, first, second)
}
