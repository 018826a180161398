//! What statements leave in a case.

ghost use Rattle.std.specs.Prelude.{◌≡◌, slice_set};
ghost use Rattle.commute_certs.specs.Terms.{told, and_then, truth_in as truth_by};
ghost use Rattle.commute_certs.specs.Bodies.{put as put_by, put_told, body as body_by};
ghost use Rattle.commute_certs.specs.Bodies.{statement as statement_by};
ghost use Rattle.commute_certs.specs.Answers.{Tells};

use crate::parts::truth_in;
use crate::places::Places;
use crate::term::tell;
use crate::why::{Reason, Untold};
use seuss_base::List;
use seuss_program::{Expr, Ref, Statement};
use shape_terms::Symbol;
use std::alloc::Global;

/// Puts a symbol in a place of a list, if there is such a place.
fn put_at(symbols: &mut List<Symbol>, at: u32, symbol: Symbol)
    ensures { symbols.new ≡ slice_set symbols.old at symbol }
{
    let at = at as u64;
    if at < symbols.len() {
        symbols.set(at, symbol);
    }
}

/// A name takes a symbol: a variable of the box, or a slot.
fn put(name: Ref, symbol: Symbol, places: Places) -> Places
    ensures { result ≡ put_by name symbol places }
{
    let Places {
        mut vars,
        mut slots,
    } = places;
    match name {
        Ref::Var(at) => put_at(&mut vars, at, symbol),
        Ref::Slot(at) => put_at(&mut slots, at, symbol),
        Ref::Given(_) | Ref::Method(_) | Ref::Cat(_) => {}
    }
    Places { vars, slots }
}

/// A name takes what an expression comes to.
fn assign(alloc: Global, name: Ref, value: &Expr<Ref>, places: Places) -> Result<Places, Untold>
    ensures { Tells result (put_told name (told value.now places.vars places.slots) places) }
{
    let symbol = tell(
        alloc,
        value,
        places.vars.as_slice(),
        places.slots.as_slice(),
    )?;
    Ok(put(name, symbol, places))
}

/// Whether a condition holds in a case.
pub fn condition(alloc: Global, cond: &Expr<Ref>, places: &Places) -> Result<bool, Untold>
    ensures { Tells result (and_then (told cond.now places.now.vars places.now.slots) truth_by) }
{
    truth_in(&tell(alloc, cond, places.vars.as_slice(), places.slots.as_slice())?)
}

/// What statements leave, one after the other.
#[cycle(bodies)]
pub fn run_body(
    alloc: Global,
    statements: &[Statement<Ref>],
    places: Places,
) -> Result<Places, Untold>
    ensures { Tells result (body_by statements.now places) }
{
    let mut places = places;
    for statement in statements {
        places = run_statement(alloc, statement, places)?;
    }
    Ok(places)
}

/// What one statement leaves.
#[cycle(bodies)]
fn run_statement(
    alloc: Global,
    statement: &Statement<Ref>,
    places: Places,
) -> Result<Places, Untold>
    ensures { Tells result (statement_by statement.now places) }
{
    match statement {
        Statement::Let { name, value, .. } => assign(alloc, *name, value, places),
        Statement::Assign { name, value } => assign(alloc, *name, value, places),
        Statement::Call { .. } => Err(Untold::Reason(Reason::MayTrap)),
        Statement::If { cond, yes, no } => {
            if condition(alloc, cond, &places)? {
                run_body(alloc, yes.as_slice(), places)
            } else {
                run_body(alloc, no.as_slice(), places)
            }
        }
        Statement::While { .. } => Err(Untold::Reason(Reason::MayTrap)),
    }
}
