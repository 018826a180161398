//! The list of cases of a certificate, where they aren't too many.

ghost use Rattle.std.specs.Prelude.{◌≡◌, ◌≤◌, ◌++◌, ◌+◌, map, length, Some, All, IfOk, OnOk};
ghost use Rattle.std.specs.Option.{option_copied};
ghost use Rattle.seuss_program.specs.Keeping.{Keeps, method_at};
ghost use Rattle.seuss_program.specs.declared.tree.Ref.{Ref};
ghost use Rattle.seuss_program.specs.declared.tree.Hint.{Hint};
ghost use Rattle.shape_terms.specs.Cases.{first_above as above_first, cases_with, cases_from};
ghost use Rattle.shape_terms.specs.Cases.{cases_between as between, Pair, pair_of, pair_at, AreCases};
ghost use Rattle.shape_terms.specs.Cases.{AreCasesOf};
ghost use Rattle.shape_terms.specs.Cases.{HasFew};

use crate::case::Case;
use crate::choices::{param_choices, vars_choices};
use crate::refusal::CaseRefusal;
use crate::rows_of_symbols::{copies, rows_of};
use crate::symbol::Symbol;
use seuss_base::{List, Memory};
use seuss_program::{Cat, Hint, Proc, Program, Ref, Semi};
use std::alloc::Global;

/// Puts how many cases places have at the end of counts.
fn push_counts(counts: &mut List<u64>, choices: &[List<Symbol>]) -> Result<(), Memory>
    ensures { OnOk result (counts.new ≡ counts.old ++ map length choices.now) }
{
    for symbols in choices {
        counts.push(symbols.len())?;
    }
    Ok(())
}

/// The first product of counts that passes 4,096.
fn first_above(counts: &[u64]) -> Option<u64>
    requires { All (λ count. count ≤ 9) counts.now }
    ensures { result ≡ above_first 1 counts.now }
{
    let mut product = 1u64;
    for count in counts {
        product *= *count;
        if product > 4096 {
            return Some(product);
        }
    }
    None
}

/// Puts the cases of a row of variables and one of parameters at the end of cases.
fn push_with(
    alloc: Global,
    cases: &mut List<Case>,
    vars: &List<Symbol>,
    first: &List<Symbol>,
    seconds: &[List<Symbol>],
) -> Result<(), Memory>
    ensures { OnOk result (cases.new ≡ cases.old ++ cases_with vars.now first.now seconds.now) }
{
    for second in seconds {
        let vars = copies(alloc, vars.as_slice())?;
        let first = copies(alloc, first.as_slice())?;
        let second = copies(alloc, second.as_slice())?;
        cases.push(Case {
            vars,
            first,
            second,
        })?;
    }
    Ok(())
}

/// Puts the cases of a row of variables at the end of cases.
fn push_from(
    alloc: Global,
    cases: &mut List<Case>,
    vars: &List<Symbol>,
    firsts: &[List<Symbol>],
    seconds: &[List<Symbol>],
) -> Result<(), Memory>
    ensures { OnOk result (cases.new ≡ cases.old ++ cases_from vars.now firsts.now seconds.now) }
{
    for first in firsts {
        push_with(alloc, cases, vars, first, seconds)?;
    }
    Ok(())
}

/// The cases of rows of variables and of parameters.
fn cases_between(
    alloc: Global,
    rows: &[List<Symbol>],
    firsts: &[List<Symbol>],
    seconds: &[List<Symbol>],
) -> Result<List<Case>, Memory>
    ensures { IfOk result (λ cases. cases ≡ between rows.now firsts.now seconds.now) }
{
    let mut cases = List::new(alloc);
    for vars in rows {
        push_from(alloc, &mut cases, vars, firsts, seconds)?;
    }
    Ok(cases)
}

/// How many cases each place has.
fn counts_of(
    alloc: Global,
    vars: &[List<Symbol>],
    firsts: &[List<Symbol>],
    seconds: &[List<Symbol>],
) -> Result<List<u64>, Memory>
    ensures { IfOk result (λ counts. counts ≡ map length (vars.now ++ firsts.now ++ seconds.now)) }
{
    let mut counts = List::new(alloc);
    push_counts(&mut counts, vars)?;
    push_counts(&mut counts, firsts)?;
    push_counts(&mut counts, seconds)?;
    Ok(counts)
}

/// All cases of places, where they are few.
fn cases_of(
    alloc: Global,
    vars: &[List<Symbol>],
    firsts: &[List<Symbol>],
    seconds: &[List<Symbol>],
) -> Result<List<Case>, CaseRefusal>
    requires { All (λ count. count ≤ 9) (map length (vars.now ++ firsts.now ++ seconds.now)) }
    ensures { AreCasesOf vars.now firsts.now seconds.now result }
{
    let counts = counts_of(alloc, vars, firsts, seconds)?;
    if let Some(count) = first_above(counts.as_slice()) {
        return Err(CaseRefusal::TooMany(count));
    }
    let rows = rows_of(alloc, vars)?;
    let firsts = rows_of(alloc, firsts)?;
    let seconds = rows_of(alloc, seconds)?;
    Ok(cases_between(
        alloc,
        rows.as_slice(),
        firsts.as_slice(),
        seconds.as_slice(),
    )?)
}

/// The cases of two methods of a cat.
fn cases_for(
    alloc: Global,
    own: &Cat<Ref>,
    first: &Proc<Ref>,
    second: &Proc<Ref>,
    hints: &[Hint<Ref>],
) -> Result<List<Case>, CaseRefusal>
    requires vars { length own.now.vars ≤ 32 }
    requires first { length first.now.params ≤ 32 }
    requires second { length second.now.params ≤ 32 }
    requires depths { All (λ (h : Hint Ref). h.depth ≤ 4) hints.now }
    ensures { AreCases (record { cat = own.now; first = first.now; second = second.now; hints = hints.now })
        result }
{
    let count = own.vars.len() as u32;
    let vars = vars_choices(alloc, own.vars.as_slice(), first, second, hints)?;
    let firsts = param_choices(alloc, count, first.params.as_slice())?;
    let place = count + first.params.len() as u32;
    let seconds = param_choices(alloc, place, second.params.as_slice())?;
    cases_of(
        alloc,
        vars.as_slice(),
        firsts.as_slice(),
        seconds.as_slice(),
    )
}

/// A method of a cat.
fn method(own: &Cat<Ref>, name: Ref) -> Option<&Proc<Ref>>
    ensures { option_copied result ≡ method_at name own.now }
{
    match name {
        Ref::Method(number) => own.procs.get(number as u64),
        Ref::Var(_) => None,
        Ref::Slot(_) => None,
        Ref::Given(_) => None,
        Ref::Cat(_) => None,
    }
}

/// The cases of a certificate of a cat.
fn cases_in(alloc: Global, own: &Cat<Ref>, semi: &Semi<Ref>) -> Result<List<Case>, CaseRefusal>
    requires few { HasFew own.now }
    requires depths { All (λ (h : Hint Ref). h.depth ≤ 4) semi.now.hints }
    ensures { (pair : Pair) → pair_of own.now semi.now ≡ Some pair → AreCases pair result }
{
    let Some(first) = method(own, semi.first) else {
        return Ok(List::new(alloc));
    };
    let Some(second) = method(own, semi.second) else {
        return Ok(List::new(alloc));
    };
    cases_for(alloc, own, first, second, semi.hints.as_slice())
}

/// The cases of a certificate: for each of them, what the variables of its cat and the parameters of both
/// methods are. Every state and all arguments are of exactly one of them.
pub fn cases(
    alloc: Global,
    program: &Program,
    cat: u32,
    semi: u32,
) -> Result<List<Case>, CaseRefusal>
    requires { Keeps program.now }
    ensures { (pair : Pair) → pair_at program.now cat semi ≡ Some pair → AreCases pair result }
{
    let Some(own) = program.cats.get(cat as u64) else {
        return Ok(List::new(alloc));
    };
    let Some(semi) = own.semis.get(semi as u64) else {
        return Ok(List::new(alloc));
    };
    cases_in(alloc, own, semi)
}
