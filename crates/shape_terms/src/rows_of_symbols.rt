//! Each way to take one symbol of each place.

ghost use Rattle.std.specs.Prelude.{◌≡◌, ◌++◌, ◌∷◌, [], map, length, List as Items, IfOk, OnOk};
ghost use Rattle.shape_terms.specs.declared.symbol.Symbol.{Symbol as SymbolOf};
ghost use Rattle.shape_terms.specs.Cases.{rows_before as rows_before_of, rows_of as rows_by};

use crate::symbol::Symbol;
use seuss_base::{List, Memory};
use std::alloc::Global;

/// Symbols that are equal, one by one.
pub(crate) fn copies(alloc: Global, symbols: &[Symbol]) -> Result<List<Symbol>, Memory>
    ensures { IfOk result (λ copied. copied ≡ symbols.now) }
{
    let mut copied = List::new(alloc);
    for symbol in symbols {
        copied.push(symbol.copy(alloc)?)?;
    }
    Ok(copied)
}

/// A row with one more symbol.
fn with_last(alloc: Global, row: &[Symbol], symbol: &Symbol) -> Result<List<Symbol>, Memory>
    ensures { IfOk result (λ longer. longer ≡ row.now ++ symbol.now ∷ []) }
{
    let mut longer = copies(alloc, row)?;
    longer.push(symbol.copy(alloc)?)?;
    Ok(longer)
}

/// Puts a row with each of some symbols behind it at the end of rows.
fn push_rows(
    alloc: Global,
    rows: &mut List<List<Symbol>>,
    row: &[Symbol],
    symbols: &[Symbol],
) -> Result<(), Memory>
    ensures { OnOk result (rows.new ≡ rows.old ++ map (λ (s : SymbolOf). row.now ++ s ∷ []) symbols.now) }
{
    for symbol in symbols {
        rows.push(with_last(alloc, row, symbol)?)?;
    }
    Ok(())
}

/// Each row with each of some symbols behind it.
fn rows_before(
    alloc: Global,
    rows: &[List<Symbol>],
    symbols: &[Symbol],
) -> Result<List<List<Symbol>>, Memory>
    ensures { IfOk result (λ longer. longer ≡ rows_before_of rows.now symbols.now) }
{
    let mut longer = List::new(alloc);
    for row in rows {
        push_rows(alloc, &mut longer, row.as_slice(), symbols)?;
    }
    Ok(longer)
}

/// Each way to take one symbol of each place.
pub(crate) fn rows_of(alloc: Global, choices: &[List<Symbol>]) -> Result<List<List<Symbol>>, Memory>
    ensures { IfOk result (λ rows. rows ≡ rows_by choices.now) }
{
    let mut rows = List::new(alloc);
    rows.push(List::new(alloc))?;
    for symbols in choices {
        rows = rows_before(alloc, rows.as_slice(), symbols.as_slice())?;
    }
    Ok(rows)
}
