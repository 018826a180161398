//! The names that texts assign.

ghost use Rattle.std.specs.Prelude.{◌≡◌, ◌++◌, IfOk, OnOk};
ghost use Rattle.safety_check.specs.Ends as ends;
ghost use Rattle.safety_check.specs.Texts as meant;

use seuss_base::{List, Memory};
use seuss_program::{Alternative, Form, Pre, Ref, Statement};
use std::alloc::Global;

/// Puts the name that takes a result, where there is one, at the end of names.
pub(crate) fn add_taking(bind: Option<Ref>, names: &mut List<Ref>) -> Result<(), Memory>
    ensures { OnOk result (names.new ≡ names.old ++ ends.taking bind) }
{
    match bind {
        Some(name) => names.push(name),
        None => Ok(()),
    }
}

/// Puts the names that statements assign at the end of names.
#[cycle(assigned)]
fn add_body(statements: &[Statement<Ref>], names: &mut List<Ref>) -> Result<(), Memory>
    ensures { OnOk result (names.new ≡ names.old ++ ends.names_in statements.now) }
{
    for statement in statements {
        add_statement(statement, names)?;
    }
    Ok(())
}

/// Puts the names that a statement assigns at the end of names.
#[cycle(assigned)]
fn add_statement(statement: &Statement<Ref>, names: &mut List<Ref>) -> Result<(), Memory>
    ensures { OnOk result (names.new ≡ names.old ++ (ends.way_of statement.now).names) }
{
    match statement {
        Statement::Let { name, .. } => names.push(*name),
        Statement::Assign { name, .. } => names.push(*name),
        Statement::Call { bind, .. } => add_taking(*bind, names),
        Statement::If { yes, no, .. } => {
            add_body(yes.as_slice(), names)?;
            add_body(no.as_slice(), names)
        }
        Statement::While { turn, .. } => add_body(turn.as_slice(), names),
    }
}

/// The names that a body assigns.
pub(crate) fn names_in(alloc: Global, body: &[Statement<Ref>]) -> Result<List<Ref>, Memory>
    ensures { IfOk result (λ names. names ≡ ends.names_in body.now) }
{
    let mut names = List::new(alloc);
    add_body(body, &mut names)?;
    Ok(names)
}

/// Puts the name that takes the result of a preprocedure at the end of names.
fn add_pre(pre: &Option<Pre<Ref>>, names: &mut List<Ref>) -> Result<(), Memory>
    ensures { OnOk result (names.new ≡ names.old ++ meant.pre_names pre.now) }
{
    match pre {
        Some(pre) => add_taking(pre.bind, names),
        None => Ok(()),
    }
}

/// Puts the names that an alternative assigns at the end of names.
fn add_alternative(a: &Alternative<Ref>, names: &mut List<Ref>) -> Result<(), Memory>
    ensures { OnOk result
        (names.new ≡ names.old ++ (meant.pre_names a.now.pre ++ ends.names_in a.now.body)) }
{
    add_pre(&a.pre, names)?;
    add_body(a.body.as_slice(), names)
}

/// The names that alternatives assign.
fn alternatives_names(alloc: Global, alts: &[Alternative<Ref>]) -> Result<List<Ref>, Memory>
    ensures { IfOk result (λ names. names ≡ meant.alternatives_names alts.now) }
{
    let mut names = List::new(alloc);
    for a in alts {
        add_alternative(a, &mut names)?;
    }
    Ok(names)
}

/// The names that a procedure assigns.
pub(crate) fn form_names(alloc: Global, form: &Form<Ref>) -> Result<List<Ref>, Memory>
    ensures { IfOk result (λ names. names ≡ meant.form_names form.now) }
{
    match form {
        Form::Total(body) => names_in(alloc, body.as_slice()),
        Form::Partial(alts) => alternatives_names(alloc, alts.as_slice()),
        Form::Action(alts) => alternatives_names(alloc, alts.as_slice()),
    }
}
