//! Whether a method is single: without preprocedures, calls and loops.

ghost use Rattle.std.specs.Prelude.{◌≡◌, ◌&&◌, is_none};
ghost use Rattle.method_code.specs.Singles.{is_single as single_form, is_single_body, is_single_statement};
ghost use Rattle.method_code.specs.Singles.{are_single as single_alternatives};

use seuss_program::{Alternative, Form, Ref, Statement};

/// Whether statements have no call and no loop.
#[cycle(singles)]
fn single_body(statements: &[Statement<Ref>]) -> bool
    ensures { result ≡ is_single_body statements.now }
{
    for statement in statements {
        if !single_statement(statement) {
            return false;
        }
    }
    true
}

/// Whether a statement has no call and no loop.
#[cycle(singles)]
fn single_statement(statement: &Statement<Ref>) -> bool
    ensures { result ≡ is_single_statement statement.now }
{
    match statement {
        Statement::Let { .. } => true,
        Statement::Assign { .. } => true,
        Statement::Call { .. } => false,
        Statement::If { yes, no, .. } => {
            single_body(yes.as_slice()) && single_body(no.as_slice())
        }
        Statement::While { .. } => false,
    }
}

/// Whether an alternative has no preprocedure, no call and no loop.
fn is_single_one(alternative: &Alternative<Ref>) -> bool
    ensures { result ≡ (is_none alternative.now.pre && is_single_body alternative.now.body) }
{
    alternative.pre.is_none() && single_body(alternative.body.as_slice())
}

/// Whether alternatives have no preprocedure, no call and no loop.
fn are_single(alternatives: &[Alternative<Ref>]) -> bool
    ensures { result ≡ single_alternatives alternatives.now }
{
    for alternative in alternatives {
        if !is_single_one(alternative) {
            return false;
        }
    }
    true
}

/// Whether a procedure has no preprocedure, no call and no loop.
pub fn is_single(form: &Form<Ref>) -> bool
    ensures { result ≡ single_form form.now }
{
    match form {
        Form::Total(statements) => single_body(statements.as_slice()),
        Form::Partial(alternatives) => are_single(alternatives.as_slice()),
        Form::Action(alternatives) => are_single(alternatives.as_slice()),
    }
}
