//! Whether a variable stands in the text of a procedure.

ghost use Rattle.std.specs.Prelude.{◌≡◌, ◌||◌};
ghost use Rattle.shape_terms.specs.Texts.{is_variable as names, is_bound as bound_by};
ghost use Rattle.shape_terms.specs.Texts.{in_expression as expression_has, in_some as some_has};
ghost use Rattle.shape_terms.specs.Texts.{in_call as call_has, in_statement as statement_has};
ghost use Rattle.shape_terms.specs.Texts.{in_body as body_has, in_pre as pre_has};
ghost use Rattle.shape_terms.specs.Texts.{in_alternative as alternative_has};
ghost use Rattle.shape_terms.specs.Texts.{in_alternatives as alternatives_have, in_form as form_has};

use seuss_program::{Alternative, Call, Expr, Form, Node, Pre, Ref, Statement};

fn either(left: bool, right: bool) -> bool
    ensures { result ≡ (left || right) }
{
    left || right
}

/// Whether a name is that of a variable.
pub(crate) fn is_variable(variable: u32, name: Ref) -> bool
    ensures { result ≡ names variable name }
{
    match name {
        Ref::Var(number) => number == variable,
        Ref::Slot(_) => false,
        Ref::Given(_) => false,
        Ref::Method(_) => false,
        Ref::Cat(_) => false,
    }
}

fn is_bound(variable: u32, bind: &Option<Ref>) -> bool
    ensures { result ≡ bound_by variable bind.now }
{
    match bind {
        Some(name) => is_variable(variable, *name),
        None => false,
    }
}

/// Whether a variable stands in an expression.
fn in_expression(variable: u32, expr: &Expr<Ref>) -> bool
    ensures { result ≡ expression_has variable expr.now }
{
    match &expr.node {
        Node::Int(_) => false,
        Node::Bool(_) => false,
        Node::Empty => false,
        Node::Name(name) => is_variable(variable, *name),
        Node::Neg(part) => in_expression(variable, part),
        Node::Not(part) => in_expression(variable, part),
        Node::Two(_, left, right) => either(
            in_expression(variable, left),
            in_expression(variable, right),
        ),
        Node::One(_, part) => in_expression(variable, part),
    }
}

fn in_some(variable: u32, exprs: &[Expr<Ref>]) -> bool
    ensures { result ≡ some_has variable exprs.now }
{
    for expr in exprs {
        if in_expression(variable, expr) {
            return true;
        }
    }
    false
}

fn in_call(variable: u32, bind: &Option<Ref>, call: &Call<Ref>) -> bool
    ensures { result ≡ call_has variable bind.now call.now }
{
    either(
        is_bound(variable, bind),
        in_some(variable, call.args.as_slice()),
    )
}

/// Whether a variable stands in a statement.
#[cycle(in_statement)]
fn in_statement(variable: u32, statement: &Statement<Ref>) -> bool
    ensures { result ≡ statement_has variable statement.now }
{
    match statement {
        Statement::Let { name, value, .. } => either(
            is_variable(variable, *name),
            in_expression(variable, value),
        ),
        Statement::Assign { name, value } => either(
            is_variable(variable, *name),
            in_expression(variable, value),
        ),
        Statement::Call { bind, call } => in_call(variable, bind, call),
        Statement::If { cond, yes, no } => either(
            in_expression(variable, cond),
            either(
                in_body(variable, yes.as_slice()),
                in_body(variable, no.as_slice()),
            ),
        ),
        Statement::While { cond, turn } => either(
            in_expression(variable, cond),
            in_body(variable, turn.as_slice()),
        ),
    }
}

#[cycle(in_statement)]
fn in_body(variable: u32, statements: &[Statement<Ref>]) -> bool
    ensures { result ≡ body_has variable statements.now }
{
    for statement in statements {
        if in_statement(variable, statement) {
            return true;
        }
    }
    false
}

fn in_pre(variable: u32, pre: &Option<Pre<Ref>>) -> bool
    ensures { result ≡ pre_has variable pre.now }
{
    match pre {
        Some(pre) => in_call(variable, &pre.bind, &pre.call),
        None => false,
    }
}

fn in_alternative(variable: u32, alternative: &Alternative<Ref>) -> bool
    ensures { result ≡ alternative_has variable alternative.now }
{
    either(
        in_expression(variable, &alternative.cond),
        either(
            in_pre(variable, &alternative.pre),
            in_body(variable, alternative.body.as_slice()),
        ),
    )
}

fn in_alternatives(variable: u32, alternatives: &[Alternative<Ref>]) -> bool
    ensures { result ≡ alternatives_have variable alternatives.now }
{
    for alternative in alternatives {
        if in_alternative(variable, alternative) {
            return true;
        }
    }
    false
}

/// Whether a variable stands in the text of a procedure.
pub(crate) fn in_form(variable: u32, form: &Form<Ref>) -> bool
    ensures { result ≡ form_has variable form.now }
{
    match form {
        Form::Total(body) => in_body(variable, body.as_slice()),
        Form::Partial(alternatives) => in_alternatives(variable, alternatives.as_slice()),
        Form::Action(alternatives) => in_alternatives(variable, alternatives.as_slice()),
    }
}
