//! The names in texts, and the literals with which they are compared.

ghost use Rattle.std.specs.Prelude.{◌≡◌, ◌++◌, ◌∷◌, [], map, neg_ℤ, option_map, IfOk, OnOk};
ghost use Rattle.safety_check.specs.Ends as ends;
ghost use Rattle.safety_check.specs.Safety as answers;
ghost use Rattle.safety_check.specs.Texts as meant;

use crate::assigned::add_taking;
use crate::sides::is_comparison;
use safety_check::{Cut, Look, Property, Seen};
use seuss_base::{List, Memory};
use seuss_program::{Alternative, Call, Expr, Form, Fun, Node, Op, Pre, Proc, Ref, Statement};
use std::alloc::Global;

/// Puts the names in an expression at the end of names.
fn add_names(expr: &Expr<Ref>, names: &mut List<Ref>) -> Result<(), Memory>
    ensures { OnOk result (names.new ≡ names.old ++ meant.expr_names expr.now) }
{
    match &expr.node {
        Node::Int(_) => Ok(()),
        Node::Bool(_) => Ok(()),
        Node::Empty => Ok(()),
        Node::Name(name) => names.push(*name),
        Node::Neg(part) => add_names(part, names),
        Node::Not(part) => add_names(part, names),
        Node::Two(_, left, right) => {
            add_names(left, names)?;
            add_names(right, names)
        }
        Node::One(_, part) => add_names(part, names),
    }
}

/// The names in an expression.
pub(crate) fn expr_names(alloc: Global, expr: &Expr<Ref>) -> Result<List<Ref>, Memory>
    ensures { IfOk result (λ names. names ≡ meant.expr_names expr.now) }
{
    let mut names = List::new(alloc);
    add_names(expr, &mut names)?;
    Ok(names)
}

/// A look at an expression that is no number in digits, no literal and no name.
fn other_look() -> Look
    ensures { result ≡ meant.other_look }
{
    Look {
        digits: None,
        literal: None,
        name: None,
        subject: None,
    }
}

/// A number in digits.
fn number_look(z: i64) -> Look
    ensures { result ≡ meant.number_look z }
{
    Look {
        digits: Some(z),
        literal: Some(z as i128),
        name: None,
        subject: None,
    }
}

/// A name.
fn name_look(name: Ref) -> Look
    ensures { result ≡ meant.name_look name }
{
    Look {
        digits: None,
        literal: None,
        name: Some(name),
        subject: Some(name),
    }
}

/// The literal that a minus makes of a number in digits.
fn minus(digits: Option<i64>) -> Option<i128>
    ensures { result ≡ option_map neg_ℤ digits }
{
    match digits {
        Some(z) => Some(-(z as i128)),
        None => None,
    }
}

/// A minus before a part.
fn negated_look(look: Look) -> Look
    ensures { result ≡ meant.negated_look look }
{
    Look {
        digits: None,
        literal: minus(look.digits),
        name: None,
        subject: None,
    }
}

/// The name whose length a function gives.
fn length_subject(fun: Fun, name: Option<Ref>) -> Option<Ref>
    ensures { result ≡ meant.length_subject fun name }
{
    match fun {
        Fun::First | Fun::Last | Fun::Rest | Fun::Front => None,
        Fun::Len => name,
    }
}

/// A function of a sequence.
fn measured_look(fun: Fun, look: Look) -> Look
    ensures { result ≡ meant.measured_look fun look }
{
    Look {
        digits: None,
        literal: None,
        name: None,
        subject: length_subject(fun, look.name),
    }
}

/// Puts the cut of a name beside a literal at the end of cuts.
fn add_cut(name: Option<Ref>, number: Option<i128>, cuts: &mut List<Cut>) -> Result<(), Memory>
    ensures { OnOk result (cuts.new ≡ cuts.old ++ meant.cut_of name number) }
{
    match (name, number) {
        (Some(name), Some(number)) => cuts.push(Cut { name, number }),
        (Some(_), None) => Ok(()),
        (None, _) => Ok(()),
    }
}

/// Puts the cuts of two parts under an operator at the end of cuts.
fn add_compared(op: Op, l: Look, r: Look, cuts: &mut List<Cut>) -> Result<(), Memory>
    ensures { OnOk result (cuts.new ≡ cuts.old ++ meant.compared_cuts op l r) }
{
    if !is_comparison(op) {
        return Ok(());
    }
    add_cut(l.subject, r.literal, cuts)?;
    add_cut(r.subject, l.literal, cuts)
}

/// Puts the cuts in an expression at the end of cuts, and answers a look at it.
fn add_cuts(expr: &Expr<Ref>, cuts: &mut List<Cut>) -> Result<Look, Memory>
    ensures look { IfOk result (λ look. look ≡ (meant.side_of expr.now).look) }
    ensures cuts { OnOk result (cuts.new ≡ cuts.old ++ (meant.side_of expr.now).cuts) }
{
    match &expr.node {
        Node::Int(z) => Ok(number_look(*z)),
        Node::Bool(_) => Ok(other_look()),
        Node::Empty => Ok(other_look()),
        Node::Name(name) => Ok(name_look(*name)),
        Node::Neg(part) => Ok(negated_look(add_cuts(part, cuts)?)),
        Node::Not(part) => {
            add_cuts(part, cuts)?;
            Ok(other_look())
        }
        Node::Two(op, left, right) => {
            let l = add_cuts(left, cuts)?;
            let r = add_cuts(right, cuts)?;
            add_compared(*op, l, r, cuts)?;
            Ok(other_look())
        }
        Node::One(fun, part) => Ok(measured_look(*fun, add_cuts(part, cuts)?)),
    }
}

/// Adds what is seen in an expression.
fn see_expr(expr: &Expr<Ref>, seen: Seen) -> Result<Seen, Memory>
    ensures { IfOk result (λ more. more ≡ meant.seen_and seen (meant.in_expr expr.now)) }
{
    let Seen {
        mut names,
        mut cuts,
    } = seen;
    add_names(expr, &mut names)?;
    add_cuts(expr, &mut cuts)?;
    Ok(Seen { names, cuts })
}

/// Adds a name.
fn see_name(name: Ref, seen: Seen) -> Result<Seen, Memory>
    ensures { IfOk result (λ more. more ≡ meant.seen_and seen (meant.names_seen (name ∷ []))) }
{
    let Seen { mut names, cuts } = seen;
    names.push(name)?;
    Ok(Seen { names, cuts })
}

/// Adds the name that takes a result, where there is one.
fn see_bind(bind: Option<Ref>, seen: Seen) -> Result<Seen, Memory>
    ensures { IfOk result (λ more. more ≡ meant.seen_and seen (meant.names_seen (ends.taking bind))) }
{
    let Seen { mut names, cuts } = seen;
    add_taking(bind, &mut names)?;
    Ok(Seen { names, cuts })
}

/// Adds what is seen in arguments.
fn see_args(args: &[Expr<Ref>], seen: Seen) -> Result<Seen, Memory>
    ensures { IfOk result (λ more. more ≡ meant.seen_and seen (meant.all_seen (map meant.in_expr args.now))) }
{
    let mut seen = seen;
    for arg in args {
        seen = see_expr(arg, seen)?;
    }
    Ok(seen)
}

/// Adds what is seen in a call and in the name that takes its result.
fn see_call(bind: Option<Ref>, call: &Call<Ref>, seen: Seen) -> Result<Seen, Memory>
    ensures { IfOk result (λ more. more ≡ meant.seen_and seen (meant.in_call bind call.now)) }
{
    see_args(call.args.as_slice(), see_bind(bind, seen)?)
}

/// Adds what is seen in a name and in the expression that it takes.
fn see_value(name: Ref, value: &Expr<Ref>, seen: Seen) -> Result<Seen, Memory>
    ensures { IfOk result (λ more. more
        ≡ meant.seen_and seen (meant.seen_and (meant.names_seen (name ∷ [])) (meant.in_expr value.now))) }
{
    see_expr(value, see_name(name, seen)?)
}

/// Adds what is seen in a body.
#[cycle(seeing)]
fn see_body(statements: &[Statement<Ref>], seen: Seen) -> Result<Seen, Memory>
    ensures { IfOk result (λ more. more ≡ meant.seen_and seen (meant.in_body statements.now)) }
{
    let mut seen = seen;
    for statement in statements {
        seen = see_statement(statement, seen)?;
    }
    Ok(seen)
}

/// Adds what is seen in a statement.
#[cycle(seeing)]
fn see_statement(statement: &Statement<Ref>, seen: Seen) -> Result<Seen, Memory>
    ensures { IfOk result (λ more. more ≡ meant.seen_and seen (meant.in_statement statement.now)) }
{
    match statement {
        Statement::Let { name, value, .. } => see_value(*name, value, seen),
        Statement::Assign { name, value } => see_value(*name, value, seen),
        Statement::Call { bind, call } => see_call(*bind, call, seen),
        Statement::If { cond, yes, no } => {
            let with_cond = see_expr(cond, seen)?;
            let with_yes = see_body(yes.as_slice(), with_cond)?;
            see_body(no.as_slice(), with_yes)
        }
        Statement::While { cond, turn } => {
            let with_cond = see_expr(cond, seen)?;
            see_body(turn.as_slice(), with_cond)
        }
    }
}

/// Adds what is seen in a preprocedure, where there is one.
fn see_pre(pre: &Option<Pre<Ref>>, seen: Seen) -> Result<Seen, Memory>
    ensures { IfOk result (λ more. more ≡ meant.seen_and seen (meant.in_pre pre.now)) }
{
    match pre {
        Some(pre) => see_call(pre.bind, &pre.call, seen),
        None => Ok(seen),
    }
}

/// Adds what is seen in an alternative.
fn see_alternative(a: &Alternative<Ref>, seen: Seen) -> Result<Seen, Memory>
    ensures { IfOk result (λ more. more ≡ meant.seen_and seen (meant.in_alternative a.now)) }
{
    let with_cond = see_expr(&a.cond, seen)?;
    let with_pre = see_pre(&a.pre, with_cond)?;
    see_body(a.body.as_slice(), with_pre)
}

/// Adds what is seen in alternatives.
fn see_alternatives(alts: &[Alternative<Ref>], seen: Seen) -> Result<Seen, Memory>
    ensures { IfOk result (λ more. more
        ≡ meant.seen_and seen (meant.all_seen (map meant.in_alternative alts.now))) }
{
    let mut seen = seen;
    for a in alts {
        seen = see_alternative(a, seen)?;
    }
    Ok(seen)
}

/// Adds what is seen in the text of a procedure.
fn see_form(form: &Form<Ref>, seen: Seen) -> Result<Seen, Memory>
    ensures { IfOk result (λ more. more ≡ meant.seen_and seen (meant.in_form form.now)) }
{
    match form {
        Form::Total(body) => see_body(body.as_slice(), seen),
        Form::Partial(alts) => see_alternatives(alts.as_slice(), seen),
        Form::Action(alts) => see_alternatives(alts.as_slice(), seen),
    }
}

/// What is seen in a property and in a procedure.
pub(crate) fn seen_by(alloc: Global, property: &Property, q: &Proc<Ref>) -> Result<Seen, Memory>
    ensures { IfOk result (λ seen. seen ≡ answers.seen_by property.now q.now) }
{
    let mut names = List::new(alloc);
    let mut cuts = List::new(alloc);
    add_names(&property.expr, &mut names)?;
    add_cuts(&property.expr, &mut cuts)?;
    see_form(&q.form, Seen { names, cuts })
}
