//! Which calls in a text go to a partial or to a total method.

ghost use Rattle.std.specs.Prelude.{◌≡◌, MatchOption, option_map, slice_get};
ghost use Rattle.std.specs.Option.{option_copied};
ghost use Rattle.std.specs.List.{flat_map};
ghost use Rattle.call_order.specs.Calls.{called, procedure_in, procedure_of, is_partial, is_total, lines_of};
ghost use Rattle.call_order.specs.Calls.{in_statement, in_body, in_bodies, in_pre, in_pres, in_procedures};
ghost use Rattle.call_order.specs.Calls.{in_cats};
ghost use Rattle.call_order.specs.Firsts.{first_of};
ghost use Rattle.box_types.specs.Scopes.{named};
ghost use Rattle.seuss_program.specs.declared.tree.Ref.{Ref};
ghost use Rattle.seuss_program.specs.declared.tree.Cat.{Cat};
ghost use Rattle.seuss_program.specs.declared.tree.Proc.{Proc};
ghost use Rattle.seuss_program.specs.declared.tree.Given.{Given};
ghost use Rattle.seuss_program.specs.declared.tree.Name.{Name};
ghost use Rattle.seuss_program.specs.declared.tree.Alternative.{Alternative};

use seuss_program::{Alternative, Call, Cat, Form, Given, Name, Pre, Proc, Ref, Statement, Tree};

/// What a call is looked up in: all cats with their numbers, and the given boxes of its own cat.
#[derive(Clone, Copy)]
pub(crate) struct Seen<'a> {
    pub cats: &'a [Cat<Ref>],
    pub given: &'a [Given<Name>],
}

/// The first call in the bodies of a text whose method is partial, by its line.
pub(crate) fn first_partial_call(tree: &Tree, cats: &[Cat<Ref>]) -> Option<u32>
    ensures { result ≡ first_of (in_cats cats.now in_bodies is_partial tree.now.cats) }
{
    for own in tree.cats.as_slice() {
        let seen = Seen {
            cats,
            given: own.given.as_slice(),
        };
        if let Some(line) = partial_in_procedures(own.procs.as_slice(), &seen) {
            return Some(line);
        }
    }
    None
}

fn partial_in_procedures(procs: &[Proc<Name>], seen: &Seen) -> Option<u32>
    ensures { result ≡ first_of
        (in_procedures in_bodies (lines_of seen.now.cats.now seen.now.given.now is_partial) procs.now) }
{
    for procedure in procs {
        if let Some(line) = partial_in_bodies(&procedure.form, seen) {
            return Some(line);
        }
    }
    None
}

fn partial_in_bodies(form: &Form<Name>, seen: &Seen) -> Option<u32>
    ensures { result ≡ first_of
        (in_bodies (lines_of seen.now.cats.now seen.now.given.now is_partial) form.now) }
{
    match form {
        Form::Total(body) => partial_in_body(body.as_slice(), seen),
        Form::Partial(parts) => partial_in_alternatives(parts.as_slice(), seen),
        Form::Action(parts) => partial_in_alternatives(parts.as_slice(), seen),
    }
}

fn partial_in_alternatives(parts: &[Alternative<Name>], seen: &Seen) -> Option<u32>
    ensures { result ≡ first_of
        (flat_map (λ (a : Alternative Name). in_body
        (lines_of seen.now.cats.now seen.now.given.now is_partial) a.body) parts.now) }
{
    for part in parts {
        if let Some(line) = partial_in_body(part.body.as_slice(), seen) {
            return Some(line);
        }
    }
    None
}

/// The first call in a statement whose method is partial, by its line.
#[cycle(partial_in)]
fn partial_in_statement(statement: &Statement<Name>, seen: &Seen) -> Option<u32>
    ensures { result ≡ first_of
        (in_statement (lines_of seen.now.cats.now seen.now.given.now is_partial) statement.now) }
{
    match statement {
        Statement::Let { .. } => None,
        Statement::Assign { .. } => None,
        Statement::Call { call, .. } => partial_call(call, seen),
        Statement::If { yes, no, .. } => match partial_in_body(yes.as_slice(), seen) {
            Some(line) => Some(line),
            None => partial_in_body(no.as_slice(), seen),
        },
        Statement::While { turn, .. } => partial_in_body(turn.as_slice(), seen),
    }
}

#[cycle(partial_in)]
fn partial_in_body(statements: &[Statement<Name>], seen: &Seen) -> Option<u32>
    ensures { result ≡ first_of
        (in_body (lines_of seen.now.cats.now seen.now.given.now is_partial) statements.now) }
{
    for statement in statements {
        if let Some(line) = partial_in_statement(statement, seen) {
            return Some(line);
        }
    }
    None
}

/// The line of a call's method, where that is partial.
fn partial_call(call: &Call<Name>, seen: &Seen) -> Option<u32>
    ensures { result ≡ first_of (lines_of seen.now.cats.now seen.now.given.now is_partial call.now) }
{
    match method(call, seen)?.form {
        Form::Partial(_) => Some(call.method.line),
        Form::Total(_) | Form::Action(_) => None,
    }
}

/// The line of a call's method, where that is total.
fn total_call(call: &Call<Name>, seen: &Seen) -> Option<u32>
    ensures { result ≡ first_of (lines_of seen.now.cats.now seen.now.given.now is_total call.now) }
{
    match method(call, seen)?.form {
        Form::Total(_) => Some(call.method.line),
        Form::Partial(_) | Form::Action(_) => None,
    }
}

/// The first preprocedure of a text that is a total method, by its line.
pub(crate) fn first_total_call(tree: &Tree, cats: &[Cat<Ref>]) -> Option<u32>
    ensures { result ≡ first_of (in_cats cats.now in_pres is_total tree.now.cats) }
{
    for own in tree.cats.as_slice() {
        let seen = Seen {
            cats,
            given: own.given.as_slice(),
        };
        if let Some(line) = total_in_procedures(own.procs.as_slice(), &seen) {
            return Some(line);
        }
    }
    None
}

fn total_in_procedures(procs: &[Proc<Name>], seen: &Seen) -> Option<u32>
    ensures { result ≡ first_of
        (in_procedures in_pres (lines_of seen.now.cats.now seen.now.given.now is_total) procs.now) }
{
    for procedure in procs {
        if let Some(line) = total_in_pres(&procedure.form, seen) {
            return Some(line);
        }
    }
    None
}

fn total_in_pres(form: &Form<Name>, seen: &Seen) -> Option<u32>
    ensures { result ≡ first_of (in_pres (lines_of seen.now.cats.now seen.now.given.now is_total) form.now) }
{
    match form {
        Form::Total(_) => None,
        Form::Partial(parts) => total_in_alternatives(parts.as_slice(), seen),
        Form::Action(parts) => total_in_alternatives(parts.as_slice(), seen),
    }
}

fn total_in_alternatives(parts: &[Alternative<Name>], seen: &Seen) -> Option<u32>
    ensures { result ≡ first_of
        (flat_map (λ (a : Alternative Name). in_pre (lines_of seen.now.cats.now seen.now.given.now is_total)
        a.pre) parts.now) }
{
    for part in parts {
        if let Some(line) = total_pre(&part.pre, seen) {
            return Some(line);
        }
    }
    None
}

fn total_pre(pre: &Option<Pre<Name>>, seen: &Seen) -> Option<u32>
    ensures { result ≡ first_of (in_pre (lines_of seen.now.cats.now seen.now.given.now is_total) pre.now) }
{
    match pre {
        Some(pre) => total_call(&pre.call, seen),
        None => None,
    }
}

/// The method that a call names, in the cat of the given box that it names.
fn method<'a>(call: &Call<Name>, seen: &Seen<'a>) -> Option<&'a Proc<Ref>>
    ensures { option_copied result ≡ called seen.now.cats.now seen.now.given.now call.now }
{
    let given = given_named(seen.given, &call.target)?;
    let cat = cat_named(seen.cats, &given.cat)?;
    procedure_named(cat.procs.as_slice(), &call.method)
}

fn given_named<'a>(items: &'a [Given<Name>], name: &Name) -> Option<&'a Given<Name>>
    ensures { option_copied result ≡ named (λ (g : Given Name). g.name) items.now name.now }
{
    items.iter().find(|item| item.name.is_same(name))
}

fn cat_named<'a>(items: &'a [Cat<Ref>], name: &Name) -> Option<&'a Cat<Ref>>
    ensures { option_copied result ≡ named (λ (c : Cat Ref). c.name) items.now name.now }
{
    items.iter().find(|item| item.name.is_same(name))
}

fn procedure_named<'a>(items: &'a [Proc<Ref>], name: &Name) -> Option<&'a Proc<Ref>>
    ensures { option_copied result ≡ named (λ (q : Proc Ref). q.name) items.now name.now }
{
    items.iter().find(|item| item.name.is_same(name))
}
