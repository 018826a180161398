//! The walk of a check through procedures, cats and boxes.
ghost use Rattle.std.specs.Prelude.{◌≡◌, ◌<◌, ◌≤◌, ◌++◌, [], length, take, Some, OnOk};
ghost use Rattle.box_types.specs.Answers.{Stops, Walks};
ghost use Rattle.box_types.specs.Faults.{test_of};
ghost use Rattle.box_types.specs.Walks.{Walked, numbered, walked, three, head, early, bound, body};
ghost use Rattle.box_types.specs.Walks.{alternative};
ghost use Rattle.box_types.specs.Walks.{form, param, signature, procedure, procedures, given, variable};
ghost use Rattle.box_types.specs.Walks.{hint};
ghost use Rattle.box_types.specs.Walks.{semi, cat, box_given, box, found};

use crate::call_places::{Home, at_result};
use crate::checking::{Check, Stop};
use crate::outer_places::{at_box_cat, at_box_given, at_box_name, at_first, at_hint, at_second};
use crate::places::{
    at_cat_name, at_given_cat, at_given_name, at_local_name, at_proc_name, at_var_name, at_when,
};
use crate::scopes::Scope;
use crate::walk::{walk_body, walk_call, walk_condition};
use seuss_program::{
    Alternative, BoxDecl, Call, Cat, Form, Kind, Name, Param, Pre, Proc, Semi, Tree,
};
use std::alloc::Global;

/// A name that the result of a preprocedure is bound to, and its call.
fn find_in_bound(
    check: Check,
    home: &Home,
    scope: &Scope,
    name: &Name,
    call: &Call<Name>,
) -> Result<(), Stop>
    requires { home.now.number < length home.now.own.now.procs }
    ensures { Stops result (bound (test_of check) home.now.cats.now home.now.own.now home.now.number
        (Some name.now) call.now scope.now).lines }
{
    let visible = scope.visible.as_slice();
    at_local_name(check, home.own, home.number, scope, name)?;
    at_result(check, home, visible, Some(Kind::Int), name, call)?;
    walk_call(check, home, visible, call)
}

/// A call with a name that its result is bound to.
#[tactic(auto, using(crate::proofs::Walked::lines_walk))]
fn walk_bound(
    alloc: Global,
    check: Check,
    home: &Home,
    name: &Name,
    call: &Call<Name>,
    scope: &mut Scope,
) -> Result<(), Stop>
    requires { home.now.number < length home.now.own.now.procs }
    ensures after { Walks result (bound (test_of check) home.now.cats.now home.now.own.now
        home.now.number (Some name.now) call.now scope.old) scope.new }
    ensures kept { OnOk result (take (length scope.old.visible) scope.new.visible ≡ scope.old.visible) }
{
    find_in_bound(check, home, scope, name, call)?;
    scope.declare(alloc, name, Kind::Int, false)?;
    Ok(())
}

/// A preprocedure.
#[tactic(auto, using(crate::proofs::Walked::still_walk))]
fn walk_pre(
    alloc: Global,
    check: Check,
    home: &Home,
    pre: &Pre<Name>,
    scope: &mut Scope,
) -> Result<(), Stop>
    requires { home.now.number < length home.now.own.now.procs }
    ensures after { Walks result (bound (test_of check) home.now.cats.now home.now.own.now
        home.now.number pre.now.bind pre.now.call scope.old) scope.new }
    ensures kept { OnOk result (take (length scope.old.visible) scope.new.visible ≡ scope.old.visible) }
{
    match &pre.bind {
        Some(name) => walk_bound(alloc, check, home, name, &pre.call, scope),
        None => walk_call(check, home, scope.visible.as_slice(), &pre.call),
    }
}

/// The call that an alternative begins with, where there is one.
fn walk_early(
    alloc: Global,
    check: Check,
    home: &Home,
    pre: &Option<Pre<Name>>,
    scope: &mut Scope,
) -> Result<(), Stop>
    requires { home.now.number < length home.now.own.now.procs }
    ensures after { Walks result (early (test_of check) home.now.cats.now home.now.own.now
        home.now.number pre.now scope.old) scope.new }
    ensures kept { OnOk result (take (length scope.old.visible) scope.new.visible ≡ scope.old.visible) }
{
    match pre {
        Some(pre) => walk_pre(alloc, check, home, pre, scope),
        None => Ok(()),
    }
}

/// The head of the alternative of this number.
fn walk_head(
    check: Check,
    home: &Home,
    number: usize,
    alternative: &Alternative<Name>,
    scope: &Scope,
) -> Result<(), Stop>
    ensures { Stops result (head (test_of check) home.now.cats.now home.now.own.now home.now.number
        scope.now.visible number alternative.now) }
{
    at_when(check, number, alternative.line)?;
    walk_condition(check, home, scope, &alternative.cond)
}

/// What stands inside the alternative of this number.
#[tactic(auto, using(crate::proofs::Walked::in_three))]
fn walk_inside(
    alloc: Global,
    check: Check,
    home: &Home,
    number: usize,
    alternative: &Alternative<Name>,
    scope: &mut Scope,
) -> Result<(), Stop>
    requires { home.now.number < length home.now.own.now.procs }
    ensures after { Walks result (three
        (head (test_of check) home.now.cats.now home.now.own.now home.now.number scope.old.visible
        number alternative.now)
        (early (test_of check) home.now.cats.now home.now.own.now home.now.number alternative.now.pre)
        (body (test_of check) home.now.cats.now home.now.own.now home.now.number alternative.now.body)
        scope.old) scope.new }
    ensures kept { OnOk result (take (length scope.old.visible) scope.new.visible ≡ scope.old.visible) }
{
    walk_head(check, home, number, alternative, scope)?;
    walk_early(alloc, check, home, &alternative.pre, scope)?;
    walk_body(alloc, check, home, alternative.body.as_slice(), scope)
}

/// The alternative of this number.
fn walk_alternative(
    alloc: Global,
    check: Check,
    home: &Home,
    number: usize,
    part: &Alternative<Name>,
    scope: &mut Scope,
) -> Result<(), Stop>
    requires { home.now.number < length home.now.own.now.procs }
    ensures { Walks result (alternative (test_of check) home.now.cats.now home.now.own.now
        home.now.number number part.now scope.old) scope.new }
{
    let count = scope.visible.len();
    walk_inside(alloc, check, home, number, part, scope)?;
    scope.leave(count);
    Ok(())
}

#[tactic(auto, using(crate::proofs::Walked::walked_goes_on, crate::proofs::Walked::walked_stops))]
fn walk_alternatives(
    alloc: Global,
    check: Check,
    home: &Home,
    parts: &[Alternative<Name>],
    scope: &mut Scope,
) -> Result<(), Stop>
    requires { home.now.number < length home.now.own.now.procs }
    ensures { Walks result (walked (alternative (test_of check) home.now.cats.now home.now.own.now
        home.now.number) 0 parts.now scope.old) scope.new }
{
    for (number, part) in parts.iter().enumerate() {
        walk_alternative(alloc, check, home, number, part, scope)?;
    }
    Ok(())
}

/// What a procedure consists of.
fn walk_form(
    alloc: Global,
    check: Check,
    home: &Home,
    parts: &Form<Name>,
    scope: &mut Scope,
) -> Result<(), Stop>
    requires { home.now.number < length home.now.own.now.procs }
    ensures { Walks result (form (test_of check) home.now.cats.now home.now.own.now home.now.number
        parts.now scope.old) scope.new }
{
    match parts {
        Form::Total(body) => walk_body(alloc, check, home, body.as_slice(), scope),
        Form::Partial(parts) => walk_alternatives(alloc, check, home, parts.as_slice(), scope),
        Form::Action(parts) => walk_alternatives(alloc, check, home, parts.as_slice(), scope),
    }
}

#[tactic(auto, using(crate::proofs::Walked::lines_walk))]
fn walk_param(
    alloc: Global,
    check: Check,
    home: &Home,
    part: &Param,
    scope: &mut Scope,
) -> Result<(), Stop>
    requires { home.now.number < length home.now.own.now.procs }
    ensures { Walks result (param (test_of check) home.now.cats.now home.now.own.now home.now.number
        part.now scope.old) scope.new }
{
    at_local_name(check, home.own, home.number, scope, &part.name)?;
    scope.declare(alloc, &part.name, part.kind, true)?;
    Ok(())
}

fn walk_params(
    alloc: Global,
    check: Check,
    home: &Home,
    params: &[Param],
    scope: &mut Scope,
) -> Result<(), Stop>
    requires { home.now.number < length home.now.own.now.procs }
    ensures { Walks result (walked (λ n. param (test_of check) home.now.cats.now home.now.own.now
        home.now.number) 0 params.now scope.old) scope.new }
{
    for part in params {
        walk_param(alloc, check, home, part, scope)?;
    }
    Ok(())
}

/// The parameters and the result of a procedure.
fn walk_signature(
    alloc: Global,
    check: Check,
    home: &Home,
    proc: &Proc<Name>,
    scope: &mut Scope,
) -> Result<(), Stop>
    requires { home.now.number < length home.now.own.now.procs }
    ensures { Walks result (signature (test_of check) home.now.cats.now home.now.own.now home.now.number
        proc.now scope.old) scope.new }
{
    scope.enter(alloc, proc)?;
    walk_params(alloc, check, home, proc.params.as_slice(), scope)?;
    scope.reserve_result(proc)?;
    Ok(())
}

/// A procedure, behind the locals of those before it.
#[tactic(auto, using(crate::proofs::Walked::in_three))]
fn walk_procedure(
    alloc: Global,
    check: Check,
    home: &Home,
    proc: &Proc<Name>,
    scope: &mut Scope,
) -> Result<(), Stop>
    requires { home.now.number < length home.now.own.now.procs }
    ensures { Walks result (procedure (test_of check) home.now.cats.now home.now.own.now home.now.number
        proc.now scope.old) scope.new }
{
    at_proc_name(check, home.own, home.number, proc, scope.earlier.as_slice())?;
    walk_signature(alloc, check, home, proc, scope)?;
    walk_form(alloc, check, home, &proc.form, scope)
}

#[tactic(auto, using(crate::proofs::Walked::walked_goes_on, crate::proofs::Walked::walked_stops))]
fn walk_procedures(
    alloc: Global,
    check: Check,
    cats: &[Cat<Name>],
    own: &Cat<Name>,
    procs: &[Proc<Name>],
    scope: &mut Scope,
) -> Result<(), Stop>
    requires { procs.now ≡ own.now.procs }
    ensures { Walks result (walked (procedure (test_of check) cats.now own.now) 0 procs.now scope.old)
        scope.new }
{
    for (number, proc) in procs.iter().enumerate() {
        let home = Home { cats, own, number };
        walk_procedure(alloc, check, &home, proc, scope)?;
    }
    Ok(())
}

/// All procedures of a cat.
fn walk_all_procedures(
    alloc: Global,
    check: Check,
    cats: &[Cat<Name>],
    own: &Cat<Name>,
) -> Result<(), Stop>
    ensures { Stops result (procedures (test_of check) cats.now own.now) }
{
    let mut scope = Scope::empty(alloc);
    walk_procedures(alloc, check, cats, own, own.procs.as_slice(), &mut scope)
}

/// The given boxes of a cat.
#[tactic(auto, using(crate::proofs::Lines::numbered_goes_on, crate::proofs::Lines::numbered_stops))]
fn walk_givens(check: Check, cats: &[Cat<Name>], own: &Cat<Name>) -> Result<(), Stop>
    ensures { Stops result (numbered (given (test_of check) cats.now own.now) 0 own.now.given) }
{
    for (number, part) in own.given.as_slice().iter().enumerate() {
        at_given_name(check, own, number, &part.name)?;
        at_given_cat(check, cats, &part.cat)?;
    }
    Ok(())
}

/// The variables of a cat.
#[tactic(auto, using(crate::proofs::Lines::numbered_goes_on, crate::proofs::Lines::numbered_stops))]
fn walk_vars(check: Check, cats: &[Cat<Name>], own: &Cat<Name>) -> Result<(), Stop>
    ensures { Stops result (numbered (variable (test_of check) cats.now own.now) 0 own.now.vars) }
{
    for (number, var) in own.vars.as_slice().iter().enumerate() {
        at_var_name(check, own, number, &var.name)?;
    }
    Ok(())
}

/// The hints of a certificate.
#[tactic(auto, using(crate::proofs::Lines::numbered_goes_on, crate::proofs::Lines::numbered_stops))]
fn walk_hints(
    check: Check,
    cats: &[Cat<Name>],
    own: &Cat<Name>,
    part: &Semi<Name>,
) -> Result<(), Stop>
    ensures { Stops result (numbered (hint (test_of check) cats.now own.now part.now) 0 part.now.hints) }
{
    for (number, hint) in part.hints.as_slice().iter().enumerate() {
        at_hint(check, own, part, number, hint)?;
    }
    Ok(())
}

/// The certificate of this number.
fn walk_semi(
    check: Check,
    cats: &[Cat<Name>],
    own: &Cat<Name>,
    number: usize,
    part: &Semi<Name>,
) -> Result<(), Stop>
    requires { number ≤ length own.now.semis }
    ensures { Stops result (semi (test_of check) cats.now own.now number part.now) }
{
    at_first(check, own, number, part)?;
    at_second(check, own, &part.second)?;
    walk_hints(check, cats, own, part)
}

#[tactic(auto, using(crate::proofs::Lines::numbered_goes_on, crate::proofs::Lines::numbered_stops))]
fn walk_semis(check: Check, cats: &[Cat<Name>], own: &Cat<Name>) -> Result<(), Stop>
    ensures { Stops result (numbered (semi (test_of check) cats.now own.now) 0 own.now.semis) }
{
    for (number, part) in own.semis.as_slice().iter().enumerate() {
        walk_semi(check, cats, own, number, part)?;
    }
    Ok(())
}

/// The cat of this number.
fn walk_cat(
    alloc: Global,
    check: Check,
    cats: &[Cat<Name>],
    number: usize,
    own: &Cat<Name>,
) -> Result<(), Stop>
    requires { number ≤ length cats.now }
    ensures { Stops result (cat (test_of check) cats.now number own.now) }
{
    at_cat_name(check, cats, number, &own.name)?;
    walk_givens(check, cats, own)?;
    walk_vars(check, cats, own)?;
    walk_all_procedures(alloc, check, cats, own)?;
    walk_semis(check, cats, own)
}

#[tactic(auto, using(crate::proofs::Lines::numbered_goes_on, crate::proofs::Lines::numbered_stops))]
fn walk_cats(alloc: Global, check: Check, cats: &[Cat<Name>]) -> Result<(), Stop>
    ensures { Stops result (numbered (cat (test_of check) cats.now) 0 cats.now) }
{
    for (number, own) in cats.iter().enumerate() {
        walk_cat(alloc, check, cats, number, own)?;
    }
    Ok(())
}

/// The boxes that a box is given.
#[tactic(auto, using(crate::proofs::Lines::numbered_goes_on, crate::proofs::Lines::numbered_stops))]
fn walk_box_given(check: Check, tree: &Tree, declared: &BoxDecl) -> Result<(), Stop>
    ensures { Stops result (numbered (box_given (test_of check) tree.now.cats tree.now.boxes
        declared.now) 0 declared.now.given) }
{
    for (number, name) in declared.given.as_slice().iter().enumerate() {
        at_box_given(check, tree, declared, number, name)?;
    }
    Ok(())
}

/// The box of this number.
fn walk_box(check: Check, tree: &Tree, number: usize, declared: &BoxDecl) -> Result<(), Stop>
    requires { number ≤ length tree.now.boxes }
    ensures { Stops result (box (test_of check) tree.now.cats tree.now.boxes number declared.now) }
{
    let cats = tree.cats.as_slice();
    at_box_name(check, cats, tree.boxes.as_slice(), number, declared)?;
    at_box_cat(check, cats, declared)?;
    walk_box_given(check, tree, declared)
}

#[tactic(auto, using(crate::proofs::Lines::numbered_goes_on, crate::proofs::Lines::numbered_stops))]
fn walk_boxes(check: Check, tree: &Tree) -> Result<(), Stop>
    ensures { Stops result (numbered (box (test_of check) tree.now.cats tree.now.boxes) 0
        tree.now.boxes) }
{
    for (number, declared) in tree.boxes.as_slice().iter().enumerate() {
        walk_box(check, tree, number, declared)?;
    }
    Ok(())
}

/// Makes a check at each place of a text, in the order of its tokens, up to the first that fails.
pub(crate) fn walk_tree(alloc: Global, check: Check, tree: &Tree) -> Result<(), Stop>
    ensures { Stops result (found (test_of check) tree.now) }
{
    walk_cats(alloc, check, tree.cats.as_slice())?;
    walk_boxes(check, tree)
}
