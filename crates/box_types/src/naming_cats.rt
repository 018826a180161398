//! Procedures, certificates, cats and boxes with their names as numbers, and the actions of a program.
ghost use Rattle.std.specs.Prelude.{◌≡◌, ◌++◌, [], map, take, length, slice_get, Some, IfOk, OnOk};
ghost use Rattle.box_types.specs.Namings.{bound, early, alternative, alternatives, form, with_params};
ghost use Rattle.box_types.specs.Namings.{procedure};
ghost use Rattle.box_types.specs.Namings.{hint, semi, given, cat, cat_number, box_number, box_info};
ghost use Rattle.box_types.specs.Namings.{program_of};
ghost use Rattle.box_types.specs.Actions.{actions_among, procedures_in, actions_of};

use crate::call_places::Home;
use crate::lookups::member;
use crate::naming::{make_body, make_call, make_condition, make_ref, small};
use crate::registers::Register;
use crate::scopes::Scope;
use seuss_base::{List, Memory};
use seuss_program::{
    ActionInfo, Alternative, BoxDecl, BoxInfo, Cat, Form, Given, Hint, Kind, Name, Param, Pre,
    Proc, Program, Ref, Semi, Tree, Var,
};
use std::alloc::Global;

/// A call with a name that its result is bound to, which has the next slot.
fn make_bound(
    alloc: Global,
    home: &Home,
    name: &Name,
    pre: &Pre<Name>,
    scope: &mut Scope,
) -> Result<Pre<Ref>, Memory>
    ensures after { IfOk result (λ made. bound home.now.cats.now home.now.own.now
        (Some name.now) pre.now.call scope.old ≡ record { part = made; scope = scope.new }) }
    ensures kept { OnOk result (take (length scope.old.visible) scope.new.visible ≡ scope.old.visible) }
{
    let call = make_call(alloc, home, scope.visible.as_slice(), &pre.call)?;
    let slot = small(scope.next)?;
    scope.declare(alloc, name, Kind::Int, false)?;
    Ok(Pre {
        bind: Some(Ref::Slot(slot)),
        call,
    })
}

fn make_pre(
    alloc: Global,
    home: &Home,
    pre: &Pre<Name>,
    scope: &mut Scope,
) -> Result<Pre<Ref>, Memory>
    ensures after { IfOk result (λ made. bound home.now.cats.now home.now.own.now pre.now.bind
        pre.now.call scope.old ≡ record { part = made; scope = scope.new }) }
    ensures kept { OnOk result (take (length scope.old.visible) scope.new.visible ≡ scope.old.visible) }
{
    match &pre.bind {
        Some(name) => make_bound(alloc, home, name, pre, scope),
        None => Ok(Pre {
            bind: None,
            call: make_call(alloc, home, scope.visible.as_slice(), &pre.call)?,
        }),
    }
}

/// The call that an alternative begins with, where there is one.
fn make_early(
    alloc: Global,
    home: &Home,
    pre: &Option<Pre<Name>>,
    scope: &mut Scope,
) -> Result<Option<Pre<Ref>>, Memory>
    ensures after { IfOk result (λ made. early home.now.cats.now home.now.own.now pre.now scope.old
        ≡ record { part = made; scope = scope.new }) }
    ensures kept { OnOk result (take (length scope.old.visible) scope.new.visible ≡ scope.old.visible) }
{
    match pre {
        Some(pre) => Ok(Some(make_pre(alloc, home, pre, scope)?)),
        None => Ok(None),
    }
}

fn make_alternative(
    alloc: Global,
    home: &Home,
    part: &Alternative<Name>,
    scope: &mut Scope,
) -> Result<Alternative<Ref>, Memory>
    ensures { IfOk result (λ made. alternative home.now.cats.now home.now.own.now part.now scope.old
        ≡ record { part = made; scope = scope.new }) }
{
    let count = scope.visible.len();
    let cond = make_condition(alloc, home.own, scope, &part.cond)?;
    let pre = make_early(alloc, home, &part.pre, scope)?;
    let body = make_body(alloc, home, part.body.as_slice(), scope)?;
    scope.leave(count);
    Ok(Alternative {
        line: part.line,
        cond,
        pre,
        positive: part.positive,
        body,
    })
}

fn make_alternatives(
    alloc: Global,
    home: &Home,
    parts: &[Alternative<Name>],
    scope: &mut Scope,
) -> Result<List<Alternative<Ref>>, Memory>
    ensures { IfOk result (λ made. made ≡ alternatives home.now.cats.now home.now.own.now parts.now
        scope.old) }
{
    let mut made = List::new(alloc);
    for part in parts {
        made.push(make_alternative(alloc, home, part, scope)?)?;
    }
    Ok(made)
}

fn make_form(
    alloc: Global,
    home: &Home,
    parts: &Form<Name>,
    scope: &mut Scope,
) -> Result<Form<Ref>, Memory>
    ensures { IfOk result (λ made. made ≡ form home.now.cats.now home.now.own.now parts.now scope.old) }
{
    match parts {
        Form::Total(body) => Ok(Form::Total(make_body(alloc, home, body.as_slice(), scope)?)),
        Form::Partial(parts) => Ok(Form::Partial(make_alternatives(
            alloc,
            home,
            parts.as_slice(),
            scope,
        )?)),
        Form::Action(parts) => Ok(Form::Action(make_alternatives(
            alloc,
            home,
            parts.as_slice(),
            scope,
        )?)),
    }
}

/// Declares the parameters of a procedure, which have the first slots.
fn declare_params(alloc: Global, params: &[Param], scope: &mut Scope) -> Result<(), Memory>
    ensures { OnOk result (scope.new ≡ with_params params.now scope.old) }
{
    for param in params {
        scope.declare(alloc, &param.name, param.kind, true)?;
    }
    Ok(())
}

fn copy_params(alloc: Global, params: &[Param]) -> Result<List<Param>, Memory>
    ensures { IfOk result (λ made. made ≡ params.now) }
{
    let mut made = List::new(alloc);
    for param in params {
        made.push(Param {
            name: param.name.copy(alloc)?,
            kind: param.kind,
        })?;
    }
    Ok(made)
}

/// What a procedure consists of, behind its parameters and its result.
fn make_proc_form(alloc: Global, home: &Home, proc: &Proc<Name>) -> Result<Form<Ref>, Memory>
    ensures { IfOk result (λ made. made ≡ (procedure home.now.cats.now home.now.own.now proc.now).form) }
{
    let mut scope = Scope::empty(alloc);
    scope.enter(alloc, proc)?;
    declare_params(alloc, proc.params.as_slice(), &mut scope)?;
    scope.reserve_result(proc)?;
    make_form(alloc, home, &proc.form, &mut scope)
}

fn make_procedure(alloc: Global, home: &Home, proc: &Proc<Name>) -> Result<Proc<Ref>, Memory>
    ensures { IfOk result (λ made. made ≡ procedure home.now.cats.now home.now.own.now proc.now) }
{
    Ok(Proc {
        name: proc.name.copy(alloc)?,
        params: copy_params(alloc, proc.params.as_slice())?,
        gives: proc.gives,
        form: make_proc_form(alloc, home, proc)?,
    })
}

fn make_procedures(
    alloc: Global,
    home: &Home,
    procs: &[Proc<Name>],
) -> Result<List<Proc<Ref>>, Memory>
    ensures { IfOk result (λ made. made ≡ map (procedure home.now.cats.now home.now.own.now) procs.now) }
{
    let mut made = List::new(alloc);
    for proc in procs {
        made.push(make_procedure(alloc, home, proc)?)?;
    }
    Ok(made)
}

fn make_hints(
    alloc: Global,
    own: &Cat<Name>,
    hints: &[Hint<Name>],
) -> Result<List<Hint<Ref>>, Memory>
    ensures { IfOk result (λ made. made ≡ map (hint own.now) hints.now) }
{
    let mut made = List::new(alloc);
    for part in hints {
        made.push(Hint {
            front: part.front,
            name: make_ref(member(own, &part.name))?,
            depth: part.depth,
            line: part.line,
        })?;
    }
    Ok(made)
}

fn make_semi(alloc: Global, own: &Cat<Name>, part: &Semi<Name>) -> Result<Semi<Ref>, Memory>
    ensures { IfOk result (λ made. made ≡ semi own.now part.now) }
{
    Ok(Semi {
        line: part.line,
        first: make_ref(member(own, &part.first))?,
        second: make_ref(member(own, &part.second))?,
        hints: make_hints(alloc, own, part.hints.as_slice())?,
    })
}

fn make_semis(
    alloc: Global,
    own: &Cat<Name>,
    semis: &[Semi<Name>],
) -> Result<List<Semi<Ref>>, Memory>
    ensures { IfOk result (λ made. made ≡ map (semi own.now) semis.now) }
{
    let mut made = List::new(alloc);
    for part in semis {
        made.push(make_semi(alloc, own, part)?)?;
    }
    Ok(made)
}

/// The number of a cat, or 0 where there is none.
fn number_of_cat(cats: &Register<Cat<Name>>, name: &Name) -> Result<u32, Memory>
    ensures { IfOk result (λ n. n ≡ cat_number cats.now.items.now name.now) }
{
    small(cats.number(name).unwrap_or(0) as u64)
}

fn make_given(
    alloc: Global,
    cats: &Register<Cat<Name>>,
    part: &Given<Name>,
) -> Result<Given<Ref>, Memory>
    ensures { IfOk result (λ made. made ≡ given cats.now.items.now part.now) }
{
    Ok(Given {
        name: part.name.copy(alloc)?,
        cat: Ref::Cat(number_of_cat(cats, &part.cat)?),
    })
}

fn make_givens(
    alloc: Global,
    cats: &Register<Cat<Name>>,
    parts: &[Given<Name>],
) -> Result<List<Given<Ref>>, Memory>
    ensures { IfOk result (λ made. made ≡ map (given cats.now.items.now) parts.now) }
{
    let mut made = List::new(alloc);
    for part in parts {
        made.push(make_given(alloc, cats, part)?)?;
    }
    Ok(made)
}

pub(crate) fn copy_vars(alloc: Global, vars: &[Var]) -> Result<List<Var>, Memory>
    ensures { IfOk result (λ made. made ≡ vars.now) }
{
    let mut made = List::new(alloc);
    for var in vars {
        made.push(var.copy(alloc)?)?;
    }
    Ok(made)
}

fn make_cat(alloc: Global, cats: &Register<Cat<Name>>, own: &Cat<Name>) -> Result<Cat<Ref>, Memory>
    ensures { IfOk result (λ made. made ≡ cat cats.now.items.now own.now) }
{
    let home = Home {
        cats: cats.items,
        own,
        number: 0,
    };
    Ok(Cat {
        name: own.name.copy(alloc)?,
        given: make_givens(alloc, cats, own.given.as_slice())?,
        vars: copy_vars(alloc, own.vars.as_slice())?,
        procs: make_procedures(alloc, &home, own.procs.as_slice())?,
        semis: make_semis(alloc, own, own.semis.as_slice())?,
    })
}

fn make_cats(alloc: Global, cats: &Register<Cat<Name>>) -> Result<List<Cat<Ref>>, Memory>
    ensures { IfOk result (λ made. made ≡ map (cat cats.now.items.now) cats.now.items.now) }
{
    let mut made = List::new(alloc);
    for own in cats.items {
        made.push(make_cat(alloc, cats, own)?)?;
    }
    Ok(made)
}

/// The number of a box, or 0 where there is none.
fn number_of_box(boxes: &Register<BoxDecl>, name: &Name) -> Result<u32, Memory>
    ensures { IfOk result (λ n. n ≡ box_number boxes.now.items.now name.now) }
{
    small(boxes.number(name).unwrap_or(0) as u64)
}

fn numbers_of_boxes(
    alloc: Global,
    boxes: &Register<BoxDecl>,
    names: &[Name],
) -> Result<List<u32>, Memory>
    ensures { IfOk result (λ made. made ≡ map (box_number boxes.now.items.now) names.now) }
{
    let mut made = List::new(alloc);
    for name in names {
        made.push(number_of_box(boxes, name)?)?;
    }
    Ok(made)
}

fn make_box(
    alloc: Global,
    cats: &Register<Cat<Name>>,
    boxes: &Register<BoxDecl>,
    declared: &BoxDecl,
) -> Result<BoxInfo, Memory>
    ensures { IfOk result (λ made. made ≡ box_info cats.now.items.now boxes.now.items.now declared.now) }
{
    Ok(BoxInfo {
        name: declared.name.copy(alloc)?,
        cat: number_of_cat(cats, &declared.cat)?,
        given: numbers_of_boxes(alloc, boxes, declared.given.as_slice())?,
        level: 0,
    })
}

fn make_boxes(
    alloc: Global,
    cats: &Register<Cat<Name>>,
    boxes: &Register<BoxDecl>,
) -> Result<List<BoxInfo>, Memory>
    ensures { IfOk result (λ made. made ≡ map (box_info cats.now.items.now boxes.now.items.now)
        boxes.now.items.now) }
{
    let mut made = List::new(alloc);
    for declared in boxes.items {
        made.push(make_box(alloc, cats, boxes, declared)?)?;
    }
    Ok(made)
}

fn procedures(cats: &[Cat<Ref>], number: u32) -> &[Proc<Ref>]
    ensures { result.now ≡ procedures_in (slice_get cats.now number) }
{
    match cats.get(number as usize) {
        Some(cat) => cat.procs.as_slice(),
        None => &[],
    }
}

fn push_actions(
    actions: &mut List<ActionInfo>,
    box_number: u32,
    procs: &[Proc<Ref>],
) -> Result<(), Memory>
    ensures { OnOk result (actions.new ≡ actions.old ++ actions_among box_number 0 procs.now) }
{
    for (number, procedure) in procs.iter().enumerate() {
        if let Form::Action(_) = &procedure.form {
            let number = small(number as u64)?;
            actions.push(ActionInfo {
                box_number,
                procedure: number,
            })?;
        }
    }
    Ok(())
}

/// The actions of all boxes, by box and then in the order of the text.
fn make_actions(
    alloc: Global,
    cats: &[Cat<Ref>],
    boxes: &[BoxInfo],
) -> Result<List<ActionInfo>, Memory>
    ensures { IfOk result (λ actions. actions ≡ actions_of cats.now 0 boxes.now) }
{
    let mut actions = List::new(alloc);
    for (number, info) in boxes.iter().enumerate() {
        let box_number = small(number as u64)?;
        push_actions(&mut actions, box_number, procedures(cats, info.cat))?;
    }
    Ok(actions)
}

/// The program that a text with the built-in cats in front stands for.
pub(crate) fn make_program(alloc: Global, tree: &Tree) -> Result<Program, Memory>
    ensures { IfOk result (λ program. program ≡ program_of tree.now) }
{
    let declared_cats = Register::new(alloc, tree.cats.as_slice())?;
    let declared_boxes = Register::new(alloc, tree.boxes.as_slice())?;
    let cats = make_cats(alloc, &declared_cats)?;
    let boxes = make_boxes(alloc, &declared_cats, &declared_boxes)?;
    let actions = make_actions(alloc, cats.as_slice(), boxes.as_slice())?;
    Ok(Program {
        cats,
        boxes,
        actions,
    })
}
