//! Alternatives, procedures, variables, certificates, cats and boxes in the canonical text.

ghost use Rattle.std.specs.Prelude.{◌≡◌, ◌<◌, ◌++◌, length, drop, slice_get, Some, All, OnOk};
ghost use Rattle.std.specs.List.{flat_map};
ghost use Rattle.seuss_parser.specs.Symbols.{symbol_text};
ghost use Rattle.seuss_program.specs.declared.tree.Name.{Name as TreeName};
ghost use Rattle.seuss_program.specs.declared.tree.Proc.{Proc as Procedure};
ghost use Rattle.seuss_program.specs.declared.state.Value.TheVariants.{Seq};
ghost use Rattle.seuss_print.specs.Items.{text_of, behind_comma, separated, perhaps_bracketed};
ghost use Rattle.seuss_print.specs.Canonical.{pre_items, arrow_symbol, alternative, param, result_items};
ghost use Rattle.seuss_print.specs.Canonical.{method_head, procedure, total_items, partial_items};
ghost use Rattle.seuss_print.specs.Canonical.{action_items};
ghost use Rattle.seuss_print.specs.Canonical.{form_items, signed, start_items, variable, side_symbol, hint};
ghost use Rattle.seuss_print.specs.Canonical.{semi};
ghost use Rattle.seuss_print.specs.Canonical.{given, cat, box_name, box};
ghost use Rattle.seuss_print.specs.Printable.{IsKeptStatement, IsKeptAlternative, IsKeptForm, IsKeptCat};

use crate::expressions::{push_expression, push_spaced, truth_text};
use crate::numbers::{push_depth, push_signed};
use crate::statements::{
    push_binding, push_body, push_call, push_end, push_indent, push_name, push_typed,
};
use seuss_base::{Ints, Memory, Text};
use seuss_program::{
    Alternative, BoxDecl, Cat, Form, Given, Hint, Name, Param, Pre, Proc, Semi, Statement, Value,
    Var,
};

/// Puts the call that an alternative begins with at the end, where there is one.
fn push_pre(text: &mut Text, pre: &Option<Pre<Name>>) -> Result<(), Memory>
    ensures { OnOk result (text.new ≡ text.old ++ text_of (pre_items pre.now)) }
{
    if let Some(pre) = pre {
        push_spaced(text, b";")?;
        push_binding(text, &pre.bind)?;
        push_call(text, &pre.call)?;
    }
    Ok(())
}

/// The sign before the body of an alternative.
fn arrow_text(positive: bool) -> &'static [u8]
    ensures { result.now ≡ symbol_text (arrow_symbol positive) }
{
    if positive { b"->" } else { b"~>" }
}

/// Puts an alternative at the end.
fn push_alternative(text: &mut Text, a: &Alternative<Name>) -> Result<(), Memory>
    requires { IsKeptAlternative a.now }
    ensures { OnOk result (text.new ≡ text.old ++ text_of (alternative a.now)) }
{
    push_indent(text, 2)?;
    text.push_all(b"when ")?;
    push_expression(text, &a.cond)?;
    push_pre(text, &a.pre)?;
    text.push(b' ')?;
    text.push_all(arrow_text(a.positive))?;
    text.push(b'\n')?;
    push_body(text, a.body.as_slice(), 3)
}

/// Puts alternatives at the end.
fn push_alternatives(text: &mut Text, alternatives: &[Alternative<Name>]) -> Result<(), Memory>
    requires kept { All IsKeptAlternative alternatives.now }
    ensures { OnOk result (text.new ≡ text.old ++ text_of (flat_map alternative alternatives.now)) }
{
    for a in alternatives {
        push_alternative(text, a)?;
    }
    Ok(())
}

/// Puts parameters at the end, with a comma between two.
fn push_params(text: &mut Text, params: &[Param]) -> Result<(), Memory>
    ensures { OnOk result (text.new ≡ text.old ++ text_of (separated param params.now)) }
{
    let Some((first, others)) = params.split_first() else {
        return Ok(());
    };
    push_typed(text, &first.name, first.kind)?;
    for other in others {
        text.push_all(b", ")?;
        push_typed(text, &other.name, other.kind)?;
    }
    Ok(())
}

/// Puts the type of a result at the end, where there is one.
fn push_result(text: &mut Text, gives: bool) -> Result<(), Memory>
    ensures { OnOk result (text.new ≡ text.old ++ text_of (result_items gives)) }
{
    if gives {
        text.push_all(b" : int")?;
    }
    Ok(())
}

/// Puts the name, the parameters and the result of a method at the end.
fn push_method_head(text: &mut Text, q: &Proc<Name>) -> Result<(), Memory>
    ensures { OnOk result (text.new ≡ text.old ++ text_of (method_head q.now)) }
{
    text.push(b' ')?;
    push_name(text, &q.name)?;
    text.push(b'(')?;
    push_params(text, q.params.as_slice())?;
    text.push(b')')?;
    push_result(text, q.gives)
}

/// Puts a total method at the end, but for its `end`.
fn push_total(text: &mut Text, q: &Proc<Name>, body: &[Statement<Name>]) -> Result<(), Memory>
    requires kept { All IsKeptStatement body.now }
    ensures { OnOk result (text.new ≡ text.old ++ text_of (total_items q.now body.now)) }
{
    push_indent(text, 1)?;
    text.push_all(b"total")?;
    push_method_head(text, q)?;
    text.push_all(b" is\n")?;
    push_body(text, body, 2)
}

/// Puts a partial method at the end, but for its `end`.
fn push_partial(
    text: &mut Text,
    q: &Proc<Name>,
    alternatives: &[Alternative<Name>],
) -> Result<(), Memory>
    requires kept { All IsKeptAlternative alternatives.now }
    ensures { OnOk result (text.new ≡ text.old ++ text_of (partial_items q.now alternatives.now)) }
{
    push_indent(text, 1)?;
    text.push_all(b"partial")?;
    push_method_head(text, q)?;
    text.push(b'\n')?;
    push_alternatives(text, alternatives)
}

/// Puts an action at the end, but for its `end`.
fn push_action(
    text: &mut Text,
    q: &Proc<Name>,
    alternatives: &[Alternative<Name>],
) -> Result<(), Memory>
    requires kept { All IsKeptAlternative alternatives.now }
    ensures { OnOk result (text.new ≡ text.old ++ text_of (action_items q.now alternatives.now)) }
{
    push_indent(text, 1)?;
    text.push_all(b"action ")?;
    push_name(text, &q.name)?;
    text.push(b'\n')?;
    push_alternatives(text, alternatives)
}

/// Puts a procedure at the end, but for its `end`.
fn push_form(text: &mut Text, q: &Proc<Name>) -> Result<(), Memory>
    requires { IsKeptForm q.now.form }
    ensures { OnOk result (text.new ≡ text.old ++ text_of (form_items q.now q.now.form)) }
{
    match &q.form {
        Form::Total(body) => push_total(text, q, body.as_slice()),
        Form::Partial(alternatives) => push_partial(text, q, alternatives.as_slice()),
        Form::Action(alternatives) => push_action(text, q, alternatives.as_slice()),
    }
}

/// Puts a procedure at the end.
fn push_procedure(text: &mut Text, q: &Proc<Name>) -> Result<(), Memory>
    requires { IsKeptForm q.now.form }
    ensures { OnOk result (text.new ≡ text.old ++ text_of (procedure q.now)) }
{
    push_form(text, q)?;
    push_end(text, 1)
}

/// The number at a place of a sequence.
fn number_at(numbers: &Ints, at: u64) -> i64
    requires { at < length numbers.now }
    ensures { slice_get numbers.now at ≡ Some result }
{
    numbers.get(at).unwrap()
}

/// Puts further numbers at the end, each behind a comma.
fn push_others(text: &mut Text, numbers: &Ints) -> Result<(), Memory>
    ensures { OnOk result
        (text.new ≡ text.old ++ text_of (flat_map (behind_comma signed) (drop 1 numbers.now))) }
{
    for at in 1..numbers.len() {
        text.push_all(b", ")?;
        push_signed(text, number_at(numbers, at))?;
    }
    Ok(())
}

/// Puts the numbers of a start value at the end, where there are some.
fn push_sequence(text: &mut Text, numbers: &Ints) -> Result<(), Memory>
    ensures { OnOk result (text.new ≡ text.old ++ text_of (start_items (Seq numbers.now))) }
{
    let Some(first) = numbers.get(0) else {
        return Ok(());
    };
    text.push_all(b" = [")?;
    push_signed(text, first)?;
    push_others(text, numbers)?;
    text.push(b']')
}

/// Puts a start value at the end, where it isn't the usual one.
fn push_start(text: &mut Text, start: &Value) -> Result<(), Memory>
    ensures { OnOk result (text.new ≡ text.old ++ text_of (start_items start.now)) }
{
    match start {
        Value::Int(0) | Value::Bool(false) => Ok(()),
        Value::Int(z) => {
            text.push_all(b" = ")?;
            push_signed(text, *z)
        }
        Value::Bool(true) => text.push_all(b" = true"),
        Value::Seq(numbers) => push_sequence(text, numbers),
    }
}

/// Puts a variable at the end.
fn push_variable(text: &mut Text, v: &Var) -> Result<(), Memory>
    ensures { OnOk result (text.new ≡ text.old ++ text_of (variable v.now)) }
{
    push_indent(text, 1)?;
    text.push_all(b"var ")?;
    push_typed(text, &v.name, v.kind)?;
    push_start(text, &v.start)?;
    text.push(b'\n')
}

/// The keyword of an end of a sequence.
fn side_text(front: bool) -> &'static [u8]
    ensures { result.now ≡ symbol_text (side_symbol front) }
{
    if front { b"front" } else { b"back" }
}

/// Puts a hint at the end.
fn push_hint(text: &mut Text, h: &Hint<Name>) -> Result<(), Memory>
    ensures { OnOk result (text.new ≡ text.old ++ text_of (hint h.now)) }
{
    push_spaced(text, side_text(h.front))?;
    push_name(text, &h.name)?;
    text.push(b' ')?;
    push_depth(text, h.depth)
}

/// Puts hints at the end.
fn push_hints(text: &mut Text, hints: &[Hint<Name>]) -> Result<(), Memory>
    ensures { OnOk result (text.new ≡ text.old ++ text_of (flat_map hint hints.now)) }
{
    for h in hints {
        push_hint(text, h)?;
    }
    Ok(())
}

/// Puts a certificate at the end.
fn push_semi(text: &mut Text, s: &Semi<Name>) -> Result<(), Memory>
    ensures { OnOk result (text.new ≡ text.old ++ text_of (semi s.now)) }
{
    push_indent(text, 1)?;
    text.push_all(b"semi ")?;
    push_name(text, &s.first)?;
    text.push_all(b", ")?;
    push_name(text, &s.second)?;
    push_hints(text, s.hints.as_slice())?;
    text.push(b'\n')
}

/// Puts a given box at the end.
fn push_given(text: &mut Text, g: &Given<Name>) -> Result<(), Memory>
    ensures { OnOk result (text.new ≡ text.old ++ text_of (given g.now)) }
{
    push_name(text, &g.name)?;
    push_spaced(text, b":")?;
    push_name(text, &g.cat)
}

/// Puts the given boxes of a cat at the end, where there are some.
fn push_all_given(text: &mut Text, all: &[Given<Name>]) -> Result<(), Memory>
    ensures { OnOk result (text.new ≡ text.old ++ text_of (perhaps_bracketed given all.now)) }
{
    let Some((first, others)) = all.split_first() else {
        return Ok(());
    };
    text.push(b'(')?;
    push_given(text, first)?;
    for other in others {
        text.push_all(b", ")?;
        push_given(text, other)?;
    }
    text.push(b')')
}

/// Puts the names of the boxes that a box is given at the end, where there are some.
fn push_names(text: &mut Text, names: &[Name]) -> Result<(), Memory>
    ensures { OnOk result (text.new ≡ text.old ++ text_of (perhaps_bracketed box_name names.now)) }
{
    let Some((first, others)) = names.split_first() else {
        return Ok(());
    };
    text.push(b'(')?;
    push_name(text, first)?;
    for other in others {
        text.push_all(b", ")?;
        push_name(text, other)?;
    }
    text.push(b')')
}

/// Puts the variables of a cat at the end.
fn push_variables(text: &mut Text, vars: &[Var]) -> Result<(), Memory>
    ensures { OnOk result (text.new ≡ text.old ++ text_of (flat_map variable vars.now)) }
{
    for v in vars {
        push_variable(text, v)?;
    }
    Ok(())
}

/// Puts the procedures of a cat at the end.
fn push_procedures(text: &mut Text, procs: &[Proc<Name>]) -> Result<(), Memory>
    requires kept { All (λ (q : Procedure TreeName). IsKeptForm q.form) procs.now }
    ensures { OnOk result (text.new ≡ text.old ++ text_of (flat_map procedure procs.now)) }
{
    for q in procs {
        push_procedure(text, q)?;
    }
    Ok(())
}

/// Puts the certificates of a cat at the end.
fn push_semis(text: &mut Text, semis: &[Semi<Name>]) -> Result<(), Memory>
    ensures { OnOk result (text.new ≡ text.old ++ text_of (flat_map semi semis.now)) }
{
    for s in semis {
        push_semi(text, s)?;
    }
    Ok(())
}

/// Puts a cat at the end.
pub(crate) fn push_cat(text: &mut Text, c: &Cat<Name>) -> Result<(), Memory>
    requires { IsKeptCat c.now }
    ensures { OnOk result (text.new ≡ text.old ++ text_of (cat c.now)) }
{
    text.push_all(b"cat ")?;
    push_name(text, &c.name)?;
    push_all_given(text, c.given.as_slice())?;
    text.push(b'\n')?;
    push_variables(text, c.vars.as_slice())?;
    push_procedures(text, c.procs.as_slice())?;
    push_semis(text, c.semis.as_slice())?;
    push_end(text, 0)
}

/// Puts a box at the end.
pub(crate) fn push_box(text: &mut Text, b: &BoxDecl) -> Result<(), Memory>
    ensures { OnOk result (text.new ≡ text.old ++ text_of (box b.now)) }
{
    text.push_all(b"box ")?;
    push_name(text, &b.name)?;
    push_spaced(text, b":")?;
    push_name(text, &b.cat)?;
    push_names(text, b.given.as_slice())?;
    text.push(b'\n')
}
