//! Names, types, calls and statements in the canonical text.

ghost use Rattle.std.specs.Prelude.{◌≡◌, [], ◌∷◌, ◌++◌, ◌+◌, ◌<◌, ◌^◌, All, OnOk};
ghost use Rattle.std.specs.List.{flat_map};
ghost use Rattle.seuss_parser.specs.Symbols.{symbol_text};
ghost use Rattle.seuss_parser.specs.declared.symbol.Symbol.TheVariants.{If, Then, While, Do, End};
ghost use Rattle.seuss_print.specs.Items.{text_of, indented, line, symbol, separated, behind_comma};
ghost use Rattle.seuss_print.specs.Expressions.{expression};
ghost use Rattle.seuss_print.specs.Statements.{kind_symbol, typed, binding, call_items, let_line};
ghost use Rattle.seuss_print.specs.Statements.{assignment_line, call_line, head_line, statement, body};
ghost use Rattle.seuss_print.specs.Statements.{else_of};
ghost use Rattle.seuss_print.specs.Printable.{HasRoom};

use crate::expressions::{push_expression, push_spaced};
use seuss_base::{Memory, Text};
use seuss_program::{Call, Expr, Kind, Name, Statement};

/// Begins a line that stands inside so many others.
pub(crate) fn push_indent(text: &mut Text, depth: u32) -> Result<(), Memory>
    ensures { OnOk result (text.new ≡ text.old ++ text_of (indented depth)) }
{
    for _ in 0..depth {
        text.push_all(b"  ")?;
    }
    Ok(())
}

/// Puts a name at the end.
pub(crate) fn push_name(text: &mut Text, name: &Name) -> Result<(), Memory>
    ensures { OnOk result (text.new ≡ text.old ++ name.now.text) }
{
    text.push_all(name.text.as_bytes())
}

/// The keyword of a type.
fn kind_text(kind: Kind) -> &'static [u8]
    ensures { result.now ≡ symbol_text (kind_symbol kind) }
{
    match kind {
        Kind::Int => b"int",
        Kind::Bool => b"bool",
        Kind::Seq => b"seq",
    }
}

/// Puts a name and its type at the end.
pub(crate) fn push_typed(text: &mut Text, name: &Name, kind: Kind) -> Result<(), Memory>
    ensures { OnOk result (text.new ≡ text.old ++ text_of (typed name.now kind)) }
{
    push_name(text, name)?;
    push_spaced(text, b":")?;
    text.push_all(kind_text(kind))
}

/// Puts the name at the end that a call's result is bound to, where there is one.
pub(crate) fn push_binding(text: &mut Text, bind: &Option<Name>) -> Result<(), Memory>
    ensures { OnOk result (text.new ≡ text.old ++ text_of (binding bind.now)) }
{
    if let Some(name) = bind {
        push_name(text, name)?;
        push_spaced(text, b":=")?;
    }
    Ok(())
}

/// Puts further arguments at the end, each behind a comma.
fn push_others(text: &mut Text, others: &[Expr<Name>]) -> Result<(), Memory>
    ensures { OnOk result (text.new ≡ text.old ++ text_of (flat_map (behind_comma expression) others.now)) }
{
    for arg in others {
        text.push_all(b", ")?;
        push_expression(text, arg)?;
    }
    Ok(())
}

/// Puts the arguments of a call at the end.
fn push_arguments(text: &mut Text, args: &[Expr<Name>]) -> Result<(), Memory>
    ensures { OnOk result (text.new ≡ text.old ++ text_of (separated expression args.now)) }
{
    let Some((first, others)) = args.split_first() else {
        return Ok(());
    };
    push_expression(text, first)?;
    push_others(text, others)
}

/// Puts a call at the end.
pub(crate) fn push_call(text: &mut Text, call: &Call<Name>) -> Result<(), Memory>
    ensures { OnOk result (text.new ≡ text.old ++ text_of (call_items call.now)) }
{
    push_name(text, &call.target)?;
    text.push(b'.')?;
    push_name(text, &call.method)?;
    text.push(b'(')?;
    push_arguments(text, call.args.as_slice())?;
    text.push(b')')
}

/// Puts the line of a new local at the end.
fn push_let(
    text: &mut Text,
    name: &Name,
    kind: Kind,
    value: &Expr<Name>,
    depth: u32,
) -> Result<(), Memory>
    ensures { OnOk result (text.new ≡ text.old ++ text_of (let_line name.now kind value.now depth)) }
{
    push_indent(text, depth)?;
    text.push_all(b"let ")?;
    push_typed(text, name, kind)?;
    push_spaced(text, b":=")?;
    push_expression(text, value)?;
    text.push(b'\n')
}

/// Puts the line of an assignment at the end.
fn push_assignment(
    text: &mut Text,
    name: &Name,
    value: &Expr<Name>,
    depth: u32,
) -> Result<(), Memory>
    ensures { OnOk result (text.new ≡ text.old ++ text_of (assignment_line name.now value.now depth)) }
{
    push_indent(text, depth)?;
    push_name(text, name)?;
    push_spaced(text, b":=")?;
    push_expression(text, value)?;
    text.push(b'\n')
}

/// Puts the line of a call at the end.
fn push_call_line(
    text: &mut Text,
    bind: &Option<Name>,
    call: &Call<Name>,
    depth: u32,
) -> Result<(), Memory>
    ensures { OnOk result (text.new ≡ text.old ++ text_of (call_line bind.now call.now depth)) }
{
    push_indent(text, depth)?;
    push_binding(text, bind)?;
    push_call(text, call)?;
    text.push(b'\n')
}

/// Puts the first line of an `if` at the end.
fn push_if_head(text: &mut Text, cond: &Expr<Name>, depth: u32) -> Result<(), Memory>
    ensures { OnOk result (text.new ≡ text.old ++ text_of (head_line If cond.now Then depth)) }
{
    push_indent(text, depth)?;
    text.push_all(b"if ")?;
    push_expression(text, cond)?;
    text.push_all(b" then\n")
}

/// Puts the first line of a `while` at the end.
fn push_while_head(text: &mut Text, cond: &Expr<Name>, depth: u32) -> Result<(), Memory>
    ensures { OnOk result (text.new ≡ text.old ++ text_of (head_line While cond.now Do depth)) }
{
    push_indent(text, depth)?;
    text.push_all(b"while ")?;
    push_expression(text, cond)?;
    text.push_all(b" do\n")
}

/// Puts a line with `end` alone at the end.
pub(crate) fn push_end(text: &mut Text, depth: u32) -> Result<(), Memory>
    ensures { OnOk result (text.new ≡ text.old ++ text_of (line depth (symbol End ∷ []))) }
{
    push_indent(text, depth)?;
    text.push_all(b"end\n")
}

/// Puts statements at the end, one per line and inside so many other lines.
#[cycle(statement)]
pub(crate) fn push_body(
    text: &mut Text,
    statements: &[Statement<Name>],
    depth: u32,
) -> Result<(), Memory>
    requires room { All (HasRoom depth) statements.now }
    ensures { OnOk result (text.new ≡ text.old ++ text_of (body statements.now depth)) }
{
    for s in statements {
        push_statement(text, s, depth)?;
    }
    Ok(())
}

/// Puts `else` and its block at the end, where that isn't empty.
#[cycle(statement)]
fn push_else(text: &mut Text, statements: &[Statement<Name>], depth: u32) -> Result<(), Memory>
    requires room { depth + 1 < 2 ^ 32 }
    requires inside { All (HasRoom (depth + 1)) statements.now }
    ensures { OnOk result (text.new ≡ text.old ++ text_of (else_of statements.now depth)) }
{
    if statements.is_empty() {
        return Ok(());
    }
    push_indent(text, depth)?;
    text.push_all(b"else\n")?;
    push_body(text, statements, depth + 1)
}

/// Puts a statement at the end, on lines of its own and inside so many others.
#[cycle(statement)]
fn push_statement(text: &mut Text, s: &Statement<Name>, depth: u32) -> Result<(), Memory>
    requires { HasRoom depth s.now }
    ensures { OnOk result (text.new ≡ text.old ++ text_of (statement s.now depth)) }
{
    match s {
        Statement::Let { name, kind, value } => push_let(text, name, *kind, value, depth),
        Statement::Assign { name, value } => push_assignment(text, name, value, depth),
        Statement::Call { bind, call } => push_call_line(text, bind, call, depth),
        Statement::If { cond, yes, no } => {
            push_if_head(text, cond, depth)?;
            push_body(text, yes.as_slice(), depth + 1)?;
            push_else(text, no.as_slice(), depth)?;
            push_end(text, depth)
        }
        Statement::While { cond, turn } => {
            push_while_head(text, cond, depth)?;
            push_body(text, turn.as_slice(), depth + 1)?;
            push_end(text, depth)
        }
    }
}
