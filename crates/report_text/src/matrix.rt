//! The levels of a program, as they are printed.

ghost use Rattle.std.specs.Prelude.{◌≡◌, ◌++◌, ◌<◌, length, map, IfOk, OnOk};
ghost use Rattle.std.specs.List.{flat_map, range_with_len};
ghost use Rattle.seuss_program.specs.declared.tree.Ref.{Ref};
ghost use Rattle.seuss_program.specs.declared.tree.Semi.{Semi};
ghost use Rattle.seuss_program.specs.Programs.{method_of};
ghost use Rattle.report_text.specs.MatrixTexts.{level_text, method_name, certificate_line};
ghost use Rattle.report_text.specs.MatrixTexts.{certificate_lines};
ghost use Rattle.report_text.specs.MatrixTexts.{certificates, pair_line, row_lines, matrix_text as text_of};

use crate::names::push_action;
use seuss_base::{CompatRows, Level, List, Memory, Text};
use seuss_program::{Cat, Program, Ref, Semi};
use std::alloc::Global;

/// The word of a level.
fn level_word(level: Level) -> &'static [u8]
    ensures { result.now ≡ level_text level }
{
    match level {
        Level::Never => b"never",
        Level::Loose => b"loose",
        Level::Firm => b"firm",
    }
}

/// The number of the method that a name stands for.
fn method_number(name: Ref) -> u32
    ensures { result ≡ method_of name }
{
    match name {
        Ref::Method(number) => number,
        Ref::Var(_) | Ref::Slot(_) | Ref::Given(_) | Ref::Cat(_) => 0,
    }
}

/// Puts the names of a cat and of one of its methods at the end, with a point between.
fn push_method(text: &mut Text, cat: &Cat<Ref>, name: Ref) -> Result<(), Memory>
    ensures { OnOk result (text.new ≡ text.old ++ method_name cat.now name) }
{
    text.push_all(cat.name.text.as_bytes())?;
    text.push_all(b".")?;
    if let Some(method) = cat.procs.get(method_number(name) as u64) {
        text.push_all(method.name.text.as_bytes())?;
    }
    Ok(())
}

/// Puts the line of a certificate at the end.
fn push_certificate(
    text: &mut Text,
    cat: &Cat<Ref>,
    semi: &Semi<Ref>,
    level: Level,
) -> Result<(), Memory>
    ensures { OnOk result (text.new ≡ text.old ++ certificate_line cat.now semi.now level) }
{
    text.push_all(b"semi ")?;
    push_method(text, cat, semi.first)?;
    text.push_all(b" ")?;
    push_method(text, cat, semi.second)?;
    text.push_all(b" ")?;
    text.push_all(level_word(level))?;
    text.push(b'\n')?;
    Ok(())
}

/// Puts the lines of certificates of a cat at the end, each with its level.
fn push_certificates(
    text: &mut Text,
    cat: &Cat<Ref>,
    semis: &[Semi<Ref>],
    levels: &[Level],
) -> Result<(), Memory>
    ensures { OnOk result (text.new ≡ text.old
        ++ certificate_lines (map (λ (s : Semi Ref). (cat.now, s)) semis.now) levels.now) }
{
    for (semi, level) in semis.iter().zip(levels) {
        push_certificate(text, cat, semi, *level)?;
    }
    Ok(())
}

/// Puts the lines of the certificates of all cats at the end.
fn push_cats(text: &mut Text, cats: &[Cat<Ref>], levels: &[Level]) -> Result<(), Memory>
    requires { length levels.now ≡ length (certificates cats.now) }
    ensures { OnOk result (text.new ≡ text.old ++ certificate_lines (certificates cats.now) levels.now) }
{
    let mut rest = levels;
    for cat in cats {
        let (here, later) = rest.split_at(cat.semis.as_slice().len());
        push_certificates(text, cat, cat.semis.as_slice(), here)?;
        rest = later;
    }
    Ok(())
}

/// Puts the line of an action beside another one at the end.
fn push_pair(
    text: &mut Text,
    program: &Program,
    rows: &CompatRows,
    a: u32,
    b: u32,
) -> Result<(), Memory>
    requires first { a < rows.now.count }
    requires second { b < rows.now.count }
    ensures { OnOk result (text.new ≡ text.old ++ pair_line program.now rows.now a b) }
{
    push_action(text, program, a)?;
    text.push_all(b" ")?;
    push_action(text, program, b)?;
    text.push_all(b" ")?;
    text.push_all(level_word(rows.level(a, b)))?;
    text.push(b'\n')?;
    Ok(())
}

/// Puts the lines of an action beside each action at the end.
fn push_row(text: &mut Text, program: &Program, rows: &CompatRows, a: u32) -> Result<(), Memory>
    requires count { rows.now.count ≡ length program.now.actions }
    requires within { a < rows.now.count }
    ensures { OnOk result (text.new ≡ text.old ++ row_lines program.now rows.now a) }
{
    for b in 0..rows.count() {
        push_pair(text, program, rows, a, b)?;
    }
    Ok(())
}

/// The levels of a program: a line for each certificate with its level, in the order of the text, and
/// then for each action a line for each action beside it. Want of memory is the only error.
pub fn matrix_text(
    alloc: Global,
    program: &Program,
    rows: &CompatRows,
    levels: &List<Level>,
) -> Result<Text, Memory>
    requires count { rows.now.count ≡ length program.now.actions }
    requires certified { length levels.now ≡ length (certificates program.now.cats) }
    ensures { IfOk result (λ text. text ≡ text_of program.now rows.now levels.now) }
{
    let mut text = Text::new(alloc);
    push_cats(&mut text, program.cats.as_slice(), levels.as_slice())?;
    for a in 0..rows.count() {
        push_row(&mut text, program, rows, a)?;
    }
    Ok(text)
}
