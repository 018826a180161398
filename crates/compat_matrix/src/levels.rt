//! How far each action of a program is safe beside each other one.

ghost use Rattle.std.specs.Prelude.{◌≡◌, ◌+◌, ◌<◌, length, IfOk};
ghost use Rattle.seuss_program.specs.Keeping.{Keeps};
ghost use Rattle.method_code.specs.Codes.{compiled};
ghost use Rattle.compat_matrix.specs.Certificates.{AreCertificates, AreLevels, levels_of};
ghost use Rattle.compat_matrix.specs.Members.{AreAllMembers};
ghost use Rattle.compat_matrix.specs.Leasts.{HasCells};

use crate::certificate::Certificate;
use crate::least::least;
use crate::member::Member;
use crate::members::members;
use method_code::Code;
use seuss_base::{CompatRows, List, Memory};
use seuss_program::Program;
use std::alloc::Global;

/// How far each action is safe beside each other one, where all certificates hold at these levels. Want of
/// memory is the only error.
pub fn matrix_of(
    alloc: Global,
    program: &Program,
    code: &Code,
    certificates: &[Certificate],
) -> Result<CompatRows, Memory>
    requires keeps { Keeps program.now }
    requires compiled { code.now ≡ compiled program.now }
    requires certificates { AreCertificates program.now certificates.now }
    ensures { IfOk result (AreLevels program.now certificates.now) }
{
    let all = all_members(alloc, program, code)?;
    let mut rows = CompatRows::new(alloc, program.actions.len() as u32)?;
    fill(program, certificates, all.as_slice(), &mut rows);
    Ok(rows)
}

/// The members of each action.
fn all_members(alloc: Global, program: &Program, code: &Code) -> Result<List<List<Member>>, Memory>
    requires keeps { Keeps program.now }
    requires compiled { code.now ≡ compiled program.now }
    ensures { IfOk result (AreAllMembers program.now program.now.actions) }
{
    let mut all = List::new(alloc);
    for action in program.actions.as_slice() {
        all.push(members(alloc, program, code, action)?)?;
    }
    Ok(all)
}

/// Gives each ordered pair of actions the least level of their members.
fn fill(
    program: &Program,
    certificates: &[Certificate],
    all: &[List<Member>],
    rows: &mut CompatRows,
)
    requires { rows.old.count ≡ length all.now }
    ensures count { rows.new.count ≡ rows.old.count }
    ensures cells { HasCells program.now (levels_of certificates.now) all.now rows.new (length all.now) 0 }
{
    for row in 0..rows.count() {
        fill_row(program, certificates, all, row, rows);
    }
}

fn fill_row(
    program: &Program,
    certificates: &[Certificate],
    all: &[List<Member>],
    row: u32,
    rows: &mut CompatRows,
)
    requires count { rows.old.count ≡ length all.now }
    requires within { row < length all.now }
    ensures count { rows.new.count ≡ rows.old.count }
    ensures cells { HasCells program.now (levels_of certificates.now) all.now rows.old row 0 →
        HasCells program.now (levels_of certificates.now) all.now rows.new (row + 1) 0 }
{
    let xs = all[row as usize].as_slice();
    for column in 0..rows.count() {
        let ys = all[column as usize].as_slice();
        rows.set(row, column, least(program, certificates, xs, ys));
    }
}
