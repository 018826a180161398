//! The numbers of procedures over all cats.

ghost use Rattle.std.specs.Prelude.{◌≡◌, ◌+◌, ◌≤◌, ◌^◌, length, IfOk, OnErr};
ghost use Rattle.method_code.specs.Codes.{cats_code, compiled, number_of as number_for};

use crate::code::Code;
use seuss_base::{List, Memory};
use seuss_program::{Cat, Program, Ref};

/// A number of procedures and a further one. `Memory` comes where the sum is no number of 32 bits.
pub fn add(many: u32, further: u64) -> Result<u32, Memory>
    ensures ok { IfOk result (λ sum. sum ≡ many + further) }
    ensures err { OnErr result (2 ^ 32 ≤ many + further) }
{
    if further > (u32::MAX - many) as u64 {
        return Err(Memory);
    }
    Ok(many + further as u32)
}

/// How many procedures cats have together. `Memory` comes where that is no number of 32 bits.
pub fn procedures_in(cats: &[Cat<Ref>]) -> Result<u32, Memory>
    ensures ok { IfOk result (λ many. many ≡ length (cats_code cats.now)) }
    ensures err { OnErr result (2 ^ 32 ≤ length (cats_code cats.now)) }
{
    let mut many = 0;
    for cat in cats {
        many = add(many, cat.procs.len())?;
    }
    Ok(many)
}

/// The number over all cats of a procedure of a box. What isn't there has a number past the last one.
pub fn number_of(code: &Code, program: &Program, box_number: u32, procedure: u32) -> u32
    requires { code.now ≡ compiled program.now }
    ensures { result ≡ number_for program.now box_number procedure }
{
    let past = code.methods.len() as u32;
    let Some(info) = program.boxes.get(box_number as u64) else {
        return past;
    };
    let Some(cat) = program.cats.get(info.cat as u64) else {
        return past;
    };
    if procedure as u64 >= cat.procs.len() {
        return past;
    }
    let cats = program.cats.as_slice();
    match procedures_in(&cats[..info.cat as usize]) {
        Ok(before) => before.saturating_add(procedure),
        Err(_) => past,
    }
}
