//! The input of the demo.

ghost use Rattle.std.specs.Prelude.{◌≡◌, ◌≤◌, pos, IfOk};
ghost use Rattle.demo_texts.specs.Demos.{demo_numbers};

use seuss_base::{Ints, Memory};
use std::alloc::Global;

/// A number as one of an input.
fn number(n: u32) -> i64
    ensures { result ≡ pos n }
{
    i64::from(n)
}

/// The input of the demo with so many relays: a hundred numbers for each, from 1 on. Want of memory is all that can be
/// refused.
pub fn demo_input(alloc: Global, relays: u32) -> Result<Ints, Memory>
    requires some { 1 ≤ relays }
    requires few { relays ≤ 31 }
    ensures { IfOk result (λ numbers. numbers ≡ demo_numbers relays) }
{
    let mut numbers = Ints::new(alloc);
    for n in 0..100 * relays {
        numbers.push(number(n + 1))?;
    }
    Ok(numbers)
}
