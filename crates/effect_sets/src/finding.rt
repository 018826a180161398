//! The effects of a procedure, from its code.

ghost use Rattle.std.specs.Prelude.{◌≡◌, ℕ, Some, None, slice_get};
ghost use Rattle.seuss_program.specs.declared.program.Program.{Program};
ghost use Rattle.seuss_program.specs.declared.tree.Ref.{Ref};
ghost use Rattle.seuss_program.specs.declared.tree.Proc.{Proc};
ghost use Rattle.seuss_program.specs.Programs.{procedure_of};
ghost use Rattle.method_code.specs.Codes.{compiled, method_code, number_of};
ghost use Rattle.effect_sets.specs.Effects.{IsEffects, no_effects};
ghost use Rattle.effect_sets.specs.Masks.{code_effects};

use crate::beginnings::{calls_first, tested};
use crate::instructions::{has_call, has_loop, read, written};
use crate::sets::Effects;
use method_code::{Code, Method};

/// The effects of the code of a procedure.
fn effects_of(method: &Method) -> Effects
    ensures { result ≡ code_effects method.now }
{
    let instructions = method.instructions.as_slice();
    let tests = tested(&method.entry);
    let has_early = calls_first(&method.entry);
    let has_late = has_early || has_call(instructions);
    Effects {
        tests,
        reads: tests | read(instructions),
        writes: written(instructions),
        has_early,
        has_late,
        single: !(has_late || has_loop(instructions)),
    }
}

/// The effects of a procedure, by its number over all cats. One that isn't there has none.
pub fn effects(code: &Code, method: u32) -> Effects
    ensures of_procedure { (q : Proc Ref) → slice_get code.now method ≡ Some (method_code q) →
        IsEffects q result }
    ensures in_program { (p : Program) (box number : ℕ) (q : Proc Ref) → code.now ≡ compiled p →
        procedure_of p box number ≡ Some q → method ≡ number_of p box number → IsEffects q result }
    ensures past_the_last { slice_get code.now method ≡ None → result ≡ no_effects }
{
    match code.method(method) {
        Some(method) => effects_of(method),
        None => Effects {
            tests: 0,
            reads: 0,
            writes: 0,
            has_early: false,
            has_late: false,
            single: true,
        },
    }
}
