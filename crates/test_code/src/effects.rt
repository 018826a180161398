//! The effects of procedures of each form.

use effect_sets::{Effects, effects};
use method_code::{compile, number_of};
use std::test::Fail;
use test_texts::program_of;

/// A box with a method that has each form of statement, one that calls first, and one with a loop alone.
const TEXT: &str = "seuss 1 \
     cat Channel var q : seq total put(x : int) is q := add(q, x) end \
     partial get(x : int) : int when len(q) > x -> result := first(q) q := rest(q) end \
     total size() : int is result := len(q) end end \
     cat User(c : Channel) \
     var a : int var b : int var n : int var is_on : bool var m : int var k : int \
     total all() : int is let w : int := a while b < w do n := w end \
     if is_on then m := c.size() c.put(k) end end \
     action early when not is_on ; v := c.get(k) -> m := v when b = 1 ~> end \
     total loop(x : int) is while x < n do n := n &- 1 end end \
     action none when true -> end end \
     box i : Input box o : Output box c : Channel box u : User(c)";

/// The sets `tests`, `reads` and `writes`, and the flags `has_early`, `has_late` and `single`.
fn told(sets: [u32; 3], flags: [bool; 3]) -> Effects {
    Effects {
        tests: sets[0],
        reads: sets[1],
        writes: sets[2],
        has_early: flags[0],
        has_late: flags[1],
        single: flags[2],
    }
}

/// The effects of each procedure of the text, by its box and its number there. Variable v has the bit 2^v.
#[test]
fn effects_are_told(rt: HostRuntime) -> Result<(), Fail> {
    let alloc = rt.alloc();
    let program = program_of(alloc, TEXT.as_bytes())?;
    let code = compile(alloc, &program)?;
    for (box_number, procedure, sets, flags) in [
        (0u32, 0u32, [1u32, 1, 1], [false, false, true]),
        (1, 0, [0, 1, 1], [false, false, true]),
        (2, 0, [0, 1, 1], [false, false, true]),
        (2, 1, [1, 1, 1], [false, false, true]),
        (2, 2, [0, 1, 0], [false, false, true]),
        (3, 0, [0, 1 + 2 + 8 + 32, 4 + 16], [false, true, false]),
        (3, 1, [2 + 8 + 32, 2 + 8 + 32, 16], [true, true, false]),
        (3, 2, [0, 4, 4], [false, false, false]),
        (3, 3, [0, 0, 0], [false, false, true]),
    ] {
        let found = effects(&code, number_of(&code, &program, box_number, procedure));
        assert_eq!(rt; found, told(sets, flags), "{box_number} {procedure}");
    }
    Ok(())
}
