//! Levels of boxes, start states and copies.

use call_order::level_of;
use report_text::end_text;
use seuss_base::List;
use seuss_parser::parse_input;
use seuss_program::{LastLine, Value, Vars, initial_state};
use std::test::Fail;
use test_texts::program_of;

/// Boxes above one another, in the order from the highest to the lowest one.
const LEVELS: &str = "seuss 1 cat Low end cat Mid(l : Low) end cat Top(m : Mid, l : Low) end \
     box t : Top(m, l) box m : Mid(k) box k : Low box l : Low";

/// A box is one level above the highest one that it is given.
#[test]
fn levels_are_told(rt: HostRuntime) -> Result<(), Fail> {
    let program = program_of(rt.alloc(), LEVELS.as_bytes())?;
    let mut levels = List::new(rt.alloc());
    for number in 0..4u32 {
        if (number as u64) < program.boxes.len() {
            levels.push(level_of(&program, number))?;
        }
    }
    assert_eq!(rt; levels.as_slice(), [2, 1, 0, 0].as_slice());
    Ok(())
}

/// Two inputs and a box with a start value of each type.
const STARTS: &str = "seuss 1 cat C var n : int = -5 var b : bool = true var q : seq = [1, -2] end \
     box c : C box i : Input box j : Input";

/// A program starts with its start values, and with the input in its first box for it. A copy of a state
/// stays as it was.
#[test]
fn states_start_and_are_copied(rt: HostRuntime) -> Result<(), Fail> {
    let alloc = rt.alloc();
    let program = program_of(alloc, STARTS.as_bytes())?;
    let input = parse_input(alloc, b"7\n-08")?;
    let mut state = initial_state(alloc, &program, &input)?;
    let copied = state.copy(alloc)?;
    assert_eq!(rt; state.boxes.len(), 3);
    let mut values = List::new(alloc);
    values.push(Value::Bool(false))?;
    state.boxes.set(0, Vars { values });
    let text = end_text(alloc, &program, &LastLine::Done, &copied)?;
    assert_eq!(rt;
        text.as_bytes(),
        b"c.n = -5\nc.b = true\nc.q = [1 -2]\ni.q = [7 -8]\nj.q = []\ndone\n".as_slice()
    );
    Ok(())
}
