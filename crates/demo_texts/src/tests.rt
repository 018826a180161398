//! The demo with two relays.

use crate::{demo_input, demo_program};
use std::test::Fail;

/// The boxes of two relays.
const BOXES: &str = "box c0 : Input\nbox c1 : Channel\nbox c2 : Channel\nbox r1 : Head(c0, c1)\n\
    box r2 : Relay(c1, c2)\n";

#[test]
fn two_relays_have_two_channels(rt: HostRuntime) -> Result<(), Fail> {
    let text = demo_program(rt.alloc(), 2)?;
    assert!(rt;
        text.as_bytes().starts_with(b"seuss 1\ncat Channel\n")
            && text.as_bytes().ends_with(BOXES.as_bytes())
    );
    Ok(())
}

#[test]
fn each_relay_has_a_hundred_numbers(rt: HostRuntime) -> Result<(), Fail> {
    let numbers = demo_input(rt.alloc(), 31)?;
    assert!(rt;
        numbers.len() == 3100 && numbers.get(0) == Some(1) && numbers.get(3099) == Some(3100)
    );
    Ok(())
}
