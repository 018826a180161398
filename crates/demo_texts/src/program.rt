//! The program of the demo.

ghost use Rattle.std.specs.Prelude.{◌≡◌, ◌≤◌, ◌+◌, ◌-◌, ◌++◌, decimal, IfOk, OnOk};
ghost use Rattle.std.specs.List.{flat_map, range_with_len};
ghost use Rattle.demo_texts.specs.Demos.{cats_text, channel_line, demo_text, relay_line};

use report_text::push_number;
use seuss_base::{Memory, Text};
use std::alloc::Global;

/// The cats of the demo: a channel, the head of the pipeline, and a relay.
const CATS: &[u8] = b"seuss 1
cat Channel
  var q : seq
  total put(x : int) is
    q := add(q, x)
  end
  partial get() : int
    when len(q) > 0 ->
      result := first(q)
      q := rest(q)
  end
  semi get, put front q 1
end
cat Head(a : Input, b : Channel)
  action pass
    when true ; v := a.read() ->
      b.put(v &+ 1)
  end
end
cat Relay(a : Channel, b : Channel)
  action pass
    when true ; v := a.get() ->
      b.put(v &+ 1)
  end
end
";

/// Puts the line of a channel at the end.
fn push_channel(text: &mut Text, number: u32) -> Result<(), Memory>
    ensures { OnOk result (text.new ≡ text.old ++ channel_line number) }
{
    text.push_all(b"box c")?;
    push_number(text, u64::from(number))?;
    text.push_all(b" : Channel\n")
}

/// Puts the line of a relay at the end, which takes from the channel in front of its own.
fn push_relay(text: &mut Text, number: u32) -> Result<(), Memory>
    requires { 1 ≤ number }
    ensures { OnOk result (text.new ≡ text.old ++ relay_line number) }
{
    text.push_all(b"box r")?;
    push_number(text, u64::from(number))?;
    text.push_all(b" : Relay(c")?;
    push_number(text, u64::from(number - 1))?;
    text.push_all(b", c")?;
    push_number(text, u64::from(number))?;
    text.push_all(b")\n")
}

/// The program of the demo with so many relays, the head among them, in its canonical text. Want of memory is all that
/// can be refused.
pub fn demo_program(alloc: Global, relays: u32) -> Result<Text, Memory>
    requires some { 1 ≤ relays }
    requires few { relays ≤ 31 }
    ensures { IfOk result (λ text. text ≡ demo_text relays) }
{
    let mut text = Text::from_slice(alloc, CATS)?;
    text.push_all(b"box c0 : Input\n")?;
    for n in 0..relays {
        push_channel(&mut text, n + 1)?;
    }
    text.push_all(b"box r1 : Head(c0, c1)\n")?;
    for n in 0..relays - 1 {
        push_relay(&mut text, n + 2)?;
    }
    Ok(text)
}
