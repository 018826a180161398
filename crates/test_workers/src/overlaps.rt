//! Attempts that overlap, by a gate that holds one of them back.

use crate::holding::HoldingGate;
use crate::runs::run;
use std::alloc::Global;
use std::sync::Wait;
use std::test::Fail;
use std::thread::Threads;

/// A channel, one who puts what it reads, and one who takes and writes.
const CHANNEL: &str = "seuss 1
cat Channel
  var q : seq
  total put(x : int) is q := add(q, x) end
  partial get() : int when len(q) > 0 -> result := first(q) q := rest(q) end
  semi get, put front q 1
end
cat Mover(i : Input, c : Channel)
  action move when true ; v := i.read() -> c.put(v) end
end
cat Taker(c : Channel, o : Output)
  action take when true ; v := c.get() -> o.write(v) end
end
box i : Input
box c : Channel
box o : Output
box s : Mover(i, c)
box k : Taker(c, o)
%%
7
";

/// Two who take from a full channel: one puts into another channel, one sets a cell; a third one takes from that channel
/// where the cell was set.
const CELL: &str = "seuss 1
cat Channel
  var q : seq
  total put(x : int) is q := add(q, x) end
  partial get() : int when len(q) > 0 -> result := first(q) q := rest(q) end
  semi get, put front q 1
end
cat Full
  var q : seq = [1, 2]
  total put(x : int) is q := add(q, x) end
  partial get() : int when len(q) > 0 -> result := first(q) q := rest(q) end
  semi get, put front q 1
end
cat Cell(c : Channel)
  var w : int
  total set(x : int) is w := x end
  partial probe() : int when w > 0 ; r := c.get() -> result := r end
end
cat Bee(d : Full, c : Channel)
  action pass when true ; x := d.get() -> c.put(x) end
end
cat Dee(d : Full, v : Cell)
  action pass when true ; x := d.get() -> v.set(x) end
end
cat Ay(v : Cell)
  var got : int
  action look when true ; r := v.probe() -> got := r end
end
box c : Channel
box d : Full
box v : Cell(c)
box b : Bee(d, c)
box e : Dee(d, v)
box a : Ay(v)
";

/// Whether one round of a text by two workers, where the gate holds attempt 0 back, ends well with this report, and
/// without the gate's flag.
fn is_reported<R: Threads + Wait + Sync>(
    rt: &R,
    alloc: Global,
    text: &str,
    report: &str,
) -> Result<bool, Fail> {
    let gate = HoldingGate::new();
    let ending = run(rt, alloc, "run 1 2", text, &gate)?;
    Ok(ending.status == 0 && ending.report.as_str() == report && !gate.is_up())
}

/// The put is held back until the get has found the channel empty, beside it. The get is tried again.
#[test]
fn a_get_meets_a_put_that_is_held_back(rt: HostRuntime) -> Result<(), Fail> {
    let report = "round 1\ns.move accepted\nk.take accepted\ni.q = []\nc.q = []\no.q = [7]\ndone\n";
    assert!(rt; is_reported(&rt, rt.alloc(), CHANNEL, report)?);
    Ok(())
}

/// The first attempt takes from the full channel after the second one has: they are printed in that order, and the boxes
/// are those that it leaves.
#[test]
fn attempts_are_printed_as_they_took(rt: HostRuntime) -> Result<(), Fail> {
    let report =
        "round 1\ne.pass accepted\nb.pass accepted\na.look accepted\nc.q = []\nd.q = []\nv.w = 1\n\
        a.got = 2\ndone\n";
    assert!(rt; is_reported(&rt, rt.alloc(), CELL, report)?);
    Ok(())
}
