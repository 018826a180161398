//! Writes a whole text to a sink.

ghost use Rattle.std.specs.Prelude.{◌≡◌, ◌≤◌, OnOk, OnErr};
ghost use Rattle.seuss_base.specs.Faults.{Rose};
ghost use Rattle.seuss_base.specs.Sinks.{Adds};
ghost use Rattle.seuss_run.specs.Writings.{AddsFront};

use seuss_base::{Failed, Sink};

/// Writes all of the bytes, in as many pieces as the sink takes. Where a write fails, a front of them
/// was written.
pub fn write_all<W: Sink>(sink: &mut W, bytes: &[u8]) -> Result<(), Failed>
    ensures all { OnOk result (Adds (W.written sink.old) (W.written sink.new) bytes.now) }
    ensures front { OnErr result (AddsFront (W.written sink.old) (W.written sink.new) bytes.now) }
    ensures failed { OnErr result (Rose (W.faults sink.old) (W.faults sink.new)) }
    ensures counted { W.faults sink.old ≤ W.faults sink.new }
{
    let mut rest = bytes;
    while !rest.is_empty() {
        let n = sink.write(rest)?;
        rest = rest.split_at(n).1;
    }
    Ok(())
}
