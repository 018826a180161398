//! A reader of std as a source, which tells no bytes: the trusted edge on the reading side.

ghost use Rattle.std.specs.Prelude.{◌≡◌, ◌<◌, ◌^◌, None};

use crate::{Failed, Source};
use std::io::Read;

/// A reader of std as a source. It tells no bytes, and counts each error of the reader as a fault.
#[derive(Drop)]
pub struct StdSource<R> {
    reader: R,
    faults: u64,
    ghost in_range: { faults < 2 ^ 64 },
}

impl<R: Read> StdSource<R> {
    /// A source over this reader, which has had no fault.
    pub fn new(reader: R) -> StdSource<R>
        ensures reader { result.reader ≡ reader }
        ensures faults { result.faults ≡ 0 }
    {
        StdSource { reader, faults: 0 }
    }
}

impl<R: Read> Source for StdSource<R> {
    ghost left = { λ _. None };

    ghost faults = { λ s. s.faults };

    fn read(&mut self, into: &mut [u8]) -> Result<usize, Failed> {
        match self.reader.read(into) {
            Ok(n) => Ok(n),
            Err(_) => {
                self.faults = self.faults.saturating_add(1);
                Err(Failed)
            }
        }
    }
}
