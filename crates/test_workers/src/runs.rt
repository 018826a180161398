//! Runs of a text, for tests.

use seuss_base::{Gate, List, MemorySink, MemorySource};
use seuss_run::seuss;
use std::alloc::Global;
use std::sync::Wait;
use std::test::Fail;
use std::thread::Threads;

/// What a run ends with: its status and its report.
#[derive(Drop)]
pub struct Ending {
    pub status: u8,
    pub report: String,
}

/// Runs a text for these words.
pub fn run<R: Threads + Wait + Sync, G: Gate + Sync>(
    rt: &R,
    alloc: Global,
    words: &str,
    text: &str,
    gate: &G,
) -> Result<Ending, Fail> {
    let mut list = Vec::new(alloc);
    for word in words.split_whitespace() {
        list.push(String::from_str(alloc, word)?)?;
    }
    let bytes = List::from_vec(Vec::from_slice(alloc, text.as_bytes())?);
    let mut source = MemorySource::new(bytes, 65536, List::new(alloc));
    let mut sink = MemorySink::new(alloc, 1 << 20, 65536, List::new(alloc))?;
    let status = seuss(rt, alloc, list.as_slice(), &mut source, &mut sink, gate);
    let written = Vec::from_slice(alloc, sink.written())?;
    Ok(Ending {
        status,
        report: String::from_utf8(written).map_err(|_| Fail::from("a report is text"))?,
    })
}
