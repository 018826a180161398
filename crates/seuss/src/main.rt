//! Runs programs of the notation: `seuss run ROUNDS 1 < PROGRAM`.
#![tactic(auto)]

use seuss_base::{FreeGate, StdSink, StdSource};
use std::process::ExitCode;
use std::rt::Env;
use std::{env, io};

/// The status where the system doesn't hand out the words of the command line.
const NO_WORDS: u8 = 8;

/// The words after the program's name.
fn words(rt: &(impl Env + AllocGlobal)) -> io::Result<Vec<String>> {
    let mut words = Vec::new(rt.alloc());
    for word in env::args(rt)?.skip(1) {
        words.push(word)?;
    }
    Ok(words)
}

fn main(rt: HostRuntime) -> ExitCode {
    let Ok(words) = words(&rt) else {
        return ExitCode::from(NO_WORDS);
    };
    let mut source = StdSource::new(rt.stdin());
    let mut sink = StdSink::new(rt.stdout());
    let alloc = rt.alloc();
    ExitCode::from(seuss_run::seuss(
        &rt,
        alloc,
        words.as_slice(),
        &mut source,
        &mut sink,
        &FreeGate,
    ))
}
