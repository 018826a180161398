//! Runs the rows of a table, which comes on standard input. Each line of it is printed, and after a row
//! ` => ` and what the row ends with. `setup` says what a line is, `texts` how a text is written in it, and
//! `ending` how an end is told.
#![tactic(auto)]

mod ending;
mod refusal;
mod setup;
mod texts;

use crate::setup::Setup;
use std::io;

fn main(rt: HostRuntime) -> io::Result<()> {
    let mut setup = Setup::new(rt.alloc())?;
    for line in rt.lines(rt.alloc()) {
        let line = line?;
        if setup.takes(line.as_str())? {
            println!(rt; "{line}")?;
        } else {
            let end = setup.end_of(&rt, line.as_str())?;
            println!(rt; "{line} => {end}")?;
        }
    }
    Ok(())
}
