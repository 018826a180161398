//! Lines of a table. Each line is a row but these, which say what the next rows are run with:
//!
//! - a blank line, and a comment, which begins with `#`;
//! - `== HEADING` sets everything back;
//! - `frame TEXT` is the text of each row, which stands at its `@`; a line `frame` alone begins a frame of
//!   several lines, which a line `end frame` ends;
//! - `do WORDS` is the command line; with `twice WORDS` it is run again on what it wrote;
//! - `cut N` cuts the text after its first N bytes;
//! - `reads N fail CALL ..` says how many bytes a read gives at the most, and which reads fail, from 1;
//! - `writes N fail CALL ..` says the same of writes;
//! - `capacity N` is how many bytes can be written.
//!
//! A row is put at each `@` of the words, and of what is said of the cut, reads and writes, too.

use crate::ending::Ending;
use crate::refusal::Refusal;
use crate::texts::{bytes_of, filled, number_of, words_of};
use seuss_base::{FreeGate, List, MemorySink, MemorySource};
use seuss_run::{read_all, seuss};
use std::alloc::{AllocError, Global};
use std::sync::Wait;
use std::thread::Threads;

/// What the rows are run with.
#[derive(Drop)]
pub struct Setup {
    alloc: Global,
    /// The text, with `@` for the row.
    frame: String,
    /// The frame isn't ended yet.
    is_open: bool,
    words: String,
    /// The command is run again on what it wrote.
    is_twice: bool,
    /// How many bytes of the text are kept, or nothing.
    cut: String,
    reads: String,
    writes: String,
    capacity: String,
}

/// How many bytes are moved by a call at the most, and the calls that fail.
fn calls_of(alloc: Global, calls: &str) -> Result<(usize, List<u64>), Refusal> {
    let mut failing = List::new(alloc);
    let (piece, numbers) = calls.split_once(" fail ").unwrap_or((calls, ""));
    for number in numbers.split_whitespace() {
        failing.push(number_of(number)? as u64)?;
    }
    Ok((number_of(piece)?, failing))
}

impl Setup {
    /// What rows are run with after a heading.
    pub fn new(alloc: Global) -> Result<Setup, AllocError> {
        Ok(Setup {
            alloc,
            frame: String::from_str(alloc, "@")?,
            is_open: false,
            words: String::from_str(alloc, "check")?,
            is_twice: false,
            cut: String::new(alloc),
            reads: String::from_str(alloc, "4096")?,
            writes: String::from_str(alloc, "4096")?,
            capacity: String::from_str(alloc, "100000")?,
        })
    }

    /// Adds a line to the frame that is open.
    fn takes_inner(&mut self, line: &str) -> Result<(), AllocError> {
        if line == "end frame" {
            self.is_open = false;
        } else {
            self.frame.push_str(line)?;
            self.frame.push('\n')?;
        }
        Ok(())
    }

    /// Does what a line says that is no row. False is answered for a row.
    pub fn takes(&mut self, line: &str) -> Result<bool, AllocError> {
        if self.is_open {
            self.takes_inner(line)?;
            return Ok(true);
        }
        if line.is_empty() || line.starts_with('#') {
            return Ok(true);
        }
        let (name, value) = line.split_once(' ').unwrap_or((line, ""));
        let value = String::from_str(self.alloc, value)?;
        match name {
            "==" => *self = Setup::new(self.alloc)?,
            "frame" => {
                self.is_open = value.is_empty();
                self.frame = value;
            }
            "do" | "twice" => {
                self.is_twice = name == "twice";
                self.words = value;
            }
            "cut" => self.cut = value,
            "reads" => self.reads = value,
            "writes" => self.writes = value,
            "capacity" => self.capacity = value,
            _ => return Ok(false),
        }
        Ok(true)
    }

    /// The text of a row.
    fn text_of(&self, row: &str) -> Result<Vec<u8>, Refusal> {
        let alloc = self.alloc;
        let text = bytes_of(alloc, filled(alloc, self.frame.as_str(), row)?.as_str())?;
        if self.cut.is_empty() {
            return Ok(text);
        }
        let cut = number_of(filled(alloc, self.cut.as_str(), row)?.as_str())?;
        let front = text.as_slice().get(..cut).ok_or(Refusal::Form)?;
        Ok(Vec::from_slice(alloc, front)?)
    }

    /// Runs the words of a row over a text.
    fn run<H: Threads + Wait + Sync>(
        &self,
        rt: &H,
        row: &str,
        text: Vec<u8>,
    ) -> Result<Ending, Refusal> {
        let alloc = self.alloc;
        let words = words_of(alloc, filled(alloc, self.words.as_str(), row)?.as_str())?;
        let (piece, failing) = calls_of(alloc, filled(alloc, self.reads.as_str(), row)?.as_str())?;
        let mut source = MemorySource::new(List::from_vec(text), piece.max(1), failing);
        let (piece, failing) = calls_of(alloc, filled(alloc, self.writes.as_str(), row)?.as_str())?;
        let capacity = number_of(self.capacity.as_str())?;
        let mut sink = MemorySink::new(alloc, capacity, piece.max(1), failing)?;
        let words = words.as_slice();
        let status = seuss(rt, alloc, words, &mut source, &mut sink, &FreeGate);
        Ok(Ending {
            status,
            written: Vec::from_slice(alloc, sink.written())?,
            unread: read_all(alloc, &mut source).map_or(0, |left| left.as_slice().len()),
        })
    }

    /// What a row ends with.
    fn told<H: Threads + Wait + Sync>(&self, rt: &H, row: &str) -> Result<String, Refusal> {
        let first = self.run(rt, row, self.text_of(row)?)?;
        let mut told = first.told(self.alloc)?;
        if self.is_twice && first.status == 0 {
            let second = self.run(rt, row, first.written)?.told(self.alloc)?;
            if second == told {
                told.push_str(" and the same again")?;
            } else {
                told.push_str(" and again ")?;
                told.push_str(second.as_str())?;
            }
        }
        Ok(told)
    }

    /// What is printed after a row.
    pub fn end_of<H: Threads + Wait + Sync>(
        &self,
        rt: &H,
        row: &str,
    ) -> Result<String, AllocError> {
        match self.told(rt, row) {
            Ok(told) => Ok(told),
            Err(Refusal::Form) => String::from_str(self.alloc, "no row"),
            Err(Refusal::Memory) => String::from_str(self.alloc, "no memory"),
        }
    }
}
