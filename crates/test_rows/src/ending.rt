//! How a command ended, and how that is told in a row.

use std::alloc::{AllocError, Global};
use std::str;

/// The most bytes of a text that are told whole.
const MOST_TOLD: usize = 2000;

/// How many bytes are told of each end of a longer text.
const END_TOLD: usize = 100;

/// How a command ended.
#[derive(Drop)]
pub struct Ending {
    pub status: u8,
    pub written: Vec<u8>,
    /// How many bytes were not read.
    pub unread: usize,
}

/// A text with `|` for each line feed.
fn barred(alloc: Global, bytes: &[u8]) -> Result<String, AllocError> {
    match str::from_utf8(bytes) {
        Ok(text) => text.replace(alloc, '\n', "|"),
        Err(_) => String::from_str(alloc, "bytes that are no text"),
    }
}

/// A text, or the length and both ends of a long one.
fn shortened(alloc: Global, bytes: &[u8]) -> Result<String, AllocError> {
    let length = bytes.len();
    if length <= MOST_TOLD {
        return barred(alloc, bytes);
    }
    let first = barred(alloc, bytes.get(..END_TOLD).unwrap_or(bytes))?;
    let last = bytes
        .get(length.saturating_sub(END_TOLD)..)
        .unwrap_or(bytes);
    let last = barred(alloc, last)?;
    format!(in alloc; "{length} bytes: {first} .. {last}")
}

impl Ending {
    /// The status, the text, and how many bytes were not read, where some were not.
    pub fn told(&self, alloc: Global) -> Result<String, AllocError> {
        let Ending {
            status,
            written,
            unread,
        } = self;
        let text = shortened(alloc, written.as_slice())?;
        if *unread == 0 {
            return format!(in alloc; "{status} {text}");
        }
        format!(in alloc; "{status} {text} ({unread} bytes unread)")
    }
}
