//! Texts of a table. A row is put at each `@` of a template, and `|` is a line feed. `{N:PIECE}` stands for
//! N copies of the piece, with the number of the copy, from 0, at each `#`. Then `\r` is a carriage return,
//! `\t` a tab, `\xE9` the byte of this number, and `\.` nothing.

use crate::refusal::Refusal;
use std::alloc::Global;

/// The number that a text is.
pub fn number_of(text: &str) -> Result<usize, Refusal> {
    text.parse::<usize>().ok().ok_or(Refusal::Form)
}

/// Adds the copies of the piece of `N:PIECE` to a text.
fn push_copies(alloc: Global, text: &mut String, counted: &str) -> Result<(), Refusal> {
    let (count, piece) = counted.split_once(':').ok_or(Refusal::Form)?;
    let count = number_of(count)?;
    if !piece.contains('#') {
        text.push_str(piece.repeat(alloc, count)?.as_str())?;
        return Ok(());
    }
    for number in 0..count {
        let number = format!(in alloc; "{number}")?;
        text.push_str(piece.replace(alloc, '#', number.as_str())?.as_str())?;
    }
    Ok(())
}

/// The text of a template with this row, before its backslashes are read.
pub fn filled(alloc: Global, template: &str, row: &str) -> Result<String, Refusal> {
    let whole = template.replace(alloc, '@', row)?;
    let whole = whole.as_str().replace(alloc, '|', "\n")?;
    let mut text = String::new(alloc);
    for part in whole.as_str().split('}') {
        match part.split_once('{') {
            Some((before, counted)) => {
                text.push_str(before)?;
                push_copies(alloc, &mut text, counted)?;
            }
            None => text.push_str(part)?,
        }
    }
    Ok(text)
}

/// The byte that two digits at the front of a text are, and what stands after them.
fn numbered(text: &str) -> Result<(u8, &str), Refusal> {
    let (digits, rest) = text.split_at_checked(2).ok_or(Refusal::Form)?;
    let byte = u8::from_str_radix(digits, 16).ok().ok_or(Refusal::Form)?;
    Ok((byte, rest))
}

/// Adds the bytes of what stands after a backslash.
fn push_escaped(bytes: &mut Vec<u8>, text: &str) -> Result<(), Refusal> {
    if let Some(rest) = text.strip_prefix('.') {
        bytes.extend_from_slice(rest.as_bytes())?;
        return Ok(());
    }
    let (kind, rest) = text.split_at_checked(1).ok_or(Refusal::Form)?;
    let (byte, rest) = match kind {
        "r" => (b'\r', rest),
        "t" => (b'\t', rest),
        "x" => numbered(rest)?,
        _ => return Err(Refusal::Form),
    };
    bytes.push(byte)?;
    bytes.extend_from_slice(rest.as_bytes())?;
    Ok(())
}

/// The bytes that a filled text stands for.
pub fn bytes_of(alloc: Global, text: &str) -> Result<Vec<u8>, Refusal> {
    let mut bytes = Vec::new(alloc);
    let mut pieces = text.split('\\');
    if let Some(front) = pieces.next() {
        bytes.extend_from_slice(front.as_bytes())?;
    }
    for piece in pieces {
        push_escaped(&mut bytes, piece)?;
    }
    Ok(bytes)
}

/// The words of a filled command line: one between each two spaces, and none where the line is empty.
pub fn words_of(alloc: Global, line: &str) -> Result<Vec<String>, Refusal> {
    let mut words = Vec::new(alloc);
    if line.is_empty() {
        return Ok(words);
    }
    for word in line.split(' ') {
        let bytes = bytes_of(alloc, word)?;
        words.push(String::from_utf8(bytes).ok().ok_or(Refusal::Form)?)?;
    }
    Ok(words)
}
