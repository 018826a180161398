//! Tests of lists, texts, tables, and of sources and sinks with their faults.

use super::*;
use std::alloc::{AllocError, Global};
use std::io;
use std::io::{ErrorKind, Read, Write};
use std::test::Fail;

/// A list of these numbers.
fn list_of(alloc: Global, items: &[u64]) -> Result<List<u64>, AllocError> {
    Ok(List::from_vec(Vec::from_slice(alloc, items)?))
}

/// A list of these bytes.
fn bytes_of(alloc: Global, items: &[u8]) -> Result<List<u8>, AllocError> {
    Ok(List::from_vec(Vec::from_slice(alloc, items)?))
}

/// A reader and writer that fails each time.
#[derive(Drop)]
struct Broken;

impl Read for Broken {
    fn read(&mut self, _buf: &mut [u8]) -> io::Result<usize> {
        Err(io::Error::from(ErrorKind::Other))
    }
}

impl Write for Broken {
    fn write(&mut self, _buf: &[u8]) -> io::Result<usize> {
        Err(io::Error::from(ErrorKind::Other))
    }

    fn flush(&mut self) -> io::Result<()> {
        Ok(())
    }
}

#[test]
fn lists_and_texts(rt: HostRuntime) -> Result<(), Fail> {
    let mut list = List::new(rt.alloc());
    list.push(7u64)?;
    list.push(8u64)?;
    list.set(0, 6);
    assert_eq!(rt; list.len(), 2);
    assert_eq!(rt; list.get(0).copied(), Some(6));
    assert_eq!(rt; list.get(2).copied(), None);
    assert_eq!(rt; list.pop(), Some(8));
    assert_eq!(rt; list.into_vec().as_slice(), [6].as_slice());

    let mut text = Text::from_slice(rt.alloc(), b"ab")?;
    text.push(b'c')?;
    text.push_all(b"de")?;
    assert_eq!(rt; text.copy(rt.alloc())?.as_bytes(), b"abcde".as_slice());
    assert_eq!(rt; Box::new(rt.alloc(), 5u64)?.into_inner(), 5);
    Ok(())
}

#[test]
fn numbers_and_tables(rt: HostRuntime) -> Result<(), Fail> {
    let mut ints = Ints::new(rt.alloc());
    for x in [-1, 2, 3] {
        ints.push(x)?;
    }
    let mut copied = ints.copy(rt.alloc())?;
    assert_eq!(rt; copied.remove_first(), Some(-1));
    assert_eq!(rt; copied.remove_last(), Some(3));
    assert_eq!(rt; copied.get(0), Some(2));
    assert_eq!(rt; copied.len(), 1);
    assert_eq!(rt; ints.len(), 3);

    let mut rows = CompatRows::new(rt.alloc(), 2)?;
    if rows.count() == 2 {
        rows.set(0, 1, Level::Firm);
    }
    let rows = rows.copy(rt.alloc())?;
    if rows.count() == 2 {
        assert_eq!(rt; rows.level(0, 1), Level::Firm);
        assert_eq!(rt; rows.level(1, 0), Level::Never);
    }
    FreeGate.before(0, 0, 0);
    Ok(())
}

#[test]
fn sources_and_sinks_in_memory(rt: HostRuntime) -> Result<(), Fail> {
    let failing = list_of(rt.alloc(), &[2])?;
    let mut source = MemorySource::new(bytes_of(rt.alloc(), b"abc")?, 2, failing);
    let mut buffer = [0u8; 8];
    assert_eq!(rt; source.read(&mut buffer), Ok(2));
    assert_eq!(rt; source.read(&mut buffer), Err(Failed));
    assert_eq!(rt; source.read(&mut buffer), Ok(1));
    assert_eq!(rt; buffer[0], b'c');
    assert_eq!(rt; source.read(&mut buffer), Ok(0));

    let failing = list_of(rt.alloc(), &[2])?;
    let mut sink = MemorySink::new(rt.alloc(), 3, 2, failing)?;
    assert_eq!(rt; sink.write(b"abc"), Ok(2));
    assert_eq!(rt; sink.write(b"abc"), Err(Failed));
    assert_eq!(rt; sink.write(b"cd"), Ok(1));
    assert_eq!(rt; sink.write(b"e"), Err(Failed));
    assert_eq!(rt; sink.written(), b"abc".as_slice());
    Ok(())
}

#[test]
fn sources_and_sinks_of_std(rt: HostRuntime) {
    let mut buffer = [0u8; 8];
    let bytes: &[u8] = b"abc";
    let mut source = StdSource::new(bytes);
    assert_eq!(rt; source.read(&mut buffer), Ok(3));
    assert_eq!(rt; source.read(&mut buffer), Ok(0));
    assert_eq!(rt; StdSource::new(Broken).read(&mut buffer), Err(Failed));

    let mut sink = StdSink::new(Vec::new(rt.alloc()));
    assert_eq!(rt; sink.write(b"abc"), Ok(3));
    assert_eq!(rt; StdSink::new(Broken).write(b"abc"), Err(Failed));
}
