//! Reads the bytes of a source to their end, up to a limit.

ghost use Rattle.std.specs.Prelude.{◌≡◌, ℕ, ◌+◌, ◌<◌, ◌≤◌, List, [], ◌++◌, length, IfSome, Err, IfOk, OnOk};
ghost use Rattle.std.specs.Prelude.{OnErr};
ghost use Rattle.std.specs.Prelude.{IfErr, IsErrOf};
ghost use Rattle.seuss_base.specs.Faults.{Rose};
ghost use Rattle.seuss_run.specs.Readings.{Takes, TakesAll, TakesTooMany, TakesWithin};
ghost use Rattle.seuss_run.specs.declared.reading.ReadRefusal.TheVariants.{Memory};

use seuss_base::{Failed, List, Source};
use std::alloc::{AllocError, Global};

/// The most bytes that are read: a program and an input of 1,048,576 bytes each, and a line between them.
pub const MOST_BYTES: usize = 2_097_156;

/// How many bytes are asked for at once.
pub const PIECE: usize = 4096;

/// Why the bytes of a source were not read to their end.
#[derive(Clone, Copy, Debug, PartialEq, Eq)]
pub enum ReadRefusal {
    /// A read failed.
    Fault,
    /// More than `MOST_BYTES` bytes were taken.
    TooLong,
    Memory,
}

impl From<AllocError> for ReadRefusal {
    ghost from_gives = { λ _ e. e ≡ Memory };

    fn from(_refused: AllocError) -> ReadRefusal {
        ReadRefusal::Memory
    }
}

/// Reads one piece to the end of the bytes, and answers how long it is. 0 is the end.
fn read_piece<R: Source>(source: &mut R, bytes: &mut Vec<u8>) -> Result<usize, ReadRefusal>
    ensures ok { IfOk result
        (λ n. (piece : List ℕ) × (length piece ≡ n) × (bytes.new.items ≡ bytes.old.items ++ piece)
        × Takes (R.left source.old) (R.left source.new) piece) }
    ensures end { IfOk result (λ n. n ≡ 0 → IfSome (R.left source.old) (λ left. left ≡ [])) }
    ensures short { IfOk result (λ n. n ≤ PIECE) }
    ensures some { OnErr result (TakesWithin PIECE (R.left source.old) (R.left source.new)) }
    ensures fault { IsErrOf result ReadRefusal.Fault → Rose (R.faults source.old) (R.faults source.new) }
    ensures kept { IsErrOf result ReadRefusal.Fault → R.left source.new ≡ R.left source.old }
    ensures not_long { IsErrOf result ReadRefusal.TooLong → ⊥ }
    ensures counted { R.faults source.old ≤ R.faults source.new }
{
    let mut buffer = [0u8; PIECE];
    let n = match source.read(&mut buffer) {
        Ok(n) => n,
        Err(Failed) => return Err(ReadRefusal::Fault),
    };
    bytes.extend_from_slice(&buffer[..n])?;
    Ok(n)
}

/// Reads the bytes of a source to their end. Every turn takes at least one byte, and no more than
/// `MOST_BYTES` are answered. `TooLong` comes exactly where more than these were taken, and a fault only
/// before that.
pub fn read_all<R: Source>(alloc: Global, source: &mut R) -> Result<List<u8>, ReadRefusal>
    ensures all { IfOk result (λ bytes. TakesAll (R.left source.old) (R.left source.new) bytes) }
    ensures within { IfOk result (λ bytes. length bytes ≤ MOST_BYTES) }
    ensures too_long { IsErrOf result ReadRefusal.TooLong →
        TakesTooMany (R.left source.old) (R.left source.new) }
    ensures fault { IsErrOf result ReadRefusal.Fault → Rose (R.faults source.old) (R.faults source.new)
        × TakesWithin MOST_BYTES (R.left source.old) (R.left source.new) }
    ensures some { OnErr result
        (TakesWithin (MOST_BYTES + PIECE) (R.left source.old) (R.left source.new)) }
    ensures counted { R.faults source.old ≤ R.faults source.new }
{
    let mut bytes = Vec::new(alloc);
    while bytes.len() <= MOST_BYTES {
        if read_piece(source, &mut bytes)? == 0 {
            return Ok(List::from_vec(bytes));
        }
    }
    Err(ReadRefusal::TooLong)
}
