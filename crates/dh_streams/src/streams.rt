//! The standard streams as a feed and as sinks: interrupted calls are made again, failed ones are counted.

ghost use Rattle.std.specs.Prelude.{◌≡◌, ℕ, ◌≤◌, ◌<◌, length, take, IfNone, IfSome};
ghost use Rattle.std.specs.Io.KnownBytes.{Appends, Consumes, IsAtEnd, Keeps};

use dh_ports::{Feed, ReadError, Sink, WriteError};
use std::io::{ErrorKind, Read, Write};

/// Reads once, again after each interruption. `None` where the reader fails.
fn read_through<R: Read>(reader: &mut R, into: &mut [u8]) -> Option<usize>
    ensures bound { IfSome result (λ n. n ≤ length into.new) }
    ensures taken { IfSome result (λ n. Consumes (R.remaining reader.old) (R.remaining reader.new) (take n into.new)) }
    ensures end { IfSome result (λ n. n ≡ 0 → 0 < length into.new → IsAtEnd (R.remaining reader.new)) }
    ensures kept { IfNone result (Keeps (R.remaining reader.old) (R.remaining reader.new)) }
{
    for _ in 0..u64::MAX {
        match reader.read(into) {
            Ok(n) => return Some(n),
            Err(error) if error.kind() == ErrorKind::Interrupted => {}
            Err(_) => return None,
        }
    }
    None
}

/// Writes once, again after each interruption. `None` where the writer fails, or takes nothing of a nonempty piece.
fn write_through<W: Write>(writer: &mut W, bytes: &[u8]) -> Option<usize>
    ensures bound { IfSome result (λ n. n ≤ length bytes.now) }
    ensures goes_on { IfSome result (λ n. 0 < length bytes.now → 0 < n) }
    ensures taken { IfSome result (λ n. Appends (W.contents writer.old) (W.contents writer.new) (take n bytes.now)) }
    ensures kept { IfNone result (Keeps (W.contents writer.old) (W.contents writer.new)) }
{
    for _ in 0..u64::MAX {
        match writer.write(bytes) {
            Ok(n) if n > 0 || bytes.is_empty() => return Some(n),
            Err(error) if error.kind() == ErrorKind::Interrupted => {}
            _ => return None,
        }
    }
    None
}

/// A feed over a reader. What it has left is what the reader has, where the reader tells; those of the system do not.
#[derive(Drop)]
pub struct Source<R> {
    reader: R,
    failed: u64,
}

impl<R> Source<R> {
    /// A feed over this reader, of which no read has failed.
    pub fn new(reader: R) -> Source<R>
        ensures { result ≡ record { reader = reader; failed = 0 } }
    {
        Source { reader, failed: 0 }
    }
}

impl<R: Read> Feed for Source<R> {
    ghost left = { λ s. R.remaining s.reader };

    ghost faults = { λ s. s.failed };

    fn read(&mut self, into: &mut [u8]) -> Result<usize, ReadError> {
        match read_through(&mut self.reader, into) {
            Some(n) => Ok(n),
            None => {
                self.failed = self.failed.saturating_add(1);
                Err(ReadError::Failed)
            }
        }
    }
}

/// A sink over a writer. What was written is what the writer holds, where the writer tells; those of the system do not.
#[derive(Drop)]
pub struct Target<W> {
    writer: W,
    failed: u64,
}

impl<W> Target<W> {
    /// A sink over this writer, of which no write has failed.
    pub fn new(writer: W) -> Target<W>
        ensures { result ≡ record { writer = writer; failed = 0 } }
    {
        Target { writer, failed: 0 }
    }
}

impl<W: Write> Sink for Target<W> {
    ghost written = { λ t. W.contents t.writer };

    ghost faults = { λ t. t.failed };

    fn write(&mut self, bytes: &[u8]) -> Result<usize, WriteError> {
        match write_through(&mut self.writer, bytes) {
            Some(n) => Ok(n),
            None => {
                self.failed = self.failed.saturating_add(1);
                Err(WriteError::Failed)
            }
        }
    }
}
