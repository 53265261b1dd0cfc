//! A link over a stream of the system.

ghost use Rattle.std.specs.Prelude.{◌≡◌, ◌≤◌, ◌<◌, length, take, IfNone, IfOk, IfSome, OnErr, OnOk};
ghost use Rattle.std.specs.Io.{ReadsAtMost, WritesAtMost};
ghost use Rattle.std.specs.Io.KnownBytes.{Appends, Consumes, IsAtEnd, Keeps, ReadConsumes, WriteAppends};
ghost use Rattle.dh_ports.specs.Counts.{one_more, Rose};

use dh_http::{Link, LinkError};
use std::io::{ErrorKind, Read, Write};

/// Reads once, again after each interruption. `None` where the stream fails.
fn read_through<S: Read>(stream: &mut S, into: &mut [u8]) -> Option<usize>
    ensures bound { IfSome result (λ n. n ≤ length into.new) }
    ensures taken { IfSome result (λ n. Consumes (S.remaining stream.old) (S.remaining stream.new) (take n into.new)) }
    ensures end { IfSome result (λ n. n ≡ 0 → 0 < length into.new → IsAtEnd (S.remaining stream.new)) }
    ensures kept { IfNone result (Keeps (S.remaining stream.old) (S.remaining stream.new)) }
{
    for _ in 0..u64::MAX {
        match stream.read(into) {
            Ok(n) => return Some(n),
            Err(error) if error.kind() == ErrorKind::Interrupted => {}
            Err(_) => return None,
        }
    }
    None
}

/// Writes once, again after each interruption. `None` where the stream fails, or takes nothing of a nonempty piece.
fn write_through<S: Write>(stream: &mut S, bytes: &[u8]) -> Option<usize>
    ensures bound { IfSome result (λ n. n ≤ length bytes.now) }
    ensures goes_on { IfSome result (λ n. 0 < length bytes.now → 0 < n) }
    ensures taken { IfSome result (λ n. Appends (S.contents stream.old) (S.contents stream.new) (take n bytes.now)) }
    ensures kept { IfNone result (Keeps (S.contents stream.old) (S.contents stream.new)) }
{
    for _ in 0..u64::MAX {
        match stream.write(bytes) {
            Ok(n) if n > 0 || bytes.is_empty() => return Some(n),
            Err(error) if error.kind() == ErrorKind::Interrupted => {}
            _ => return None,
        }
    }
    None
}

/// A link over a stream, which takes what is sent and gives what is received. The link itself tells nothing of either: a stream
/// may give what it took, and then a send changes what is left to receive.
#[derive(Drop)]
pub(crate) struct StreamLink<S> {
    stream: S,
    receives: u64,
    failed: u64,
}

impl<S> StreamLink<S> {
    pub(crate) fn new(stream: S) -> StreamLink<S>
        ensures { result ≡ record { stream = stream; receives = 0; failed = 0 } }
    {
        StreamLink {
            stream,
            receives: 0,
            failed: 0,
        }
    }
}

impl<S: Read + Write> Link for StreamLink<S> {
    ghost receives = { λ k. k.receives };

    ghost faults = { λ k. k.failed };

    fn send(&mut self, bytes: &[u8]) -> Result<usize, LinkError>
        ensures bound { WritesAtMost result bytes.now }
        ensures goes_on { IfOk result (λ n. 0 < length bytes.now → 0 < n) }
        ensures handed { WriteAppends (S.contents self.old.stream) (S.contents self.new.stream) result bytes.now }
        ensures receives { self.new.receives ≡ self.old.receives }
        ensures quiet { OnOk result (self.new.failed ≡ self.old.failed) }
        ensures failed { OnErr result (Rose self.old.failed self.new.failed) }
    {
        match write_through(&mut self.stream, bytes) {
            Some(n) => Ok(n),
            None => {
                self.failed = self.failed.saturating_add(1);
                Err(LinkError::Failed)
            }
        }
    }

    fn receive(&mut self, into: &mut [u8]) -> Result<usize, LinkError>
        ensures bound { ReadsAtMost result into.new }
        ensures given { ReadConsumes (S.remaining self.old.stream) (S.remaining self.new.stream) result into.new }
        ensures receives { self.new.receives ≡ one_more self.old.receives }
        ensures quiet { OnOk result (self.new.failed ≡ self.old.failed) }
        ensures failed { OnErr result (Rose self.old.failed self.new.failed) }
    {
        self.receives = self.receives.saturating_add(1);
        match read_through(&mut self.stream, into) {
            Some(n) => Ok(n),
            None => {
                self.failed = self.failed.saturating_add(1);
                Err(LinkError::Failed)
            }
        }
    }
}
