//! A sink in memory.

ghost use Rattle.std.specs.Prelude.{◌≡◌, [], ◌<◌, ◌≤◌, length, take, Some, true, false, Contains, IsErr, IfOk, OnErr, ◌⊎◌};
ghost use Rattle.dh_ports.specs.Counts.{one_more, Rose};
ghost use Rattle.dh_ports.specs.MemSink.{HasWritten, HasFailed};
ghost use Rattle.dh_ports.specs.Moves.{moved};

use crate::calls::{CallList, Calls};
use crate::moves::moved;
use crate::sinks::{Sink, WriteError};
use std::alloc::Global;
use std::marker::Model;

/// A sink that keeps in memory what it takes, some of whose writes may be set to fail.
#[derive(Debug)]
pub struct MemSink {
    bytes: Vec<u8>,
    narrow: bool,
    calls: Calls,
}

// Written by hand: a derived one puts the drop of each field inline wherever one may die.
impl Drop for MemSink {
    fn drop(self) {
        let MemSink {
            bytes: _,
            narrow: _,
            calls: _,
        } = self;
    }
}

impl Model for MemSink {
    ghost use Rattle.dh_ports.specs.MemSink.{SinkState};

    ghost Value = { SinkState };

    ghost view = { λ s. record {
      written = s.bytes.items;
      narrow = s.narrow;
      fails = s.calls.fails;
      calls = s.calls.made;
      faults = s.calls.failed;
    } };
}

impl MemSink {
    /// An empty sink, whose calls fail that `fails` lists. It takes no memory.
    pub fn new(alloc: Global, fails: CallList) -> MemSink
        ensures written { result.written ≡ [] }
        ensures narrow { result.narrow ≡ false }
        ensures fails { result.fails ≡ fails }
        ensures no_call { result.calls ≡ 0 }
        ensures no_fault { result.faults ≡ 0 }
    {
        MemSink {
            bytes: Vec::new(alloc),
            narrow: false,
            calls: Calls::new(fails),
        }
    }

    /// An empty sink of which a call takes at most one byte, and those fail that `fails` lists. It takes no memory.
    pub fn narrow(alloc: Global, fails: CallList) -> MemSink
        ensures written { result.written ≡ [] }
        ensures narrow { result.narrow ≡ true }
        ensures fails { result.fails ≡ fails }
        ensures no_call { result.calls ≡ 0 }
        ensures no_fault { result.faults ≡ 0 }
    {
        MemSink {
            bytes: Vec::new(alloc),
            narrow: true,
            calls: Calls::new(fails),
        }
    }

    /// What was written so far.
    pub fn written_bytes(&self) -> &[u8]
        ensures { result.now ≡ self.now.written }
    {
        self.bytes.as_slice()
    }

    /// How many writes have failed. It stands still at `u64::MAX`.
    pub fn fault_count(&self) -> u64
        ensures { result ≡ self.now.faults }
    {
        self.calls.failed
    }
}

impl Sink for MemSink {
    ghost written = { λ s. Some s.written };

    ghost faults = { λ s. s.faults };

    /// Fails where the number of this call is listed, or where memory is wanting to keep the bytes, and else takes
    /// the whole piece, but one byte at most where the sink is narrow.
    fn write(&mut self, bytes: &[u8]) -> Result<usize, WriteError>
        ensures fails { Contains self.old.fails (one_more self.old.calls) → IsErr result }
        // Memory can only be wanting for a piece that has bytes.
        ensures fails_only { OnErr result
            (Contains self.old.fails (one_more self.old.calls) ⊎ (0 < length bytes.now)) }
        ensures count { IfOk result (λ n. n ≡ moved self.old.narrow (length bytes.now)) }
        ensures taken { IfOk result (λ n. HasWritten self.old self.new (take n bytes.now)) }
        ensures err { OnErr result (HasFailed self.old self.new) }
        ensures counted { self.old.faults ≤ self.new.faults }
        ensures failed { OnErr result (Rose self.old.faults self.new.faults) }
    {
        let count = moved(self.narrow, bytes.len());
        let front = &bytes[..count];
        if self.calls.next_fails() || self.bytes.extend_from_slice(front).is_err() {
            self.calls.count_failure();
            return Err(WriteError::Failed);
        }
        Ok(count)
    }
}

#[cfg(test)]
mod tests {
    use super::*;
    use dh_syntax::Many;
    use std::test::Fail;

    fn write<S: Sink>(sink: &mut S, bytes: &[u8]) -> Result<usize, WriteError> {
        sink.write(bytes)
    }

    #[test]
    fn goes_on_after_the_first_write_failed(rt: HostRuntime) -> Result<(), Fail> {
        let fails = Many::of([1].to_vec(rt.alloc())?);
        let mut sink = MemSink::new(rt.alloc(), fails);
        assert_eq!(rt; write(&mut sink, &[1, 2]), Err(WriteError::Failed));
        assert_eq!(rt; write(&mut sink, &[3, 4]), Ok(2));
        assert_eq!(rt; write(&mut sink, &[5]), Ok(1));
        assert_eq!(rt; sink.written_bytes(), [3, 4, 5].as_slice());
        assert_eq!(rt; sink.fault_count(), 1);
        Ok(())
    }

    #[test]
    fn a_narrow_one_takes_one_byte_a_call(rt: HostRuntime) -> Result<(), Fail> {
        let fails = Many::of([3].to_vec(rt.alloc())?);
        let mut sink = MemSink::narrow(rt.alloc(), fails);
        assert_eq!(rt; write(&mut sink, &[1, 2]), Ok(1));
        assert_eq!(rt; write(&mut sink, &[]), Ok(0));
        assert_eq!(rt; write(&mut sink, &[2, 3]), Err(WriteError::Failed));
        assert_eq!(rt; write(&mut sink, &[2, 3]), Ok(1));
        assert_eq!(rt; sink.written_bytes(), [1, 2].as_slice());
        assert_eq!(rt; sink.fault_count(), 1);
        Ok(())
    }

    #[test]
    fn takes_a_large_piece_and_many_small_ones(rt: HostRuntime) -> Result<(), Fail> {
        let mut sink = MemSink::new(rt.alloc(), Many::new(rt.alloc()));
        let large = vec![in rt.alloc(); 7; 1_048_576]?;
        assert_eq!(rt; write(&mut sink, large.as_slice()), Ok(1_048_576));
        for _ in 0..1_000 {
            assert_eq!(rt; write(&mut sink, &[8]), Ok(1));
        }
        assert_eq!(rt; sink.written_bytes().len(), 1_049_576);
        assert_eq!(rt; sink.fault_count(), 0);
        Ok(())
    }
}
