//! A feed in memory.

ghost use Rattle.std.specs.Prelude.{◌≡◌, ◌≤◌, ◌++◌, Some, true, false, length, min, take, drop, Contains, IsErr, IfOk, OnErr, ◌↔◌};
ghost use Rattle.dh_ports.specs.Counts.{one_more, Rose};
ghost use Rattle.dh_ports.specs.MemFeed.{HasRead, HasFailed};
ghost use Rattle.dh_ports.specs.Moves.{moved};

use crate::calls::{CallList, Calls};
use crate::feeds::{Feed, ReadError};
use crate::moves::moved;
use dh_syntax::Bytes;
use std::alloc::Global;
use std::marker::Model;

/// A feed over bytes in memory, some of whose reads may be set to fail.
#[derive(Debug)]
pub struct MemFeed {
    bytes: Bytes,
    at: usize,
    narrow: bool,
    calls: Calls,
}

// Written by hand: a derived one puts the drop of each field inline wherever one may die.
impl Drop for MemFeed {
    fn drop(self) {
        let MemFeed {
            bytes: _,
            at: _,
            narrow: _,
            calls: _,
        } = self;
    }
}

impl Model for MemFeed {
    ghost use Rattle.std.specs.Prelude.{◌≤◌, length, drop};
    ghost use Rattle.dh_ports.specs.MemFeed.{FeedState};

    ghost Value = { FeedState };

    ghost view = { λ f. record {
      left = drop f.at f.bytes;
      narrow = f.narrow;
      fails = f.calls.fails;
      calls = f.calls.made;
      faults = f.calls.failed;
    } };

    ghost invariant = { λ f. f.at ≤ length f.bytes };
}

impl MemFeed {
    /// A feed of these bytes, whose calls fail that `fails` lists. It takes no memory.
    pub fn new(_alloc: Global, bytes: Bytes, fails: CallList) -> MemFeed
        ensures left { result.left ≡ bytes }
        ensures narrow { result.narrow ≡ false }
        ensures fails { result.fails ≡ fails }
        ensures no_call { result.calls ≡ 0 }
        ensures no_fault { result.faults ≡ 0 }
    {
        MemFeed {
            bytes,
            at: 0,
            narrow: false,
            calls: Calls::new(fails),
        }
    }

    /// A feed of these bytes of which a call gives at most one byte, and those fail that `fails` lists. It takes no memory.
    pub fn narrow(_alloc: Global, bytes: Bytes, fails: CallList) -> MemFeed
        ensures left { result.left ≡ bytes }
        ensures narrow { result.narrow ≡ true }
        ensures fails { result.fails ≡ fails }
        ensures no_call { result.calls ≡ 0 }
        ensures no_fault { result.faults ≡ 0 }
    {
        MemFeed {
            bytes,
            at: 0,
            narrow: true,
            calls: Calls::new(fails),
        }
    }

    /// How many reads have failed. It stands still at `u64::MAX`.
    pub fn fault_count(&self) -> u64
        ensures { result ≡ self.now.faults }
    {
        self.calls.failed
    }
}

impl Feed for MemFeed {
    ghost left = { λ f. Some f.left };

    ghost faults = { λ f. f.faults };

    /// Fails exactly where the number of this call is listed, and else gives as many bytes as fit, but one at most where the
    /// feed is narrow.
    fn read(&mut self, into: &mut [u8]) -> Result<usize, ReadError>
        ensures fails { IsErr result ↔ Contains self.old.fails (one_more self.old.calls) }
        ensures count { IfOk result (λ n. n ≡ moved self.old.narrow (min (length into.old) (length self.old.left))) }
        ensures given { IfOk result (λ n. into.new ≡ take n self.old.left ++ drop n into.old) }
        ensures rest { IfOk result (λ n. HasRead self.old self.new n) }
        ensures err { OnErr result (HasFailed self.old self.new) }
        ensures counted { self.old.faults ≤ self.new.faults }
        ensures failed { OnErr result (Rose self.old.faults self.new.faults) }
        ensures nothing_given { OnErr result (into.new ≡ into.old) }
    {
        if self.calls.next_fails() {
            self.calls.count_failure();
            return Err(ReadError::Failed);
        }
        let left = &self.bytes.as_slice()[self.at..];
        let count = moved(self.narrow, left.len().min(into.len()));
        into[..count].copy_from_slice(&left[..count]);
        self.at += count;
        Ok(count)
    }
}

#[cfg(test)]
mod tests {
    use super::*;
    use dh_syntax::Many;
    use std::test::Fail;

    fn read<F: Feed>(feed: &mut F, into: &mut [u8]) -> Result<usize, ReadError> {
        feed.read(into)
    }

    #[test]
    fn reads_in_pieces_to_the_end(rt: HostRuntime) -> Result<(), Fail> {
        let bytes = Bytes::of([1, 2, 3, 4, 5].to_vec(rt.alloc())?);
        let mut feed = MemFeed::new(rt.alloc(), bytes, Many::new(rt.alloc()));
        for (count, want) in [(2, [1, 2]), (2, [3, 4]), (1, [5, 0]), (0, [0, 0])] {
            let mut into = [0; 2];
            assert_eq!(rt; read(&mut feed, &mut into), Ok(count));
            assert_eq!(rt; into, want);
        }
        assert_eq!(rt; feed.fault_count(), 0);
        Ok(())
    }

    #[test]
    fn a_narrow_one_gives_one_byte_a_call(rt: HostRuntime) -> Result<(), Fail> {
        let bytes = Bytes::of([1, 2].to_vec(rt.alloc())?);
        let fails = Many::of([2].to_vec(rt.alloc())?);
        let mut feed = MemFeed::narrow(rt.alloc(), bytes, fails);
        assert_eq!(rt; read(&mut feed, &mut []), Ok(0));
        let failed = Err(ReadError::Failed);
        for (answer, want) in [
            (failed, [0, 0]),
            (Ok(1), [1, 0]),
            (Ok(1), [2, 0]),
            (Ok(0), [0, 0]),
        ] {
            let mut into = [0; 2];
            assert_eq!(rt; read(&mut feed, &mut into), answer);
            assert_eq!(rt; into, want);
        }
        assert_eq!(rt; feed.fault_count(), 1);
        Ok(())
    }

    #[test]
    fn goes_on_after_the_second_read_failed(rt: HostRuntime) -> Result<(), Fail> {
        let bytes = Bytes::of([1, 2, 3].to_vec(rt.alloc())?);
        let fails = Many::of([2].to_vec(rt.alloc())?);
        let mut feed = MemFeed::new(rt.alloc(), bytes, fails);
        let failed = Err(ReadError::Failed);
        for (answer, want) in [(Ok(2), [1, 2]), (failed, [0, 0]), (Ok(1), [3, 0])] {
            let mut into = [0; 2];
            assert_eq!(rt; read(&mut feed, &mut into), answer);
            assert_eq!(rt; into, want);
        }
        assert_eq!(rt; feed.fault_count(), 1);
        Ok(())
    }
}
