//! A link in memory.

ghost use Rattle.std.specs.Prelude.{◌≡◌, [], ◌<◌, ◌++◌, length, min, take, drop, Some, Contains, IsErr, IsTrue, IfOk, OnOk, OnErr, ◌↔◌, ◌⊎◌};
ghost use Rattle.dh_ports.specs.Counts.{one_more, Rose};
ghost use Rattle.dh_http.specs.MemLink.{HasSent, HasReceived, HasNotSent, HasNotReceived};

use crate::links::{Link, LinkError};
use dh_ports::CallList;
use dh_syntax::Bytes;
use std::alloc::Global;
use std::marker::Model;

/// A link over a stream in memory, some of whose calls may be set to fail.
#[derive(Debug)]
pub struct MemLink {
    stream: Bytes,
    at: usize,
    most: usize,
    sent: Vec<u8>,
    fails: CallList,
    calls: u64,
    receives: u64,
    faults: u64,
}

// Written by hand: a derived one puts the drop of each field inline wherever one may die.
impl Drop for MemLink {
    fn drop(self) {
        let MemLink {
            stream: _,
            at: _,
            most: _,
            sent: _,
            fails: _,
            calls: _,
            receives: _,
            faults: _,
        } = self;
    }
}

impl Model for MemLink {
    ghost use Rattle.std.specs.Prelude.{◌<◌, ◌≤◌, length, drop};
    ghost use Rattle.dh_http.specs.MemLink.{LinkState};

    ghost Value = { LinkState };

    ghost view = { λ k. record {
      sent = k.sent.items;
      left = drop k.at k.stream;
      most = k.most;
      fails = k.fails;
      calls = k.calls;
      receives = k.receives;
      faults = k.faults;
    } };

    ghost invariant = { λ k. (k.at ≤ length k.stream) × (0 < k.most) };
}

impl MemLink {
    /// A link that gives this stream, and whose calls fail that `fails` lists: sends and receives are counted together. It
    /// takes no memory.
    pub fn new(alloc: Global, stream: Bytes, fails: CallList) -> MemLink
        ensures { result ≡ record { sent = []; left = stream; most = 0xFFFF_FFFF; fails = fails; calls = 0; receives = 0; faults = 0 } }
    {
        MemLink::in_pieces(alloc, stream, fails, 0xFFFF_FFFF)
    }

    /// A link that gives this stream a byte at a time, takes a byte at a time, and whose calls fail that `fails` lists. It takes
    /// no memory.
    pub fn narrow(alloc: Global, stream: Bytes, fails: CallList) -> MemLink
        ensures { result ≡ record { sent = []; left = stream; most = 1; fails = fails; calls = 0; receives = 0; faults = 0 } }
    {
        MemLink::in_pieces(alloc, stream, fails, 1)
    }

    /// A link that gives this stream, at most so many bytes at a time, takes at most as many, and whose calls fail that `fails`
    /// lists. It takes no memory.
    pub fn in_pieces(alloc: Global, stream: Bytes, fails: CallList, most: usize) -> MemLink
        requires { 0 < most }
        ensures { result ≡ record { sent = []; left = stream; most = most; fails = fails; calls = 0; receives = 0; faults = 0 } }
    {
        MemLink {
            stream,
            at: 0,
            most,
            sent: Vec::new(alloc),
            fails,
            calls: 0,
            receives: 0,
            faults: 0,
        }
    }

    /// What was sent so far.
    pub fn sent_bytes(&self) -> &[u8]
        ensures { result.now ≡ self.now.sent }
    {
        self.sent.as_slice()
    }

    /// What is left to receive.
    pub fn left_bytes(&self) -> &[u8]
        ensures { result.now ≡ self.now.left }
    {
        &self.stream.as_slice()[self.at..]
    }

    /// How often it was asked for bytes. It stands still at `u64::MAX`.
    pub fn receive_count(&self) -> u64
        ensures { result ≡ self.now.receives }
    {
        self.receives
    }

    /// How many calls have failed. It stands still at `u64::MAX`.
    pub fn fault_count(&self) -> u64
        ensures { result ≡ self.now.faults }
    {
        self.faults
    }

    /// Counts one more call, and tells whether it is to fail.
    fn next_fails(&mut self) -> bool
        ensures listed { IsTrue result ↔ Contains self.old.fails (one_more self.old.calls) }
        ensures counted { self.new ≡ record self.old { calls = one_more self.old.calls } }
    {
        self.calls = self.calls.saturating_add(1);
        self.fails.as_slice().contains(&self.calls)
    }
}

impl Link for MemLink {
    ghost sent = { λ k. Some k.sent };

    ghost left = { λ k. Some k.left };

    ghost receives = { λ k. k.receives };

    ghost faults = { λ k. k.faults };

    /// Fails where the number of this call is listed, or where memory is wanting to keep the piece, and else takes as many
    /// bytes as it takes at once.
    fn send(&mut self, bytes: &[u8]) -> Result<usize, LinkError>
        ensures fails { Contains self.old.fails (one_more self.old.calls) → IsErr result }
        ensures fails_only { OnErr result
            (Contains self.old.fails (one_more self.old.calls) ⊎ (0 < length bytes.now)) }
        ensures count { IfOk result (λ n. n ≡ min (length bytes.now) self.old.most) }
        ensures goes_on { IfOk result (λ n. 0 < length bytes.now → 0 < n) }
        ensures taken { IfOk result (λ n. HasSent self.old self.new (take n bytes.now)) }
        ensures err { OnErr result (HasNotSent self.old self.new) }
        ensures failed { OnErr result (Rose self.old.faults self.new.faults) }
    {
        let count = bytes.len().min(self.most);
        if self.next_fails() || self.sent.extend_from_slice(&bytes[..count]).is_err() {
            self.faults = self.faults.saturating_add(1);
            return Err(LinkError::Failed);
        }
        Ok(count)
    }

    /// Fails exactly where the number of this call is listed, and else gives as many bytes as fit, or as it gives at once.
    fn receive(&mut self, into: &mut [u8]) -> Result<usize, LinkError>
        ensures fails { IsErr result ↔ Contains self.old.fails (one_more self.old.calls) }
        ensures count { IfOk result (λ n. n ≡ min (min (length self.old.left) (length into.old)) self.old.most) }
        ensures end { IfOk result (λ n. n ≡ 0 → 0 < length into.new → self.new.left ≡ []) }
        ensures given { IfOk result (λ n. into.new ≡ take n self.old.left ++ drop n into.old) }
        ensures rest { IfOk result (λ n. HasReceived self.old self.new n) }
        ensures err { OnErr result (HasNotReceived self.old self.new) }
        ensures failed { OnErr result (Rose self.old.faults self.new.faults) }
        ensures nothing_given { OnErr result (into.new ≡ into.old) }
    {
        self.receives = self.receives.saturating_add(1);
        if self.next_fails() {
            self.faults = self.faults.saturating_add(1);
            return Err(LinkError::Failed);
        }
        let left = &self.stream.as_slice()[self.at..];
        let count = left.len().min(into.len()).min(self.most);
        into[..count].copy_from_slice(&left[..count]);
        self.at += count;
        Ok(count)
    }
}
