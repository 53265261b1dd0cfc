//! What was received and not read yet.

ghost use Rattle.std.specs.Prelude.{◌≡◌, ◌<◌, ◌≤◌, ◌++◌, [], true, false, ℕ, take, drop, length, vec_len, OnOk, OnErr, IfOk, min};
ghost use Rattle.dh_ports.specs.Counts.{Rose};
ghost use Rattle.dh_http.specs.Reading.{Fits, place, Stopped, Filled, Awaited, TakesSome, TakesAll, TakesByte, Grown};
ghost use Rattle.dh_http.specs.Bodies.{most_line};

use crate::links::{GetError, Link};
use std::alloc::{AllocError, Global};
use std::marker::Model;

/// The bytes of a head, of a chunk line and of a trailer section, at most.
pub(crate) const MOST_LINE: usize = 65536;

/// How many bytes are received at once.
const PIECE: usize = 4096;

/// The bytes that were received and not read yet, and whether the stream has ended.
#[derive(Debug, Drop)]
pub(crate) struct Inbox {
    bytes: Vec<u8>,
    at: usize,
    ended: bool,
}

impl Model for Inbox {
    ghost use Rattle.std.specs.Prelude.{◌≤◌, length, drop};
    ghost use Rattle.dh_http.specs.Reading.{InboxState};

    ghost Value = { InboxState };

    ghost view = { λ i. record { bytes = drop i.at i.bytes.items; ended = i.ended } };

    ghost invariant = { λ i. i.at ≤ length i.bytes.items };
}

impl Inbox {
    pub(crate) fn new(alloc: Global) -> Inbox
        ensures { result ≡ record { bytes = []; ended = false } }
    {
        Inbox {
            bytes: Vec::new(alloc),
            at: 0,
            ended: false,
        }
    }

    pub(crate) fn as_slice(&self) -> &[u8]
        ensures { result.now ≡ self.now.bytes }
    {
        &self.bytes.as_slice()[self.at..]
    }

    /// The bytes in which a head, a chunk line or a trailer section must stand, as far as they are there.
    pub(crate) fn window(&self) -> &[u8]
        ensures { result.now ≡ take most_line self.now.bytes }
    {
        let bytes = self.as_slice();
        &bytes[..MOST_LINE.min(bytes.len())]
    }

    pub(crate) fn has_ended(&self) -> bool
        ensures { result ≡ self.now.ended }
    {
        self.ended
    }

    /// Passes over bytes that were read.
    pub(crate) fn skip(&mut self, n: usize)
        requires { n ≤ length self.old.bytes }
        ensures { self.new ≡ record self.old { bytes = drop n self.old.bytes } }
    {
        self.at += n;
    }

    /// Gives up the room of what was read.
    fn compact(&mut self)
        ensures { self.new ≡ self.old }
    {
        let rest = self.bytes.len() - self.at;
        self.bytes.rotate_left(self.at);
        self.bytes.truncate(rest);
        self.at = 0;
    }

    fn add(&mut self, piece: &[u8]) -> Result<(), AllocError>
        ensures { OnOk result (self.new ≡ record self.old { bytes = self.old.bytes ++ piece.now }) }
    {
        self.bytes.extend_from_slice(piece)
    }

    fn end(&mut self)
        ensures { self.new ≡ record self.old { ended = true } }
    {
        self.ended = true;
    }
}

/// Receives once more. Answers whether anything came; where not, the stream has ended.
pub(crate) fn fill<L: Link>(link: &mut L, inbox: &mut Inbox) -> Result<bool, GetError>
    requires fits { Fits (L.left link.old) inbox.old }
    ensures filled { IfOk result (Filled
        (place (L.sent link.old) (L.left link.old) (L.receives link.old) (L.faults link.old) inbox.old)
        (place (L.sent link.new) (L.left link.new) (L.receives link.new) (L.faults link.new) inbox.new)) }
    ensures stopped { OnErr result (Stopped
        (place (L.sent link.old) (L.left link.old) (L.receives link.old) (L.faults link.old) inbox.old)
        (place (L.sent link.new) (L.left link.new) (L.receives link.new) (L.faults link.new) inbox.new)) }
    ensures failed { result ≡ Err GetError.Failed → Rose (L.faults link.old) (L.faults link.new) }
{
    if inbox.has_ended() {
        return Ok(false);
    }
    inbox.compact();
    let mut piece = [0u8; PIECE];
    match link.receive(&mut piece) {
        Ok(0) => {
            inbox.end();
            Ok(false)
        }
        Ok(n) => {
            inbox.add(&piece[..n])?;
            Ok(true)
        }
        Err(_) => Err(GetError::Failed),
    }
}

/// Receives once more, unless the whole window is there. Answers whether anything came.
pub(crate) fn grow<L: Link>(link: &mut L, inbox: &mut Inbox) -> Result<bool, GetError>
    requires fits { Fits (L.left link.old) inbox.old }
    ensures grown { IfOk result (Grown
        (place (L.sent link.old) (L.left link.old) (L.receives link.old) (L.faults link.old) inbox.old)
        (place (L.sent link.new) (L.left link.new) (L.receives link.new) (L.faults link.new) inbox.new)) }
    ensures stopped { OnErr result (Stopped
        (place (L.sent link.old) (L.left link.old) (L.receives link.old) (L.faults link.old) inbox.old)
        (place (L.sent link.new) (L.left link.new) (L.receives link.new) (L.faults link.new) inbox.new)) }
    ensures failed { result ≡ Err GetError.Failed → Rose (L.faults link.old) (L.faults link.new) }
{
    if inbox.as_slice().len() >= MOST_LINE {
        return Ok(false);
    }
    fill(link, inbox)
}

/// Receives once more where nothing is there to read. Answers whether there is something; where not, nothing is left.
pub(crate) fn await_some<L: Link>(link: &mut L, inbox: &mut Inbox) -> Result<bool, GetError>
    requires fits { Fits (L.left link.old) inbox.old }
    ensures awaited { IfOk result (Awaited
        (place (L.sent link.old) (L.left link.old) (L.receives link.old) (L.faults link.old) inbox.old)
        (place (L.sent link.new) (L.left link.new) (L.receives link.new) (L.faults link.new) inbox.new)) }
    ensures stopped { OnErr result (Stopped
        (place (L.sent link.old) (L.left link.old) (L.receives link.old) (L.faults link.old) inbox.old)
        (place (L.sent link.new) (L.left link.new) (L.receives link.new) (L.faults link.new) inbox.new)) }
    ensures failed { result ≡ Err GetError.Failed → Rose (L.faults link.old) (L.faults link.new) }
{
    if inbox.as_slice().is_empty() {
        return fill(link, inbox);
    }
    Ok(true)
}

/// Moves what is there to the end of other bytes, at most so many, and answers how many.
fn take_front(inbox: &mut Inbox, body: &mut Vec<u8>, most: usize) -> Result<usize, AllocError>
    ensures count { IfOk result (λ n. n ≡ min (length inbox.old.bytes) most) }
    ensures added { IfOk result (λ n. body.new.items ≡ body.old.items ++ take n inbox.old.bytes) }
    ensures rest { IfOk result (λ n. inbox.new ≡ record inbox.old { bytes = drop n inbox.old.bytes }) }
{
    let bytes = inbox.as_slice();
    let count = bytes.len().min(most);
    body.extend_from_slice(&bytes[..count])?;
    inbox.skip(count);
    Ok(count)
}

/// Reads some bytes, at most so many, and adds them. Answers how many, 0 only where nothing is left.
fn take_some<L: Link>(
    link: &mut L,
    inbox: &mut Inbox,
    body: &mut Vec<u8>,
    most: usize,
) -> Result<usize, GetError>
    requires fits { Fits (L.left link.old) inbox.old }
    requires some { 0 < most }
    ensures taken { IfOk result (TakesSome
        (place (L.sent link.old) (L.left link.old) (L.receives link.old) (L.faults link.old) inbox.old)
        (place (L.sent link.new) (L.left link.new) (L.receives link.new) (L.faults link.new) inbox.new)
        body.old.items body.new.items most) }
    ensures stopped { OnErr result (Stopped
        (place (L.sent link.old) (L.left link.old) (L.receives link.old) (L.faults link.old) inbox.old)
        (place (L.sent link.new) (L.left link.new) (L.receives link.new) (L.faults link.new) inbox.new)) }
    ensures failed { result ≡ Err GetError.Failed → Rose (L.faults link.old) (L.faults link.new) }
{
    if !await_some(link, inbox)? {
        return Ok(0);
    }
    let count = take_front(inbox, body, most)?;
    Ok(count)
}

/// Reads so many bytes, or all that are left, and adds them. Answers whether there were so many.
pub(crate) fn take_bytes<L: Link>(
    link: &mut L,
    inbox: &mut Inbox,
    body: &mut Vec<u8>,
    want: usize,
) -> Result<bool, GetError>
    requires fits { Fits (L.left link.old) inbox.old }
    ensures taken { IfOk result (TakesAll
        (place (L.sent link.old) (L.left link.old) (L.receives link.old) (L.faults link.old) inbox.old)
        (place (L.sent link.new) (L.left link.new) (L.receives link.new) (L.faults link.new) inbox.new)
        body.old.items body.new.items want) }
    ensures stopped { OnErr result (Stopped
        (place (L.sent link.old) (L.left link.old) (L.receives link.old) (L.faults link.old) inbox.old)
        (place (L.sent link.new) (L.left link.new) (L.receives link.new) (L.faults link.new) inbox.new)) }
    ensures failed { result ≡ Err GetError.Failed → Rose (L.faults link.old) (L.faults link.new) }
{
    let mut moved = 0;
    while moved < want {
        let count = take_some(link, inbox, body, want - moved)?;
        if count == 0 {
            return Ok(false);
        }
        moved += count;
    }
    Ok(true)
}

/// Reads one byte. `None` where nothing is left.
pub(crate) fn next_byte<L: Link>(link: &mut L, inbox: &mut Inbox) -> Result<Option<u8>, GetError>
    requires fits { Fits (L.left link.old) inbox.old }
    ensures taken { IfOk result (TakesByte
        (place (L.sent link.old) (L.left link.old) (L.receives link.old) (L.faults link.old) inbox.old)
        (place (L.sent link.new) (L.left link.new) (L.receives link.new) (L.faults link.new) inbox.new)) }
    ensures stopped { OnErr result (Stopped
        (place (L.sent link.old) (L.left link.old) (L.receives link.old) (L.faults link.old) inbox.old)
        (place (L.sent link.new) (L.left link.new) (L.receives link.new) (L.faults link.new) inbox.new)) }
    ensures failed { result ≡ Err GetError.Failed → Rose (L.faults link.old) (L.faults link.new) }
{
    if !await_some(link, inbox)? {
        return Ok(None);
    }
    let byte = inbox.as_slice()[0];
    inbox.skip(1);
    Ok(Some(byte))
}
