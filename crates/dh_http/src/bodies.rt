//! Bodies, read off a link up to the most that is found.

ghost use Rattle.std.specs.Prelude.{◌≡◌, ◌<◌, ◌≤◌, [], IfOk, OnErr, length};
ghost use Rattle.dh_ports.specs.Counts.{Rose};
ghost use Rattle.dh_http.specs.Content.{TakesData, TakesChunk, TakesBody, plain};
ghost use Rattle.dh_http.specs.Reading.{Fits, place, Stopped};
ghost use Rattle.dh_http.specs.Reply.{most_found};
ghost use Rattle.dh_http.specs.declared.framings.Framing.TheVariants.{Chunked, ToEnd, Stated};

use crate::framings::Framing;
use crate::inboxes::{Inbox, take_bytes};
use crate::lines::{take_crlf, take_line, take_trailer};
use crate::links::{GetError, Link};
use dh_syntax::MOST_BYTES;
use std::alloc::Global;

/// The bytes of a body that are found, at most: one more than a text may have.
const MOST_FOUND: usize = MOST_BYTES + 1;

/// Where a chunk leaves a body.
#[derive(Clone, Copy, Debug)]
pub(crate) enum Chunk {
    /// There is more to read.
    More,
    /// All of the body was read, or the most that is found.
    Last,
    /// Something else stands there.
    Other,
}

/// Reads the data of a chunk of this size, and the line end after it.
fn take_data<L: Link>(
    link: &mut L,
    inbox: &mut Inbox,
    body: &mut Vec<u8>,
    size: u64,
) -> Result<Chunk, GetError>
    requires fits { Fits (L.left link.old) inbox.old }
    requires some { 0 < size }
    requires room { length body.old.items < most_found }
    ensures taken { IfOk result (TakesData
        (place (L.sent link.old) (L.left link.old) (L.receives link.old) (L.faults link.old) inbox.old)
        (place (L.sent link.new) (L.left link.new) (L.receives link.new) (L.faults link.new) inbox.new)
        body.old.items body.new.items size) }
    ensures stopped { OnErr result (Stopped
        (place (L.sent link.old) (L.left link.old) (L.receives link.old) (L.faults link.old) inbox.old)
        (place (L.sent link.new) (L.left link.new) (L.receives link.new) (L.faults link.new) inbox.new)) }
    ensures failed { result ≡ Err GetError.Failed → Rose (L.faults link.old) (L.faults link.new) }
{
    let room = MOST_FOUND - body.len();
    let want = size.min(room as u64) as usize;
    if !take_bytes(link, inbox, body, want)? {
        return Ok(Chunk::Other);
    }
    if body.len() == MOST_FOUND {
        return Ok(Chunk::Last);
    }
    match take_crlf(link, inbox)? {
        true => Ok(Chunk::More),
        false => Ok(Chunk::Other),
    }
}

/// Reads a chunk, or the last chunk and the trailer section.
fn take_chunk<L: Link>(
    alloc: Global,
    link: &mut L,
    inbox: &mut Inbox,
    body: &mut Vec<u8>,
) -> Result<Chunk, GetError>
    requires fits { Fits (L.left link.old) inbox.old }
    requires room { length body.old.items < most_found }
    ensures taken { IfOk result (TakesChunk
        (place (L.sent link.old) (L.left link.old) (L.receives link.old) (L.faults link.old) inbox.old)
        (place (L.sent link.new) (L.left link.new) (L.receives link.new) (L.faults link.new) inbox.new)
        body.old.items body.new.items) }
    ensures stopped { OnErr result (Stopped
        (place (L.sent link.old) (L.left link.old) (L.receives link.old) (L.faults link.old) inbox.old)
        (place (L.sent link.new) (L.left link.new) (L.receives link.new) (L.faults link.new) inbox.new)) }
    ensures failed { result ≡ Err GetError.Failed → Rose (L.faults link.old) (L.faults link.new) }
{
    match take_line(link, inbox)? {
        None => Ok(Chunk::Other),
        Some(0) => match take_trailer(alloc, link, inbox)? {
            true => Ok(Chunk::Last),
            false => Ok(Chunk::Other),
        },
        Some(size) => take_data(link, inbox, body, size),
    }
}

/// Reads a body in chunks (RFC 9112, section 7.1). Answers whether there is one.
fn take_chunks<L: Link>(
    alloc: Global,
    link: &mut L,
    inbox: &mut Inbox,
    body: &mut Vec<u8>,
) -> Result<bool, GetError>
    requires fits { Fits (L.left link.old) inbox.old }
    requires empty { body.old.items ≡ [] }
    ensures taken { IfOk result (TakesBody Chunked
        (place (L.sent link.old) (L.left link.old) (L.receives link.old) (L.faults link.old) inbox.old)
        (place (L.sent link.new) (L.left link.new) (L.receives link.new) (L.faults link.new) inbox.new)
        body.new.items) }
    ensures stopped { OnErr result (Stopped
        (place (L.sent link.old) (L.left link.old) (L.receives link.old) (L.faults link.old) inbox.old)
        (place (L.sent link.new) (L.left link.new) (L.receives link.new) (L.faults link.new) inbox.new)) }
    ensures failed { result ≡ Err GetError.Failed → Rose (L.faults link.old) (L.faults link.new) }
{
    'chunks: loop {
        match take_chunk(alloc, link, inbox, body)? {
            Chunk::More => {}
            Chunk::Last => return Ok(true),
            Chunk::Other => return Ok(false),
        }
    }
}

/// Reads as many bytes as are stated, or as are left.
fn take_plain<L: Link>(
    link: &mut L,
    inbox: &mut Inbox,
    body: &mut Vec<u8>,
    stated: Option<u64>,
) -> Result<bool, GetError>
    requires fits { Fits (L.left link.old) inbox.old }
    requires empty { body.old.items ≡ [] }
    ensures taken { IfOk result (TakesBody (plain stated)
        (place (L.sent link.old) (L.left link.old) (L.receives link.old) (L.faults link.old) inbox.old)
        (place (L.sent link.new) (L.left link.new) (L.receives link.new) (L.faults link.new) inbox.new)
        body.new.items) }
    ensures stopped { OnErr result (Stopped
        (place (L.sent link.old) (L.left link.old) (L.receives link.old) (L.faults link.old) inbox.old)
        (place (L.sent link.new) (L.left link.new) (L.receives link.new) (L.faults link.new) inbox.new)) }
    ensures failed { result ≡ Err GetError.Failed → Rose (L.faults link.old) (L.faults link.new) }
{
    match stated {
        Some(size) => take_bytes(link, inbox, body, size.min(MOST_FOUND as u64) as usize),
        None => {
            let _all = take_bytes(link, inbox, body, MOST_FOUND)?;
            Ok(true)
        }
    }
}

/// Reads a body, up to the most that is found. Answers whether there is one.
pub(crate) fn take_body<L: Link>(
    alloc: Global,
    link: &mut L,
    inbox: &mut Inbox,
    framing: Framing,
    body: &mut Vec<u8>,
) -> Result<bool, GetError>
    requires fits { Fits (L.left link.old) inbox.old }
    requires empty { body.old.items ≡ [] }
    ensures taken { IfOk result (TakesBody framing
        (place (L.sent link.old) (L.left link.old) (L.receives link.old) (L.faults link.old) inbox.old)
        (place (L.sent link.new) (L.left link.new) (L.receives link.new) (L.faults link.new) inbox.new)
        body.new.items) }
    ensures stopped { OnErr result (Stopped
        (place (L.sent link.old) (L.left link.old) (L.receives link.old) (L.faults link.old) inbox.old)
        (place (L.sent link.new) (L.left link.new) (L.receives link.new) (L.faults link.new) inbox.new)) }
    ensures failed { result ≡ Err GetError.Failed → Rose (L.faults link.old) (L.faults link.new) }
{
    match framing {
        Framing::ToEnd => take_plain(link, inbox, body, None),
        Framing::Stated(size) => take_plain(link, inbox, body, Some(size)),
        Framing::Chunked => take_chunks(alloc, link, inbox, body),
        Framing::Unclear => Ok(false),
    }
}
