//! Chunk lines, trailer sections and line ends, read off a link.

ghost use Rattle.std.specs.Prelude.{◌≡◌, ◌≤◌, [], ◌∷◌, IfOk, OnErr, length, vec_len, IsTrue, List, ℕ};
ghost use Rattle.httparse.specs.Ascii.{crlf_bytes};
ghost use Rattle.httparse.specs.Spans.{IsSectionOf};
ghost use Rattle.httparse.specs.declared.spans.HeaderSpan.{HeaderSpan};
ghost use Rattle.dh_ports.specs.Counts.{Rose};
ghost use Rattle.dh_http.specs.Forms.{TakesBytes, TakesLine, TakesTrailer};
ghost use Rattle.dh_http.specs.Trailers.{FindsTrailer};
ghost use Rattle.dh_http.specs.Reading.{Fits, place, Stopped};

use crate::inboxes::{Inbox, MOST_LINE, next_byte};
use crate::links::{GetError, Link};
use crate::scans::{Scan, await_end};
use httparse::spans::{EMPTY_HEADER_SPAN, HeaderSpan, parse_headers};
use httparse::{Status, parse_chunk_size};
use std::alloc::{AllocError, Global};

/// Reads one byte, and answers whether it is this one.
fn take_byte<L: Link>(link: &mut L, inbox: &mut Inbox, byte: u8) -> Result<bool, GetError>
    requires fits { Fits (L.left link.old) inbox.old }
    ensures taken { IfOk result (TakesBytes
        (place (L.sent link.old) (L.left link.old) (L.receives link.old) (L.faults link.old) inbox.old)
        (place (L.sent link.new) (L.left link.new) (L.receives link.new) (L.faults link.new) inbox.new) (byte ∷ [])) }
    ensures stopped { OnErr result (Stopped
        (place (L.sent link.old) (L.left link.old) (L.receives link.old) (L.faults link.old) inbox.old)
        (place (L.sent link.new) (L.left link.new) (L.receives link.new) (L.faults link.new) inbox.new)) }
    ensures failed { result ≡ Err GetError.Failed → Rose (L.faults link.old) (L.faults link.new) }
{
    match next_byte(link, inbox)? {
        Some(next) => Ok(next == byte),
        None => Ok(false),
    }
}

/// Reads CR LF. Answers whether they were there.
pub(crate) fn take_crlf<L: Link>(link: &mut L, inbox: &mut Inbox) -> Result<bool, GetError>
    requires fits { Fits (L.left link.old) inbox.old }
    ensures taken { IfOk result (TakesBytes
        (place (L.sent link.old) (L.left link.old) (L.receives link.old) (L.faults link.old) inbox.old)
        (place (L.sent link.new) (L.left link.new) (L.receives link.new) (L.faults link.new) inbox.new) crlf_bytes) }
    ensures stopped { OnErr result (Stopped
        (place (L.sent link.old) (L.left link.old) (L.receives link.old) (L.faults link.old) inbox.old)
        (place (L.sent link.new) (L.left link.new) (L.receives link.new) (L.faults link.new) inbox.new)) }
    ensures failed { result ≡ Err GetError.Failed → Rose (L.faults link.old) (L.faults link.new) }
{
    if !take_byte(link, inbox, b'\r')? {
        return Ok(false);
    }
    take_byte(link, inbox, b'\n')
}

/// Reads a chunk line (RFC 9112, section 7.1), and answers the size of the chunk. `None` where there is none.
pub(crate) fn take_line<L: Link>(link: &mut L, inbox: &mut Inbox) -> Result<Option<u64>, GetError>
    requires fits { Fits (L.left link.old) inbox.old }
    ensures taken { IfOk result (TakesLine
        (place (L.sent link.old) (L.left link.old) (L.receives link.old) (L.faults link.old) inbox.old)
        (place (L.sent link.new) (L.left link.new) (L.receives link.new) (L.faults link.new) inbox.new)) }
    ensures stopped { OnErr result (Stopped
        (place (L.sent link.old) (L.left link.old) (L.receives link.old) (L.faults link.old) inbox.old)
        (place (L.sent link.new) (L.left link.new) (L.receives link.new) (L.faults link.new) inbox.new)) }
    ensures failed { result ≡ Err GetError.Failed → Rose (L.faults link.old) (L.faults link.new) }
{
    let mut scan = Scan::of_lines();
    'ends: loop {
        let may_come = await_end(link, inbox, &mut scan)?;
        match parse_chunk_size(inbox.window()) {
            Ok(Status::Complete((len, size))) => {
                inbox.skip(len);
                return Ok(Some(size));
            }
            Ok(Status::Partial) => {
                if !may_come {
                    return Ok(None);
                }
            }
            Err(_) => return Ok(None),
        }
    }
}

/// How many fields a trailer section has at most: each has a name, a colon and a line end.
const MOST_TRAILERS: usize = MOST_LINE / 3;

/// What stands in the window.
enum Trailer {
    Whole,
    /// No trailer section yet.
    Part,
    /// No trailer section, whatever follows.
    Other,
}

/// Whether a trailer section stands at the front whose fields have room in the table.
fn has_section(window: &[u8], fields: &mut [HeaderSpan]) -> bool
    ensures { IsTrue result → (spans : List HeaderSpan) × (r : ℕ × ℕ) × IsSectionOf window.now 0 spans r }
{
    matches!(parse_headers(window, fields), Ok(Status::Complete(_)))
}

/// What stands in the window of a trailer section (RFC 9112, section 7.1.2).
fn trailer_at(alloc: Global, window: &[u8]) -> Result<Trailer, AllocError>
    ensures { IfOk result (FindsTrailer window.now) }
{
    // An empty section needs no table, and is what most servers send.
    if has_section(window, &mut []) {
        return Ok(Trailer::Whole);
    }
    let mut fields = vec![in alloc; EMPTY_HEADER_SPAN; MOST_TRAILERS]?;
    match parse_headers(window, fields.as_mut_slice()) {
        Ok(Status::Complete(_)) => Ok(Trailer::Whole),
        Ok(Status::Partial) => Ok(Trailer::Part),
        Err(_) => Ok(Trailer::Other),
    }
}

/// Whether a trailer section stands here.
pub(crate) fn take_trailer<L: Link>(
    alloc: Global,
    link: &mut L,
    inbox: &mut Inbox,
) -> Result<bool, GetError>
    requires fits { Fits (L.left link.old) inbox.old }
    ensures taken { IfOk result (TakesTrailer
        (place (L.sent link.old) (L.left link.old) (L.receives link.old) (L.faults link.old) inbox.old)
        (place (L.sent link.new) (L.left link.new) (L.receives link.new) (L.faults link.new) inbox.new)) }
    ensures stopped { OnErr result (Stopped
        (place (L.sent link.old) (L.left link.old) (L.receives link.old) (L.faults link.old) inbox.old)
        (place (L.sent link.new) (L.left link.new) (L.receives link.new) (L.faults link.new) inbox.new)) }
    ensures failed { result ≡ Err GetError.Failed → Rose (L.faults link.old) (L.faults link.new) }
{
    let mut scan = Scan::of_lines();
    'ends: loop {
        let may_come = await_end(link, inbox, &mut scan)?;
        match trailer_at(alloc, inbox.window())? {
            Trailer::Whole => return Ok(true),
            Trailer::Part => {
                if !may_come {
                    return Ok(false);
                }
            }
            Trailer::Other => return Ok(false),
        }
    }
}
