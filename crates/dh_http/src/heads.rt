//! Heads, read off a link.

ghost use Rattle.std.specs.Prelude.{◌≡◌, ◌≤◌, IfOk, OnErr, length, map, All};
ghost use Rattle.httparse.specs.Spans.{IsHeaderWithin, header_bytes};
ghost use Rattle.dh_ports.specs.Counts.{Rose};
ghost use Rattle.dh_http.specs.Fields.{framing, allowed};
ghost use Rattle.dh_http.specs.Heads.{FindsHead, TakesHead};
ghost use Rattle.dh_http.specs.Reading.{Fits, place, Stopped};

use crate::fields::{allowed_of, framing_of};
use crate::framings::Framing;
use crate::inboxes::Inbox;
use crate::links::{GetError, Link};
use crate::scans::{Scan, await_end};
use dh_syntax::Bytes;
use httparse::Status;
use httparse::spans::{EMPTY_HEADER_SPAN, HeaderSpan, parse_response};
use std::alloc::{AllocError, Global};

/// The fields of a head, at most.
const MOST_FIELDS: usize = 64;

/// What a head says of the reply.
#[derive(Debug, Drop)]
pub(crate) struct Head {
    pub(crate) status: u16,
    pub(crate) framing: Framing,
    pub(crate) allow: Option<Bytes>,
    len: usize,
}

impl Head {
    /// The status, how the body stands in the stream, and the origin that may read it.
    pub(crate) fn into_parts(self) -> (u16, Framing, Option<Bytes>)
        ensures { result ≡ (self.status, self.framing, self.allow) }
    {
        let Head {
            status,
            framing,
            allow,
            len: _,
        } = self;
        (status, framing, allow)
    }
}

/// What stands in the window.
enum Seen {
    Whole(Head),
    /// No head yet.
    Part,
    /// No head, whatever follows.
    Other,
}

/// What these fields say.
fn head_of(
    alloc: Global,
    window: &[u8],
    fields: &[HeaderSpan],
    status: u16,
    len: usize,
) -> Result<Head, AllocError>
    requires within { All (IsHeaderWithin (length window.now)) fields.now }
    ensures status { IfOk result (λ h. h.status ≡ status) }
    ensures framing { IfOk result (λ h. h.framing ≡ framing (map (header_bytes window.now) fields.now)) }
    ensures allow { IfOk result (λ h. h.allow ≡ allowed (map (header_bytes window.now) fields.now)) }
    ensures len { IfOk result (λ h. h.len ≡ len) }
{
    let framing = framing_of(window, fields);
    let allow = match allowed_of(window, fields) {
        Some(origin) => Some(Bytes::of(Vec::from_slice(alloc, origin)?)),
        None => None,
    };
    Ok(Head {
        status,
        framing,
        allow,
        len,
    })
}

/// What stands in the window.
fn head_at(alloc: Global, window: &[u8]) -> Result<Seen, AllocError>
    ensures { IfOk result (FindsHead window.now) }
{
    let mut table = [EMPTY_HEADER_SPAN; MOST_FIELDS];
    match parse_response(window, &mut table) {
        Ok(Status::Complete(head)) => {
            let fields = &table[..head.headers];
            Ok(Seen::Whole(head_of(alloc, window, fields, head.code, head.len)?))
        }
        Ok(Status::Partial) => Ok(Seen::Part),
        Err(_) => Ok(Seen::Other),
    }
}

/// Reads a head (RFC 9112, section 2.1). `None` where there is none.
pub(crate) fn take_head<L: Link>(
    alloc: Global,
    link: &mut L,
    inbox: &mut Inbox,
) -> Result<Option<Head>, GetError>
    requires fits { Fits (L.left link.old) inbox.old }
    ensures taken { IfOk result (TakesHead
        (place (L.sent link.old) (L.left link.old) (L.receives link.old) (L.faults link.old) inbox.old)
        (place (L.sent link.new) (L.left link.new) (L.receives link.new) (L.faults link.new) inbox.new)) }
    ensures stopped { OnErr result (Stopped
        (place (L.sent link.old) (L.left link.old) (L.receives link.old) (L.faults link.old) inbox.old)
        (place (L.sent link.new) (L.left link.new) (L.receives link.new) (L.faults link.new) inbox.new)) }
    ensures failed { result ≡ Err GetError.Failed → Rose (L.faults link.old) (L.faults link.new) }
{
    let mut scan = Scan::of_head();
    'ends: loop {
        let may_come = await_end(link, inbox, &mut scan)?;
        match head_at(alloc, inbox.window())? {
            Seen::Whole(head) => {
                inbox.skip(head.len);
                return Ok(Some(head));
            }
            Seen::Part => {
                if !may_come {
                    return Ok(None);
                }
            }
            Seen::Other => return Ok(None),
        }
    }
}
