//! One request and its reply.

ghost use Rattle.std.specs.Prelude.{◌≡◌, IfOk, IfSome, OnOk, OnErr, Option};
ghost use Rattle.std.specs.Io.KnownBytes.{Appends};
ghost use Rattle.dh_ports.specs.Counts.{Rose};
ghost use Rattle.dh_ports.specs.Desks.{IsShort};
ghost use Rattle.dh_http.specs.Content.{ReadsAnswer, ReadsReply, ReceivesFew};
ghost use Rattle.dh_http.specs.Reading.{Fits, place, Stopped};
ghost use Rattle.dh_http.specs.Reply.{Replies};
ghost use Rattle.dh_http.specs.Requests.{request};
ghost use Rattle.dh_http.specs.Sent.{SendsPart};

use crate::bodies::take_body;
use crate::framings::Framing;
use crate::heads::take_head;
use crate::inboxes::Inbox;
use crate::links::{GetError, Link};
use crate::requests::request_of;
use crate::sending::send_all;
use dh_ports::{Found, Got};
use dh_syntax::{Bytes, Url};
use std::alloc::Global;

/// What follows a head with status 200.
fn read_found<L: Link>(
    alloc: Global,
    link: &mut L,
    inbox: &mut Inbox,
    framing: Framing,
    allow: Option<Bytes>,
) -> Result<Got, GetError>
    requires fits { Fits (L.left link.old) inbox.old }
    ensures read { IfOk result (ReadsAnswer 200 framing allow
        (place (L.sent link.old) (L.left link.old) (L.receives link.old) (L.faults link.old) inbox.old)
        (place (L.sent link.new) (L.left link.new) (L.receives link.new) (L.faults link.new) inbox.new)) }
    ensures stopped { OnErr result (Stopped
        (place (L.sent link.old) (L.left link.old) (L.receives link.old) (L.faults link.old) inbox.old)
        (place (L.sent link.new) (L.left link.new) (L.receives link.new) (L.faults link.new) inbox.new)) }
    ensures failed { result ≡ Err GetError.Failed → Rose (L.faults link.old) (L.faults link.new) }
{
    let mut body = Vec::new(alloc);
    match take_body(alloc, link, inbox, framing, &mut body)? {
        true => Ok(Got::Found(Found {
            bytes: Bytes::of(body),
            allow,
        })),
        false => Ok(Got::Broken(0)),
    }
}

/// What follows a head.
fn read_answer<L: Link>(
    alloc: Global,
    link: &mut L,
    inbox: &mut Inbox,
    status: u16,
    framing: Framing,
    allow: Option<Bytes>,
) -> Result<Got, GetError>
    requires fits { Fits (L.left link.old) inbox.old }
    ensures read { IfOk result (ReadsAnswer status framing allow
        (place (L.sent link.old) (L.left link.old) (L.receives link.old) (L.faults link.old) inbox.old)
        (place (L.sent link.new) (L.left link.new) (L.receives link.new) (L.faults link.new) inbox.new)) }
    ensures stopped { OnErr result (Stopped
        (place (L.sent link.old) (L.left link.old) (L.receives link.old) (L.faults link.old) inbox.old)
        (place (L.sent link.new) (L.left link.new) (L.receives link.new) (L.faults link.new) inbox.new)) }
    ensures failed { result ≡ Err GetError.Failed → Rose (L.faults link.old) (L.faults link.new) }
{
    match status {
        200 => read_found(alloc, link, inbox, framing, allow),
        404 => Ok(Got::Absent),
        _ => Ok(Got::Broken(status)),
    }
}

/// A reply (RFC 9112), from what was received before and what is received now.
fn read_from<L: Link>(alloc: Global, link: &mut L, inbox: &mut Inbox) -> Result<Got, GetError>
    requires fits { Fits (L.left link.old) inbox.old }
    ensures read { IfOk result (ReadsReply
        (place (L.sent link.old) (L.left link.old) (L.receives link.old) (L.faults link.old) inbox.old)
        (place (L.sent link.new) (L.left link.new) (L.receives link.new) (L.faults link.new) inbox.new)) }
    ensures stopped { OnErr result (Stopped
        (place (L.sent link.old) (L.left link.old) (L.receives link.old) (L.faults link.old) inbox.old)
        (place (L.sent link.new) (L.left link.new) (L.receives link.new) (L.faults link.new) inbox.new)) }
    ensures failed { result ≡ Err GetError.Failed → Rose (L.faults link.old) (L.faults link.new) }
{
    match take_head(alloc, link, inbox)? {
        Some(head) => {
            let (status, framing, allow) = head.into_parts();
            read_answer(alloc, link, inbox, status, framing, allow)
        }
        None => Ok(Got::Broken(0)),
    }
}

/// Reads a reply.
fn read_reply<L: Link>(alloc: Global, link: &mut L) -> Result<Got, GetError>
    ensures reply { IfOk result (λ got. IfSome (L.left link.old) (λ stream. Replies stream got)) }
    ensures short { IfOk result IsShort }
    ensures few { ReceivesFew (L.left link.old) (L.left link.new) (L.receives link.old) (L.receives link.new) }
    ensures sent { L.sent link.new ≡ L.sent link.old }
    ensures quiet { OnOk result (L.faults link.new ≡ L.faults link.old) }
    ensures failed { result ≡ Err GetError.Failed → Rose (L.faults link.old) (L.faults link.new) }
{
    let mut inbox = Inbox::new(alloc);
    read_from(alloc, link, &mut inbox)
}

/// Sends the request of a URL and reads the reply. After a refusal some first part of the request was sent.
pub fn get<L: Link>(alloc: Global, link: &mut L, url: &Url) -> Result<Got, GetError>
    ensures sent { OnOk result (Appends (L.sent link.old) (L.sent link.new) (request url.now)) }
    ensures part { OnErr result (SendsPart (L.sent link.old) (L.sent link.new) (request url.now)) }
    ensures reply { IfOk result (λ got. IfSome (L.left link.old) (λ stream. Replies stream got)) }
    ensures short { IfOk result IsShort }
    ensures few { ReceivesFew (L.left link.old) (L.left link.new) (L.receives link.old) (L.receives link.new) }
    ensures quiet { OnOk result (L.faults link.new ≡ L.faults link.old) }
    ensures failed { result ≡ Err GetError.Failed → Rose (L.faults link.old) (L.faults link.new) }
{
    let text = request_of(alloc, url)?;
    send_all(link, text.as_bytes())?;
    read_reply(alloc, link)
}
