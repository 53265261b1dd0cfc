//! Replies as a reader of RFC 9112 expects them, however they are cut, and streams that are none.

mod streams;

use crate::{GetError, Link, MemLink, get, request_of};
use dh_ports::{CallList, Found, Got};
use dh_syntax::{Bytes, Many, Piece, Url};
use std::alloc::{AllocError, Global};
use std::test::Fail;
use streams::{BROKEN, CHUNKED, DECIDED, FOUND, STATED, WITH_TRAILER};

const REQUEST: &[u8] = b"GET /d/a?q=1 HTTP/1.1\r\nHost: h\r\nConnection: close\r\n\r\n";

/// How many bytes a link takes and gives at once.
const PIECES: [usize; 4] = [1, 2, 7, WHOLE];

const WHOLE: usize = 0xFFFF_FFFF;

fn url(alloc: Global) -> Result<Url, AllocError> {
    let comps = Vec::from_array(alloc, [Piece::new(alloc, "d")?, Piece::new(alloc, "a")?])?;
    Ok(Url {
        host: Piece::new(alloc, "h")?,
        comps: Many::of(comps),
        query: Some(Piece::new(alloc, "q=1")?),
    })
}

/// A link over a stream in such pieces, of whose calls this one fails, from 1 on.
fn link_over(alloc: Global, stream: &[u8], most: usize, call: u64) -> Result<MemLink, AllocError> {
    let fails: CallList = Many::of([call].to_vec(alloc)?);
    let stream = Bytes::of(stream.to_vec(alloc)?);
    Ok(match most {
        1 => MemLink::narrow(alloc, stream, fails),
        WHOLE => MemLink::new(alloc, stream, fails),
        _ => MemLink::in_pieces(alloc, stream, fails, most.max(1)),
    })
}

/// A call through the bound of the trait.
fn ask<L: Link>(alloc: Global, link: &mut L) -> Result<Result<Got, GetError>, AllocError> {
    Ok(get(alloc, link, &url(alloc)?))
}

/// Whether the answer is this text, or has this status, 404 for an absent one.
fn is_answer(got: &Result<Got, GetError>, text: Option<&[u8]>, status: u16) -> bool {
    match (got, text) {
        (Ok(Got::Found(found)), Some(text)) => found.bytes.as_slice() == text,
        (Ok(Got::Absent), None) => status == 404,
        (Ok(Got::Broken(code)), None) => *code == status,
        _ => false,
    }
}

/// Whether the answer to a stream in pieces of each of these sizes is this, with the whole request sent and few calls to receive.
fn answers(
    alloc: Global,
    stream: &[u8],
    pieces: &[usize],
    text: Option<&[u8]>,
    status: u16,
) -> Result<bool, AllocError> {
    let mut right = true;
    for most in pieces {
        let mut link = link_over(alloc, stream, *most, 0)?;
        let got = ask(alloc, &mut link)?;
        let received = stream.len().saturating_sub(link.left_bytes().len()) as u64;
        right = right && is_answer(&got, text, status);
        right = right && link.sent_bytes() == REQUEST;
        right = right && link.receive_count() <= received.saturating_add(1);
    }
    Ok(right)
}

fn origin_of(found: &Found) -> Option<&[u8]> {
    match &found.allow {
        Some(origin) => Some(origin.as_slice()),
        None => None,
    }
}

#[test]
fn asks_and_finds_the_text_with_its_origin(rt: HostRuntime) -> Result<(), Fail> {
    let alloc = rt.alloc();
    let text = request_of(alloc, &url(alloc)?)?;
    assert_eq!(rt; text.as_bytes(), REQUEST);
    for (stream, origin) in [(STATED, Some(b"*".as_slice())), (CHUNKED, None)] {
        match ask(alloc, &mut link_over(alloc, stream, 7, 0)?)? {
            Ok(Got::Found(found)) => {
                assert_eq!(rt; found.bytes.as_slice(), b"3".as_slice());
                assert_eq!(rt; origin_of(&found), origin);
            }
            _ => return Err(Fail::from("not found")),
        }
    }
    Ok(())
}

#[test]
fn streams_are_read_however_they_are_cut(rt: HostRuntime) -> Result<(), Fail> {
    for (stream, text) in FOUND {
        assert!(rt; answers(rt.alloc(), stream, &PIECES, Some(text), 200)?);
    }
    for (stream, status) in BROKEN {
        assert!(rt; answers(rt.alloc(), stream, &PIECES, None, status)?);
    }
    Ok(())
}

/// What stands behind the byte that decides.
const TAIL: &[u8] = b"3\r\n0\r\n\r\nA: b\r\n\r\nHTTP/1.1 200 OK\r\n\r\n3";

/// Whether the answer to a stream is this with the tail behind it, of which nothing is received by single bytes.
fn leaves_the_tail(
    alloc: Global,
    stream: &[u8],
    text: Option<&[u8]>,
    status: u16,
) -> Result<bool, AllocError> {
    let whole = long(alloc, stream, TAIL, 1, b"")?;
    let mut link = link_over(alloc, whole.as_slice(), 1, 0)?;
    let got = ask(alloc, &mut link)?;
    let right = is_answer(&got, text, status) && link.left_bytes() == TAIL;
    Ok(right && answers(alloc, whole.as_slice(), &PIECES, text, status)?)
}

#[test]
fn nothing_is_received_behind_the_byte_that_decides(rt: HostRuntime) -> Result<(), Fail> {
    for (stream, text, status) in DECIDED {
        assert!(rt; leaves_the_tail(rt.alloc(), stream, text, status)?);
    }
    // One field more than a head has at most.
    let stream = long(rt.alloc(), b"HTTP/1.1 200 OK\r\n", b"A: b\r\n", 65, b"")?;
    assert!(rt; leaves_the_tail(rt.alloc(), stream.as_slice(), None, 0)?);
    Ok(())
}

/// Whether each proper first part of a stream answers that nothing can be used.
fn is_nothing_before_its_end(alloc: Global, stream: &[u8]) -> Result<bool, AllocError> {
    let mut right = true;
    for cut in 0..stream.len() {
        right = right && answers(alloc, &stream[..cut], &PIECES, None, 0)?;
    }
    Ok(right)
}

#[test]
fn a_stream_that_ends_early_is_broken(rt: HostRuntime) -> Result<(), Fail> {
    for (stream, _, _) in DECIDED {
        assert!(rt; is_nothing_before_its_end(rt.alloc(), stream)?);
    }
    for (stream, status) in BROKEN {
        assert!(rt; status != 0 || is_nothing_before_its_end(rt.alloc(), stream)?);
    }
    Ok(())
}

/// Whether each of so many calls fails where it is to fail, and none where a later one is.
fn each_fails(alloc: Global, stream: &[u8], most: usize, calls: u64) -> Result<bool, AllocError> {
    let mut right = true;
    for call in 1..=calls {
        let mut link = link_over(alloc, stream, most, call)?;
        let got = ask(alloc, &mut link)?;
        right = right && matches!(got, Err(GetError::Failed)) && link.fault_count() == 1;
        right = right && REQUEST.starts_with(link.sent_bytes());
    }
    let mut link = link_over(alloc, stream, most, calls.saturating_add(1))?;
    let got = ask(alloc, &mut link)?;
    Ok(right && is_answer(&got, Some(b"3".as_slice()), 200) && link.fault_count() == 0)
}

#[test]
fn each_call_that_fails_is_told(rt: HostRuntime) -> Result<(), Fail> {
    for stream in [STATED, CHUNKED, WITH_TRAILER] {
        for most in PIECES {
            let mut link = link_over(rt.alloc(), stream, most, 0)?;
            let _ = ask(rt.alloc(), &mut link)?;
            let sends = REQUEST.len().div_ceil(most.max(1)) as u64;
            let calls = sends.saturating_add(link.receive_count());
            assert!(rt; each_fails(rt.alloc(), stream, most, calls)?);
        }
    }
    Ok(())
}

/// A stream of a start, so many times the same bytes, and an end.
fn long(
    alloc: Global,
    start: &[u8],
    bytes: &[u8],
    times: usize,
    end: &[u8],
) -> Result<Vec<u8>, AllocError> {
    let mut stream = start.to_vec(alloc)?;
    for _ in 0..times {
        stream.extend_from_slice(bytes)?;
    }
    stream.extend_from_slice(end)?;
    Ok(stream)
}

#[test]
fn long_bodies_are_found_up_to_the_limit(rt: HostRuntime) -> Result<(), Fail> {
    let alloc = rt.alloc();
    for (head, piece, times) in streams::LONG_BODIES {
        let stream = long(alloc, head, piece, times, b"")?;
        let mut link = link_over(alloc, stream.as_slice(), WHOLE, 0)?;
        match ask(alloc, &mut link)? {
            Ok(Got::Found(found)) => assert_eq!(rt; found.bytes.as_slice().len(), 1_048_577),
            _ => return Err(Fail::from("not found")),
        }
        // Little more is received than the limit.
        assert!(rt; link.receive_count() < 2_000);
    }
    Ok(())
}

#[test]
fn heads_lines_and_trailers_have_limits(rt: HostRuntime) -> Result<(), Fail> {
    let alloc = rt.alloc();
    for (start, piece, times, end, is_found) in streams::LIMITS {
        let stream = long(alloc, start, piece, times, end)?;
        let (text, status) = match is_found {
            true => (Some(b"3".as_slice()), 200),
            false => (None, 0),
        };
        assert!(rt; answers(alloc, stream.as_slice(), &[30_000, WHOLE], text, status)?);
    }
    Ok(())
}
