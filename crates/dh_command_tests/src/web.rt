//! Runs of the command over texts that a server on loopback has.

use dh_command::Status;
use dh_desks::{Folder, Folders, make_desks};
use dh_ports::{Desk, MemFeed, MemSink, OpenGate, Silent};
use dh_syntax::{Bytes, Many};
use dh_top::run_dhall;
use std::alloc::{AllocError, Global};
use std::io::{Read, Write};
use std::net::TcpListener;
use std::sync::Wait;
use std::test::Fail;
use std::thread::Threads;
use std::{io, thread};

const NO_FOLDERS: Folders = Folders {
    home: Folder::Unset,
    cache: Folder::Unset,
};

/// What `normalize` writes of an input by 8 workers, to standard output and then to standard error, and its status.
fn normalized<R: Threads + Wait + Sync, D: Desk<Silent> + Send + Drop>(
    rt: &R,
    alloc: Global,
    desks: &mut Vec<D>,
    input: &str,
) -> Result<(Vec<u8>, Status), AllocError> {
    if desks.is_empty() {
        return Err(AllocError);
    }
    let mut words = Vec::new(alloc);
    for word in ["normalize", "--workers", "8"] {
        words.push(String::from_str(alloc, word)?)?;
    }
    let input = Bytes::of(Vec::from_slice(alloc, input.as_bytes())?);
    let mut input = MemFeed::new(alloc, input, Many::new(alloc));
    let mut out = MemSink::new(alloc, Many::new(alloc));
    let mut err = MemSink::new(alloc, Many::new(alloc));
    let words = words.as_slice();
    let status = run_dhall::<R, Silent, D, MemFeed, MemSink, MemSink, OpenGate>(
        rt, alloc, words, desks, &mut input, &mut out, &mut err, &OpenGate,
    );
    let mut written = Vec::from_slice(alloc, out.written_bytes())?;
    written.extend_from_slice(err.written_bytes())?;
    Ok((written, status))
}

/// Whether `normalize` writes this of an input and ends with this status.
fn gives<R: Threads + Wait + Sync, D: Desk<Silent> + Send + Drop>(
    rt: &R,
    alloc: Global,
    desks: &mut Vec<D>,
    input: &str,
    wanted: (&str, Status),
) -> bool {
    let (line, status) = wanted;
    match normalized(rt, alloc, desks, input) {
        Ok((written, end)) => written.as_slice() == line.as_bytes() && end == status,
        Err(_) => false,
    }
}

/// How a request begins, more of the head of the reply to it, and the text.
type Page<'a> = (&'a str, &'a str, &'a str);

/// Answers one request on each of so many connections.
fn serve(listener: &TcpListener, alloc: Global, pages: &[Page], count: usize) -> io::Result<()> {
    for _ in 0..count {
        let (mut stream, _) = listener.accept()?;
        let mut request = [0u8; 512];
        let _ = stream.read(&mut request)?;
        for (asked, more, text) in pages {
            if request.starts_with(asked.as_bytes()) {
                let reply = format!(in alloc; "HTTP/1.1 200 OK\r\n{more}\r\n{text}")?;
                stream.write_all(reply.as_bytes())?;
            }
        }
    }
    Ok(())
}

#[test]
fn texts_of_a_server_are_chained_and_held_to_their_origins(rt: HostRuntime) -> Result<(), Fail> {
    let alloc = rt.alloc();
    let listener = TcpListener::bind(&rt, "127.0.0.1:0")?;
    let port = listener.local_addr()?.port();
    let root = format!(in alloc; "http://localhost:{port}/d/a")?;
    let far = format!(in alloc; "http://127.0.0.1:{port}/b")?;
    let allows = format!(in alloc; "Access-Control-Allow-Origin: http://localhost:{port}\r\n")?;
    let barred = format!(in alloc; "in {root}: may not import env:X\n")?;
    let crossed = format!(in alloc; "in {root}: cross-origin import of {far} refused\n")?;
    let three = ("3\n", Status::Ok);
    let (barred, crossed) = (
        (barred.as_str(), Status::Import),
        (crossed.as_str(), Status::Import),
    );
    let (near, there) = (("GET /d/b ", "", "3"), ("GET /b ", "", "3"));
    let allowing = ("GET /b ", allows.as_str(), "3");
    let rows = [
        ("./b", near, 2, three),
        ("env:X", near, 1, barred),
        (far.as_str(), there, 2, crossed),
        (far.as_str(), allowing, 2, three),
    ];
    for (text, page, count, wanted) in rows {
        let pages = [("GET /d/a ", "", text), page];
        let (served, right) = thread::join(
            &rt,
            || serve(&listener, alloc, &pages, count).is_ok(),
            || {
                let folders = NO_FOLDERS;
                match make_desks(rt, alloc, &folders) {
                    Ok(mut desks) => gives(&rt, alloc, &mut desks, root.as_str(), wanted),
                    Err(_) => false,
                }
            },
        );
        assert!(rt; served, "a text {text}");
        assert!(rt; right, "a text {text}");
    }
    Ok(())
}

/// Answers one request on each of eight connections with the text `3`, and none before all eight are asked, as often as `times` says.
fn serve_eight_at_once(listener: &TcpListener, alloc: Global, times: usize) -> io::Result<()> {
    for _ in 0..times {
        let mut streams = Vec::new(alloc);
        for _ in 0..8 {
            let (mut stream, _) = listener.accept()?;
            let mut request = [0u8; 512];
            let _ = stream.read(&mut request)?;
            streams.push(stream)?;
        }
        for stream in streams.as_mut_slice() {
            stream.write_all(b"HTTP/1.1 200 OK\r\nContent-Length: 1\r\n\r\n3")?;
        }
    }
    Ok(())
}

#[test]
fn eight_workers_ask_a_slow_server_eight_times_at_once(rt: HostRuntime) -> Result<(), Fail> {
    let alloc = rt.alloc();
    let listener = TcpListener::bind(&rt, "127.0.0.1:0")?;
    let port = listener.local_addr()?.port();
    let mut input = String::from_str(alloc, "[")?;
    let mut line = String::from_str(alloc, "[")?;
    for n in 0..64 {
        let comma = if n == 0 { "" } else { "," };
        let item = format!(in alloc; "{comma} http://localhost:{port}/{n}")?;
        input.push_str(item.as_str())?;
        let item = format!(in alloc; "{comma} 3")?;
        line.push_str(item.as_str())?;
    }
    input.push_str(" ]")?;
    line.push_str(" ]\n")?;
    let (served, right) = thread::join(
        &rt,
        || serve_eight_at_once(&listener, alloc, 8).is_ok(),
        || {
            let folders = NO_FOLDERS;
            match make_desks(rt, alloc, &folders) {
                Ok(mut desks) => {
                    let wanted = (line.as_str(), Status::Ok);
                    gives(&rt, alloc, &mut desks, input.as_str(), wanted)
                }
                Err(_) => false,
            }
        },
    );
    assert!(rt; served);
    assert!(rt; right);
    Ok(())
}
