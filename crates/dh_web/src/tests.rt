//! Texts from servers of the tests' own on loopback.

use crate::{PATIENCE_SECONDS, web_text, web_text_within};
use dh_ports::{DeskError, Got};
use dh_syntax::{Many, Piece, Url};
use std::alloc::{AllocError, Global};
use std::io::{Error, ErrorKind, Read, Write};
use std::net::{IpAddr, Ipv4Addr, Ipv6Addr, Net, SocketAddr, TcpListener};
use std::test::Fail;
use std::time::{Duration, Instant};
use std::{io, thread};

fn url(alloc: Global, port: u16) -> Result<Url, AllocError> {
    let comps = Vec::from_array(alloc, [Piece::new(alloc, "d")?, Piece::new(alloc, "a")?])?;
    Ok(Url {
        host: Piece::of(format!(in alloc; "localhost:{port}")?),
        comps: Many::of(comps),
        query: Some(Piece::new(alloc, "q=1")?),
    })
}

/// The text that was found, or a word in brackets.
fn told(answer: &Result<Got, DeskError>) -> &[u8] {
    match answer {
        Ok(Got::Found(found)) => found.bytes.as_slice(),
        Ok(Got::Absent) => b"(absent)",
        Ok(Got::Broken(0)) => b"(broken)",
        Ok(Got::Broken(_)) => b"(broken with a status)",
        Err(DeskError::Failed) => b"(failed)",
        Err(DeskError::Memory) => b"(memory)",
    }
}

/// What a server writes to one request, whether it then says nothing until the other side closes, and what is told of it.
struct Row {
    reply: &'static [u8],
    is_silent: bool,
    want: &'static [u8],
}

const ROWS: [Row; 12] = [
    Row {
        reply: b"HTTP/1.1 200 OK\r\nContent-Length: 3\r\n\r\n./b",
        is_silent: true,
        want: b"./b",
    },
    Row {
        reply: b"HTTP/1.1 200 OK\r\nTransfer-Encoding: chunked\r\n\r\n1\r\n3\r\n0\r\n\r\n",
        is_silent: true,
        want: b"3",
    },
    Row {
        reply: b"HTTP/1.0 200 OK\n\n3",
        is_silent: false,
        want: b"3",
    },
    Row {
        reply: b"HTTP/1.1 404 Not Found\r\n\r\n",
        is_silent: true,
        want: b"(absent)",
    },
    Row {
        reply: b"HTTP/1.1 302 Found\r\nLocation: /b\r\n\r\n",
        is_silent: true,
        want: b"(broken with a status)",
    },
    Row {
        reply: b"",
        is_silent: false,
        want: b"(broken)",
    },
    Row {
        reply: b"HTTP/1.1 200 OK\r\nContent-Length: 2\r\n\r\n3",
        is_silent: false,
        want: b"(broken)",
    },
    Row {
        reply: b"",
        is_silent: true,
        want: b"(failed)",
    },
    Row {
        reply: b"HTTP/1.1 200 OK\r\nContent-Len",
        is_silent: true,
        want: b"(failed)",
    },
    Row {
        reply: b"HTTP/1.1 200 OK\r\nContent-Length: 2\r\n\r\n3",
        is_silent: true,
        want: b"(failed)",
    },
    Row {
        reply: b"HTTP/1.1 200 OK\r\n\r\n3",
        is_silent: true,
        want: b"(failed)",
    },
    Row {
        reply: b"HTTP/1.1 200 OK\r\nTransfer-Encoding: chunked\r\n\r\n1\r\n3\r\n0\r\n",
        is_silent: true,
        want: b"(failed)",
    },
];

/// Whether a row is one where the other side gives up.
fn is_to_fail(row: &Row) -> bool {
    row.want == b"(failed)".as_slice()
}

/// Answers one request on each connection. Answers whether each was the request of the test's URL.
fn serve(listener: &TcpListener, port: u16, alloc: Global) -> io::Result<bool> {
    let wanted = format!(in alloc;
        "GET /d/a?q=1 HTTP/1.1\r\nHost: localhost:{port}\r\nConnection: close\r\n\r\n"
    )?;
    let mut right = true;
    for row in &ROWS {
        let (mut stream, _) = listener.accept()?;
        let mut request = [0u8; 512];
        let count = stream.read(&mut request)?;
        right = right && request.starts_with(wanted.as_bytes()) && count == wanted.len();
        // On a machine with much to do the other side may have given up before it is answered.
        let written = stream.write_all(row.reply);
        right = right && (written.is_ok() || is_to_fail(row));
        if row.is_silent {
            let _ = stream.read(&mut request);
        }
    }
    Ok(right)
}

/// Whether each of the server's replies gives what is wanted, and whether one that is to fail does so in time.
fn asks(rt: &HostRuntime, url: &Url) -> bool {
    let mut right = true;
    for row in &ROWS {
        let patience = if is_to_fail(row) {
            Duration::from_millis(300)
        } else {
            Duration::from_secs(PATIENCE_SECONDS)
        };
        let answer = web_text_within(rt, rt.alloc(), url, patience);
        right = right && told(&answer) == row.want;
    }
    right
}

#[test]
fn texts_of_servers_that_answer_and_of_silent_ones(rt: HostRuntime) -> Result<(), Fail> {
    let listener = TcpListener::bind(&rt, "127.0.0.1:0")?;
    let port = listener.local_addr()?.port();
    let url = url(rt.alloc(), port)?;
    let begin = Instant::now(&rt)?;
    let (served, asked) = thread::join(
        &rt,
        || matches!(serve(&listener, port, rt.alloc()), Ok(true)),
        || asks(&rt, &url),
    );
    assert!(rt; served);
    assert!(rt; asked);
    // The connection is made, and nobody takes it.
    let answer = web_text_within(&rt, rt.alloc(), &url, Duration::from_millis(300));
    assert!(rt; told(&answer) == b"(failed)".as_slice());
    assert!(rt; begin.elapsed(&rt)?.as_secs() < PATIENCE_SECONDS);
    Ok(())
}

/// A system that knows one name, `h`.
#[derive(Drop)]
struct OneName<'a, R> {
    rt: R,
    /// The addresses of the name. Without any the look-up fails.
    addrs: Option<&'a [IpAddr]>,
    /// The port at which it is dialled: at any other nobody answers.
    port: u16,
    /// The port at which the connection is made instead.
    listener: u16,
}

fn at_port(addr: SocketAddr, port: u16) -> SocketAddr {
    SocketAddr::new(addr.ip(), port)
}

impl<R: Net> Net for OneName<'_, R> {
    type Stream = R::Stream;

    type Listener = R::Listener;

    fn bind(&self, addr: SocketAddr) -> io::Result<R::Listener> {
        self.rt.bind(addr)
    }

    fn connect(&self, addr: SocketAddr) -> io::Result<R::Stream> {
        self.rt.connect(addr)
    }

    fn connect_timeout(&self, addr: SocketAddr, timeout: Duration) -> io::Result<R::Stream> {
        if addr.port() != self.port {
            return Err(Error::from(ErrorKind::ConnectionRefused));
        }
        self.rt
            .connect_timeout(at_port(addr, self.listener), timeout)
    }

    fn lookup_host(&self, host: &str, port: u16, found: &mut [SocketAddr]) -> io::Result<usize> {
        let Some(addrs) = self.addrs else {
            return Err(Error::from(ErrorKind::TimedOut));
        };
        if host != "h" {
            return Ok(0);
        }
        let count = found.len().min(addrs.len());
        for (slot, addr) in found.iter_mut().zip(addrs) {
            *slot = SocketAddr::new(*addr, port);
        }
        Ok(count)
    }
}

const HERE: [IpAddr; 1] = [IpAddr::V4(Ipv4Addr::LOCALHOST)];

/// An address at which nobody listens, and another one.
const BOTH: [IpAddr; 2] = [
    IpAddr::V6(Ipv6Addr::LOCALHOST),
    IpAddr::V4(Ipv4Addr::LOCALHOST),
];

/// A host, the addresses of `h`, and the port at which the host is dialled.
const DIALLED: [(&str, &[IpAddr], u16); 6] = [
    ("h", &HERE, 80),
    ("h:", &HERE, 80),
    ("h:81", &HERE, 81),
    ("h:081", &HERE, 81),
    ("h:65535", &BOTH, 65535),
    ("127.0.0.1", &HERE, 80),
];

/// Answers so many requests with the text `3`.
fn serve_each(listener: &TcpListener, count: usize) -> io::Result<()> {
    for _ in 0..count {
        let (mut stream, _) = listener.accept()?;
        let mut request = [0u8; 512];
        let _ = stream.read(&mut request)?;
        stream.write_all(b"HTTP/1.1 200 OK\r\nContent-Length: 1\r\n\r\n3")?;
    }
    Ok(())
}

/// Whether this is told of the text at a host.
fn is_told<R: Net>(rt: &R, alloc: Global, host: &str, want: &[u8]) -> Result<bool, AllocError> {
    let mut url = url(alloc, 0)?;
    url.host = Piece::new(alloc, host)?;
    Ok(told(&web_text(rt, alloc, &url)) == want)
}

/// Whether the text at each host is found where it is dialled.
fn finds_each(rt: HostRuntime, listener: u16) -> Result<bool, AllocError> {
    let mut right = true;
    for (host, addrs, port) in DIALLED {
        let net = OneName {
            rt,
            addrs: Some(addrs),
            port,
            listener,
        };
        let is_right = is_told(&net, rt.alloc(), host, b"3")?;
        right = right && is_right;
    }
    Ok(right)
}

#[test]
fn hosts_are_dialled_at_their_ports_and_addresses(rt: HostRuntime) -> Result<(), Fail> {
    let listener = TcpListener::bind(&rt, "127.0.0.1:0")?;
    let port = listener.local_addr()?.port();
    let (served, asked) = thread::join(
        &rt,
        || serve_each(&listener, DIALLED.len()).is_ok(),
        || matches!(finds_each(rt, port), Ok(true)),
    );
    assert!(rt; served);
    assert!(rt; asked);
    Ok(())
}

/// Hosts that are dialled nowhere, and the addresses of `h`: without any the look-up fails.
const UNDIALLED: [(&str, Option<&[IpAddr]>); 10] = [
    ("h:65536", Some(&HERE)),
    ("h:+80", Some(&HERE)),
    ("h:-80", Some(&HERE)),
    ("h:80x", Some(&HERE)),
    ("h:80:80", Some(&HERE)),
    ("h: 80", Some(&HERE)),
    ("g", Some(&HERE)),
    ("h", Some(&[])),
    ("h", None),
    ("h:80", None),
];

#[test]
fn hosts_without_a_port_or_an_address_fail(rt: HostRuntime) -> Result<(), Fail> {
    let listener = TcpListener::bind(&rt, "127.0.0.1:0")?;
    for (host, addrs) in UNDIALLED {
        let net = OneName {
            rt,
            addrs,
            port: 80,
            listener: listener.local_addr()?.port(),
        };
        assert!(rt; is_told(&net, rt.alloc(), host, b"(failed)")?);
    }
    // No connection was made.
    listener.set_nonblocking(true)?;
    assert!(rt; listener.accept().is_err());
    // Nobody listens at port 1.
    assert!(rt; is_told(&rt, rt.alloc(), "localhost:1", b"(failed)")?);
    Ok(())
}
