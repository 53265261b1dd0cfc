//! Connections to hosts.

ghost use Rattle.std.specs.Prelude.{◌≡◌, ◌↔◌};
ghost use Rattle.std.specs.IoError.{error_kind};

use crate::addresses::address_of;
use dh_ports::DeskError;
use std::io;
use std::io::{Error, ErrorKind};
use std::net::{Net, OpenStream, SocketAddr, TcpStream, ToSocketAddrs};
use std::time::Duration;

/// How many seconds a peer may be silent: while it is dialled, at each address of its host, and in each receive and each send.
pub const PATIENCE_SECONDS: u64 = 30;

/// The fault of a connection that ended in an error: want of memory, or else a failed device.
fn fault_of(error: &Error) -> DeskError
    ensures memory { (result ≡ DeskError.Memory) ↔ (error_kind error.now ≡ ErrorKind.OutOfMemory) }
{
    match error.kind() {
        ErrorKind::OutOfMemory => DeskError::Memory,
        _ => DeskError::Failed,
    }
}

/// A connection to an address, on which no call waits for longer than this.
fn dial_address<R: Net>(rt: &R, address: &SocketAddr, patience: Duration) -> io::Result<R::Stream> {
    let stream = TcpStream::connect_timeout(rt, address, patience)?;
    stream.set_read_timeout(Some(patience))?;
    stream.set_write_timeout(Some(patience))?;
    Ok(stream)
}

/// A connection to the first address of a name that answers, or the error of the last one.
fn dial_name<R: Net>(rt: &R, name: &str, port: u16, patience: Duration) -> io::Result<R::Stream> {
    let mut last = Error::from(ErrorKind::NotFound);
    for address in (name, port).to_socket_addrs(rt)? {
        match dial_address(rt, &address, patience) {
            Ok(stream) => return Ok(stream),
            Err(error) => last = error,
        }
    }
    Err(last)
}

/// A connection to a host, on which no call waits for longer than this.
pub(crate) fn dial<R: Net>(rt: &R, host: &str, patience: Duration) -> Result<R::Stream, DeskError> {
    let Some((name, port)) = address_of(host) else {
        return Err(DeskError::Failed);
    };
    match dial_name(rt, name, port, patience) {
        Ok(stream) => Ok(stream),
        Err(error) => Err(fault_of(&error)),
    }
}
