//! The streams of the program: interruptions, ends and failures.

use dh_ports::{Feed, ReadError, Sink, WriteError};
use dh_streams::{Source, Target};
use std::io;
use std::io::{ErrorKind, Read, Write};
use std::test::Fail;

/// A reader that fails, and a writer that takes nothing.
#[derive(Drop)]
struct Broken;

impl Read for Broken {
    fn read(&mut self, _into: &mut [u8]) -> io::Result<usize> {
        Err(io::Error::from(ErrorKind::BrokenPipe))
    }
}

impl Write for Broken {
    fn write(&mut self, _bytes: &[u8]) -> io::Result<usize> {
        Ok(0)
    }

    fn flush(&mut self) -> io::Result<()> {
        Ok(())
    }
}

/// A stream that is interrupted so many times, and then gives or takes one byte.
#[derive(Drop)]
struct Interrupted {
    times: u64,
}

impl Interrupted {
    fn go_on(&mut self) -> io::Result<()> {
        if self.times == 0 {
            return Ok(());
        }
        self.times -= 1;
        Err(io::Error::from(ErrorKind::Interrupted))
    }
}

impl Read for Interrupted {
    fn read(&mut self, into: &mut [u8]) -> io::Result<usize> {
        self.go_on()?;
        if into.is_empty() {
            return Ok(0);
        }
        into[0] = b'7';
        Ok(1)
    }
}

impl Write for Interrupted {
    fn write(&mut self, bytes: &[u8]) -> io::Result<usize> {
        self.go_on()?;
        Ok(bytes.len().min(1))
    }

    fn flush(&mut self) -> io::Result<()> {
        Ok(())
    }
}

#[test]
fn goes_on_after_interruptions(rt: HostRuntime) -> Result<(), Fail> {
    let mut source = Source::new(Interrupted { times: 2 });
    let mut piece = [0u8; 4];
    assert_eq!(rt; source.read(&mut piece), Ok(1));
    assert_eq!(rt; piece, [b'7', 0, 0, 0]);
    let mut target = Target::new(Interrupted { times: 2 });
    assert_eq!(rt; target.write(b"abc"), Ok(1));
    Ok(())
}

#[test]
fn reads_and_fails(rt: HostRuntime) -> Result<(), Fail> {
    let mut source = Source::new(b"1 + 2".as_slice());
    let mut piece = [0u8; 4];
    assert_eq!(rt; source.read(&mut piece), Ok(4));
    assert_eq!(rt; piece.as_slice(), b"1 + ".as_slice());
    assert_eq!(rt; source.read(&mut piece), Ok(1));
    assert_eq!(rt; source.read(&mut piece), Ok(0));
    let mut broken = Source::new(Broken);
    assert_eq!(rt; broken.read(&mut piece), Err(ReadError::Failed));
    Ok(())
}

#[test]
fn writes_and_fails(rt: HostRuntime) -> Result<(), Fail> {
    let mut written = Vec::new(rt.alloc());
    let mut target = Target::new(&mut written);
    assert_eq!(rt; target.write(b"abc"), Ok(3));
    drop(target);
    assert_eq!(rt; written.as_slice(), b"abc".as_slice());
    let mut broken = Target::new(Broken);
    assert_eq!(rt; broken.write(b"abc"), Err(WriteError::Failed));
    assert_eq!(rt; broken.write(b""), Ok(0));
    Ok(())
}
