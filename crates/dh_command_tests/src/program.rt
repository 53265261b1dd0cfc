//! Whole runs of the program, over desks and streams of its own.

use dh_ports::{DeskFails, Feed, MemDesk, MemFeed, MemSink, OpenGate, Silent, Sink, are_short};
use dh_streams::{Source, Target};
use dh_syntax::{Bytes, Many};
use dh_top::run_program;
use std::alloc::{AllocError, Global};
use std::env::Args;
use std::io;
use std::io::ErrorKind;
use std::process::ExitCode;
use std::sync::Wait;
use std::test::Fail;
use std::thread::Threads;

fn args_of(alloc: Global, words: &[&str]) -> Result<Args, AllocError> {
    let mut args = Vec::new(alloc);
    for word in words {
        args.push(String::from_str(alloc, word)?)?;
    }
    Ok(args.into_iter())
}

/// Runs the program with one desk, outside of which nothing is.
fn run<R: Threads + Wait + Sync, I: Feed, O: Sink, E: Sink>(
    rt: &R,
    alloc: Global,
    args: io::Result<Args>,
    input: &mut I,
    out: &mut O,
    err: &mut E,
) -> Result<ExitCode, AllocError> {
    let fails = DeskFails {
        fetch: Many::new(alloc),
        look: Many::new(alloc),
        keep: Many::new(alloc),
    };
    let contents = Many::new(alloc);
    if !are_short(&contents) {
        return Err(AllocError);
    }
    let mut desks = vec![in alloc; MemDesk::new(alloc, contents, Many::new(alloc), fails)]?;
    if desks.is_empty() {
        return Err(AllocError);
    }
    Ok(run_program::<R, Silent, MemDesk, I, O, E, OpenGate>(
        rt, alloc, args, &mut desks, &OpenGate, input, out, err,
    ))
}

#[test]
fn words_and_streams_are_those_of_the_program(rt: HostRuntime) -> Result<(), Fail> {
    let rows: [(&[&str], &[u8], &str, u8); 5] = [
        (&["dhall", "encode"], &[0x82, 15, 7], "", 0),
        (&["dhall", "resolve"], b"7\n", "", 0),
        (&["encode", "dhall"], b"", "usage: word 1\n", 5),
        (&["dhall"], b"", "usage: word 1\n", 5),
        (&[], b"", "usage: word 1\n", 5),
    ];
    for (words, out, err, status) in rows {
        let alloc = rt.alloc();
        let (mut written, mut told) = (Vec::new(alloc), Vec::new(alloc));
        let code = run(
            &rt,
            alloc,
            Ok(args_of(alloc, words)?),
            &mut Source::new(b"7".as_slice()),
            &mut Target::new(&mut written),
            &mut Target::new(&mut told),
        )?;
        assert_eq!(rt; written.as_slice(), out);
        assert_eq!(rt; told.as_slice(), err.as_bytes());
        assert_eq!(rt; code, ExitCode::from(status));
    }
    Ok(())
}

#[test]
fn words_that_are_not_told(rt: HostRuntime) -> Result<(), Fail> {
    let rows = [
        (ErrorKind::InvalidData, "usage: word 1\n", 5),
        (ErrorKind::OutOfMemory, "out of memory\n", 9),
    ];
    for (kind, line, status) in rows {
        let alloc = rt.alloc();
        let bytes = Bytes::of(Vec::from_slice(alloc, b"7")?);
        let mut input = MemFeed::new(alloc, bytes, Many::new(alloc));
        let mut out = MemSink::new(alloc, Many::new(alloc));
        let mut err = MemSink::new(alloc, Many::new(alloc));
        let args = Err(io::Error::from(kind));
        let code = run(&rt, alloc, args, &mut input, &mut out, &mut err)?;
        assert_eq!(rt; out.written_bytes(), b"".as_slice());
        assert_eq!(rt; err.written_bytes(), line.as_bytes());
        assert_eq!(rt; code, ExitCode::from(status));
    }
    Ok(())
}
