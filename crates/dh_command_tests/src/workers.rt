//! That as many workers are at work at once as the words ask for.

use dh_command::Status;
use dh_parse::parse;
use dh_ports::{
    Content, DeskFails, Found, Got, HoldGate, MemDesk, MemFeed, MemSink, Silent, are_short,
};
use dh_syntax::{Bytes, Expr, Loc, Many, Op};
use dh_top::run_dhall;
use std::alloc::{AllocError, Global};
use std::process::Abort;
use std::sync::Wait;
use std::test::Fail;
use std::thread::Threads;

/// Locations, each with its text.
const TOWER: [(&str, &str); 4] = [
    ("./top", "./l + ./r"),
    ("./l", "./foot + 1"),
    ("./r", "./foot + 2"),
    ("./foot", "10"),
];

fn bytes_of(alloc: Global, text: &str) -> Result<Bytes, AllocError> {
    Ok(Bytes::of(Vec::from_slice(alloc, text.as_bytes())?))
}

/// The location that a text spells.
fn loc_of(alloc: Global, text: &str) -> Result<Loc, Fail> {
    let Ok(e) = parse(alloc, text.as_bytes()) else {
        return Err(Fail::from("no expression"));
    };
    match &e {
        Expr::Node(Op::Import(import), _) => Ok(import.get().loc.copied(alloc)?),
        _ => Err(Fail::from("no location")),
    }
}

/// A desk over the texts of the tower.
fn desk(alloc: Global) -> Result<MemDesk, Fail> {
    let mut contents = Many::new(alloc);
    for (loc, text) in TOWER {
        let bytes = bytes_of(alloc, text)?;
        let got = Got::Found(Found { bytes, allow: None });
        let loc = loc_of(alloc, loc)?;
        contents.push(Content { loc, got })?;
    }
    let fails = DeskFails {
        fetch: Many::new(alloc),
        look: Many::new(alloc),
        keep: Many::new(alloc),
    };
    if !are_short(&contents) {
        return Err(Fail::from("a text that is too long"));
    }
    Ok(MemDesk::new(alloc, contents, Many::new(alloc), fails))
}

/// The words of `normalize` with so many workers.
fn words(alloc: Global, workers: &str) -> Result<Vec<String>, AllocError> {
    let mut words = Vec::new(alloc);
    for word in ["normalize", "--workers", workers] {
        words.push(String::from_str(alloc, word)?)?;
    }
    Ok(words)
}

/// The normal form of the tower, by so many workers, where a gate holds the fetch of one location until that of another was reached:
/// whether the gate gave up.
fn held_in_vain<R: Threads + Wait + Sync + Abort + Eprint>(
    rt: &R,
    alloc: Global,
    workers: &str,
    held: &str,
    other: &str,
) -> Result<bool, Fail> {
    let gate = HoldGate::new(loc_of(alloc, held)?, loc_of(alloc, other)?);
    let words = words(alloc, workers)?;
    let mut desks = vec![in alloc; desk(alloc)?, desk(alloc)?]?;
    let mut input = MemFeed::new(alloc, bytes_of(alloc, "./top")?, Many::new(alloc));
    let mut out = MemSink::new(alloc, Many::new(alloc));
    let mut err = MemSink::new(alloc, Many::new(alloc));
    let words = words.as_slice();
    let status = run_dhall::<R, Silent, MemDesk, MemFeed, MemSink, MemSink, HoldGate>(
        rt, alloc, words, &mut desks, &mut input, &mut out, &mut err, &gate,
    );
    assert_eq!(rt; out.written_bytes(), b"23\n".as_slice());
    assert_eq!(rt; err.written_bytes(), b"".as_slice());
    assert_eq!(rt; status, Status::Ok);
    Ok(gate.gave_up())
}

#[test]
fn two_texts_are_under_way_at_once(rt: HostRuntime) -> Result<(), Fail> {
    // Whichever of the two one worker fetches first is held in vain.
    for (workers, in_vain) in [("2", false), ("1", true)] {
        let left = held_in_vain(&rt, rt.alloc(), workers, "./l", "./r")?;
        let right = held_in_vain(&rt, rt.alloc(), workers, "./r", "./l")?;
        assert_eq!(rt; left || right, in_vain);
    }
    Ok(())
}
