//! Runs in a world that tells what it has: there the clauses of the command say which answer comes.

ghost use Rattle.std.specs.Prelude.{◌≡◌, Some, All, IfOk, map, string_bytes};
ghost use Rattle.dh_ports.specs.Desks.{IsShort};
ghost use Rattle.dh_streams.specs.Streams.{reading, output};
ghost use Rattle.dh_command_tests.specs.Worlds.{RunsOver};

use dh_command::Status;
use dh_parse::parse;
use dh_ports::{
    Cache, Content, Contents, DeskFails, Found, Got, ListWorld, Listed, MemDesk, MemFeed, MemSink,
    OpenGate, are_short,
};
use dh_syntax::{Bytes, Expr, Loc, Many, Op};
use dh_top::run_dhall;
use std::alloc::{AllocError, Global};
use std::marker::Brand;
use std::sync::Wait;
use std::test::Fail;
use std::thread::Threads;

/// Runs the command by one desk over the lists of a type.
fn run_over<R: Threads + Wait + Sync, L: Listed + Send + Sync>(
    rt: &R,
    alloc: Global,
    words: &[String],
    contents: Contents,
    cache: Cache,
    input: &mut MemFeed,
    out: &mut MemSink,
    err: &mut MemSink,
) -> Result<Status, AllocError>
    requires short { All (λ c. IsShort c.got) contents }
    requires contents { contents ≡ L.contents }
    requires cache { cache ≡ L.cache }
    ensures { IfOk result (λ status. RunsOver (map string_bytes words.now) L.contents L.cache
        (reading (Some input.old.left) (Some input.new.left) input.old.faults input.new.faults)
        (output (Some out.old.written) (Some out.new.written) out.old.faults out.new.faults)
        (output (Some err.old.written) (Some err.new.written) err.old.faults err.new.faults) status) }
{
    let fails = DeskFails {
        fetch: Many::new(alloc),
        look: Many::new(alloc),
        keep: Many::new(alloc),
    };
    let desk = MemDesk::<ListWorld<L>>::over_lists(alloc, contents, cache, fails);
    let mut desks = Vec::from_array(alloc, [desk])?;
    Ok(run_dhall::<R, ListWorld<L>, MemDesk<ListWorld<L>>, MemFeed, MemSink, MemSink, OpenGate>(
        rt, alloc, words, &mut desks, input, out, err, &OpenGate,
    ))
}

/// Runs the command by one desk over these lists.
fn run_in<R: Threads + Wait + Sync>(
    rt: &R,
    alloc: Global,
    words: &[String],
    contents: Contents,
    cache: Cache,
    input: &mut MemFeed,
    out: &mut MemSink,
    err: &mut MemSink,
) -> Result<Status, AllocError>
    requires { All (λ c. IsShort c.got) contents }
    ensures { IfOk result (λ status. RunsOver (map string_bytes words.now) contents cache
        (reading (Some input.old.left) (Some input.new.left) input.old.faults input.new.faults)
        (output (Some out.old.written) (Some out.new.written) out.old.faults out.new.faults)
        (output (Some err.old.written) (Some err.new.written) err.old.faults err.new.faults) status) }
{
    run_over::<R, Brand>(rt, alloc, words, contents, cache, input, out, err)
}

fn bytes_of(alloc: Global, text: &str) -> Result<Bytes, AllocError> {
    Ok(Bytes::of(Vec::from_slice(alloc, text.as_bytes())?))
}

/// The location that a text spells.
fn loc_of(alloc: Global, text: &str) -> Result<Loc, Fail> {
    let Ok(e) = parse(alloc, text.as_bytes()) else {
        return Err(Fail::from("no expression"));
    };
    match &e {
        Expr::Node(Op::Import(import), _) => Ok(import.get().loc.copied(alloc)?),
        _ => Err(Fail::from("no location")),
    }
}

/// All that there is: the text `1` at `./a`, and one that imports it at `./b`.
fn contents(alloc: Global) -> Result<Contents, Fail> {
    let mut contents = Many::new(alloc);
    for (loc, text) in [("./a", "1"), ("./b", "./a + 1")] {
        let bytes = bytes_of(alloc, text)?;
        let got = Got::Found(Found { bytes, allow: None });
        let loc = loc_of(alloc, loc)?;
        contents.push(Content { loc, got })?;
    }
    Ok(contents)
}

#[test]
fn the_answer_is_that_over_what_the_world_tells(rt: HostRuntime) -> Result<(), Fail> {
    for (text, out, err, status) in [
        ("./a", "1\n", "", Status::Ok),
        ("./a + ./b", "3\n", "", Status::Ok),
        ("./c ? ./b", "2\n", "", Status::Ok),
        ("./c", "", "in ./c: absent\n", Status::Import),
    ] {
        let alloc = rt.alloc();
        let contents = contents(alloc)?;
        if !are_short(&contents) {
            return Err(Fail::from("a text that is too long"));
        }
        let mut words = Vec::new(alloc);
        words.push(String::from_str(alloc, "normalize")?)?;
        let mut input = MemFeed::new(alloc, bytes_of(alloc, text)?, Many::new(alloc));
        let mut written = MemSink::new(alloc, Many::new(alloc));
        let mut told = MemSink::new(alloc, Many::new(alloc));
        let words = words.as_slice();
        let cache = Many::new(alloc);
        let ended = run_in(
            &rt,
            alloc,
            words,
            contents,
            cache,
            &mut input,
            &mut written,
            &mut told,
        )?;
        assert_eq!(rt; written.written_bytes(), out.as_bytes());
        assert_eq!(rt; told.written_bytes(), err.as_bytes());
        assert_eq!(rt; ended, status);
    }
    Ok(())
}
