//! Tables of locations whose answers are worked out by hand.

use crate::{canon, chain, cors, loc_text, sane};
use dh_syntax::{Bytes, Comps, Loc, Many, Mode, Piece, Url};
use std::alloc::{AllocError, Global};
use std::test::Fail;

/// The components between the slashes of a text, without their quotes.
fn comps(alloc: Global, text: &str) -> Result<Comps, AllocError> {
    let mut done = Many::new(alloc);
    for part in text.split('/') {
        done.push(Piece::new(alloc, part.trim_matches('"'))?)?;
    }
    Ok(done)
}

fn url(alloc: Global, text: &str) -> Result<Url, AllocError> {
    let (text, query) = match text.split_once('?') {
        Some((text, query)) => (text, Some(Piece::new(alloc, query)?)),
        None => (text, None),
    };
    let (host, path) = match text.split_once('/') {
        Some((host, path)) => (host, path),
        None => (text, ""),
    };
    Ok(Url {
        host: Piece::new(alloc, host)?,
        comps: comps(alloc, path)?,
        query,
    })
}

/// The location that a text spells.
fn location(alloc: Global, text: &str) -> Result<Loc, AllocError> {
    if let Some(rest) = text.strip_prefix("http://") {
        return Ok(Loc::Http(url(alloc, rest)?));
    }
    if let Some(rest) = text.strip_prefix("https://") {
        return Ok(Loc::Https(url(alloc, rest)?));
    }
    if let Some(name) = text.strip_prefix("env:") {
        return Ok(Loc::Env(Piece::new(alloc, name.trim_matches('"'))?));
    }
    local(alloc, text)
}

fn local(alloc: Global, text: &str) -> Result<Loc, AllocError> {
    match text.split_once('/') {
        Some(("", path)) => Ok(Loc::Abs(comps(alloc, path)?)),
        Some((".", path)) => Ok(Loc::Here(comps(alloc, path)?)),
        Some(("..", path)) => Ok(Loc::Parent(comps(alloc, path)?)),
        Some(("~", path)) => Ok(Loc::Home(comps(alloc, path)?)),
        _ => Ok(Loc::Missing),
    }
}

fn parent(alloc: Global, text: &str) -> Result<Option<Loc>, AllocError> {
    if text.is_empty() {
        return Ok(None);
    }
    Ok(Some(location(alloc, text)?))
}

#[test]
fn locations_become_canonical(rt: HostRuntime) -> Result<(), Fail> {
    let rows = [
        ("/a/b", "/a/b"),
        ("/a/./b", "/a/b"),
        ("/a/../b", "/b"),
        ("/a/b/../../c/./d", "/c/d"),
        ("/../a", "/../a"),
        ("/a/../../b", "/../b"),
        ("/a/..", "/a/.."),
        ("~/../a", "~/../a"),
        ("./../p", "../p"),
        ("../p", "../p"),
        ("./a/../../../b", "../../b"),
        ("./..", "./.."),
        ("../a/../b", "../b"),
        ("http://h/a/../b?q", "http://h/b?q"),
        ("https://h/./x", "https://h/x"),
        ("env:X", "env:X"),
        ("missing", "missing"),
    ];
    for (text, want) in rows {
        let mut loc = location(rt.alloc(), text)?;
        canon(&mut loc);
        let got = loc_text(rt.alloc(), &loc)?;
        assert_eq!(rt; got.as_str(), want, "at {text}");
    }
    Ok(())
}

#[test]
fn children_are_chained(rt: HostRuntime) -> Result<(), Fail> {
    let rows = [
        ("http://h/d/a", "./\"x y\"", "http://h/d/x%20y"),
        ("http://h/d/a?q=1", "./b", "http://h/d/b"),
        ("https://h/d/a", "./100%", "https://h/d/100%25"),
        ("https://h/%7e/a", "./\"%7e\"", "https://h/%7e/%257e"),
        ("https://h/d/a", "./a|b^`", "https://h/d/a%7Cb%5E%60"),
        (
            "https://h/d/a",
            "../-._~!$&'*+;=:@",
            "https://h/-._~!$&'*+;=:@",
        ),
        ("https://h/a", "../b", "https://h/../b"),
        ("https://h", "./b", "https://h/b"),
        ("./p/q", "../r", "./r"),
        ("./q", "../r", "../r"),
        ("../q", "../r", "../../r"),
        ("../a/q", "./r", "../a/r"),
        ("/p/q", "./r/./s", "/p/r/s"),
        ("~/p/q", "../r", "~/r"),
        ("", "./../p", "../p"),
        ("env:X", "./a/../p", "./p"),
        ("missing", "./p", "./p"),
        ("http://h/d/a", "https://k/./b?q", "https://k/b?q"),
        ("http://h/d/a", "env:X", "env:X"),
        ("./a/b", "/c/./d", "/c/d"),
        ("./a/b", "~/c", "~/c"),
        ("./a/b", "missing", "missing"),
    ];
    for (at, child, want) in rows {
        let parent = parent(rt.alloc(), at)?;
        let child = location(rt.alloc(), child)?;
        let loc = chain(rt.alloc(), parent.as_ref(), &child)?;
        let got = loc_text(rt.alloc(), &loc)?;
        assert_eq!(rt; got.as_str(), want, "in {at}");
    }
    Ok(())
}

#[test]
fn texts_from_the_web_look_at_the_web(rt: HostRuntime) -> Result<(), Fail> {
    let rows = [
        ("http://h/a", "env:X", Mode::Code, false),
        ("http://h/a", "/b", Mode::Code, false),
        ("https://h/a", "~/b", Mode::Text, false),
        ("https://h/a", "env:X", Mode::Text, false),
        ("http://h/a", "env:X", Mode::Location, true),
        ("https://h/a", "/b", Mode::Location, true),
        ("http://h/a", "~/b", Mode::Location, true),
        ("http://h/a", "https://k/b", Mode::Code, true),
        ("http://h/a", "./b", Mode::Code, true),
        ("http://h/a", "missing", Mode::Code, true),
        ("./a", "env:X", Mode::Code, true),
        ("env:Y", "/b", Mode::Text, true),
        ("", "~/b", Mode::Code, true),
    ];
    for (at, child, mode, want) in rows {
        let parent = parent(rt.alloc(), at)?;
        let loc = location(rt.alloc(), child)?;
        assert_eq!(rt; sane(parent.as_ref(), &loc, mode), want, "{child} in {at}");
    }
    Ok(())
}

#[test]
fn other_origins_must_be_allowed(rt: HostRuntime) -> Result<(), Fail> {
    let rows = [
        ("http://h/d/a", "http://k/b", "", false),
        ("http://h/d/a", "http://k/b", "*", true),
        ("http://h/d/a", "http://k/b", "http://h", true),
        ("http://h/d/a", "http://k/b", "https://h", false),
        ("http://h/d/a", "http://k/b", "http://h/", false),
        ("http://h/d/a", "http://k/b", "http://k", false),
        ("http://h/d/a", "http://k/b", "h", false),
        ("http://h/d/a", "https://h/b", "", false),
        ("https://h/d/a", "http://h/b", "https://h", true),
        ("http://h:80/a", "http://h/b", "", false),
        ("http://h/d/a", "http://h/b?q", "", true),
        ("https://h/d/a", "https://h", "", true),
        ("./a", "http://k/b", "", true),
        ("http://h/d/a", "env:X", "", true),
        ("", "http://k/b", "", true),
    ];
    for (at, child, allowed, want) in rows {
        let parent = parent(rt.alloc(), at)?;
        let loc = location(rt.alloc(), child)?;
        let allow = Bytes::of(Vec::from_slice(rt.alloc(), allowed.as_bytes())?);
        assert_eq!(rt;
            cors(parent.as_ref(), &loc, Some(&allow)),
            want,
            "{child} in {at} by {allowed}"
        );
    }
    let parent = location(rt.alloc(), "http://h/a")?;
    let child = location(rt.alloc(), "http://k/b")?;
    assert_eq!(rt; cors(Some(&parent), &child, None), false);
    assert_eq!(rt; cors(Some(&parent), &parent, None), true);
    Ok(())
}

#[test]
fn locations_have_one_text(rt: HostRuntime) -> Result<(), Fail> {
    let rows = [
        ("/a/b", "/a/b"),
        ("./a/\"b\"", "./a/b"),
        ("../a", "../a"),
        ("~/.x/a", "~/.x/a"),
        ("./\"x y\"/a", "./\"x y\"/a"),
        (
            "./\"a,b\"/\"#\"/\"(\"/\"\\\"",
            "./\"a,b\"/\"#\"/\"(\"/\"\\\"",
        ),
        ("/\"é\"", "/\"é\""),
        ("/!$%&'*+-.09:;=@AZ^_`az|~", "/!$%&'*+-.09:;=@AZ^_`az|~"),
        ("http://h", "http://h/"),
        ("http://h:80/a%20b?x=1&y", "http://h:80/a%20b?x=1&y"),
        ("https://a.b//c?", "https://a.b//c?"),
        ("env:_x1", "env:_x1"),
        ("env:\"X\"", "env:X"),
        ("env:\"1X\"", "env:\"1X\""),
        ("env:\"a b\"", "env:\"a b\""),
        ("env:\"a-b\"", "env:\"a-b\""),
        ("missing", "missing"),
    ];
    for (text, want) in rows {
        let loc = location(rt.alloc(), text)?;
        let got = loc_text(rt.alloc(), &loc)?;
        assert_eq!(rt; got.as_str(), want, "at {text}");
    }
    Ok(())
}
