//! Texts and their tokens or faults, worked out by hand.

use crate::LexFault::{Bad, Out, Wide};
use crate::{LexFault, Tokens, tokens};
use dh_syntax::TokenKind;
use std::alloc::{AllocError, Global};
use std::test::Fail;

/// What a token is: a name, a number and `${` as they are written, the characters of a text between brackets.
fn kind_text(alloc: Global, kind: &TokenKind) -> Result<String, AllocError> {
    match kind {
        TokenKind::Name(name) => String::from_str(alloc, name.as_str()),
        TokenKind::Quoted(name) => format!(in alloc; "`{}`", name.as_str()),
        TokenKind::Natural(n) => format!(in alloc; "{n}"),
        TokenKind::Integer(n) => format!(in alloc; "{n:+}"),
        TokenKind::TextPiece(text) => format!(in alloc; "[{}]", text.as_str()),
        TokenKind::InterpolationOpen => String::from_str(alloc, "${"),
        TokenKind::InterpolationClose => String::from_str(alloc, "}"),
        TokenKind::Environment(name) => format!(in alloc; "env:{}", name.as_str()),
        TokenKind::Mark(mark) => format!(in alloc; "{mark:?}"),
        _ => format!(in alloc; "{kind:?}"),
    }
}

fn read(alloc: Global, text: &str) -> Result<Tokens, LexFault> {
    if text.len() >= 1 << 32 {
        return Err(LexFault::Memory);
    }
    tokens(alloc, text)
}

/// The tokens, each behind a space where it has a gap and behind `|` where it has none, with the offsets where it
/// begins and ends.
fn placed(alloc: Global, text: &str) -> Result<String, LexFault> {
    let mut out = String::new(alloc);
    for token in read(alloc, text)?.as_slice() {
        let kind = kind_text(alloc, &token.kind)?;
        let mark = if token.gap { " " } else { "|" };
        let one = format!(in alloc; "{mark}{}:{}-{}", kind.as_str(), token.from, token.to)?;
        out.push_str(one.as_str())?;
    }
    Ok(out)
}

/// The tokens without their offsets.
fn unplaced(alloc: Global, text: &str) -> Result<String, LexFault> {
    let mut out = String::new(alloc);
    for token in read(alloc, text)?.as_slice() {
        let kind = kind_text(alloc, &token.kind)?;
        out.push_str(if token.gap { " " } else { "|" })?;
        out.push_str(kind.as_str())?;
    }
    Ok(out)
}

#[test]
fn tokens_have_places_and_gaps(rt: HostRuntime) -> Result<(), Fail> {
    let rows = [
        ("", " End:0-0"),
        (" \t\n\r\n", " End:5-5"),
        ("1 +2", " 1:0-1 +2:2-4|End:4-4"),
        ("1+2", " 1:0-1|+2:1-3|End:3-3"),
        ("007", " 0:0-1|0:1-2|7:2-3|End:3-3"),
        ("a`b`c", " a:0-1|`b`:1-4|c:4-5|End:5-5"),
        (
            "x  (y)",
            " x:0-1 ParenOpen:3-4|y:4-5|ParenClose:5-6|End:6-6",
        ),
        ("λ→x", " Lambda:0-2|Arrow:2-5|x:5-6|End:6-6"),
        ("1--é \t-\n2 -- x", " 1:0-1 2:9-10 End:15-15"),
        ("1 --\r\n2", " 1:0-1 2:6-7|End:7-7"),
        (
            "1{- a {- é\r\n -} - } \t-}2{--}",
            " 1:0-1 2:24-25 End:29-29",
        ),
        ("#!/bin/é\n#!\r\n1", " 1:14-15|End:15-15"),
        ("#! x", " End:4-4"),
        (
            "\"a ${ x} b\"",
            " TextOpen(DoubleQuoted):0-1|[a ]:1-3|${:3-5 x:6-7|}:7-8|[ b]:8-10|TextClose:10-11|End:11-11",
        ),
        (
            "''\r\nλ''",
            " TextOpen(MultiLine):0-4|[λ]:4-6|TextClose:6-8|End:8-8",
        ),
    ];
    for (text, want) in rows {
        let got = placed(rt.alloc(), text)?;
        assert_eq!(rt; got.as_str(), want, "at {text}");
    }
    Ok(())
}

#[test]
fn tokens_have_their_values(rt: HostRuntime) -> Result<(), Fail> {
    let rows = [
        (
            "if then_ Natural/fold True forall",
            " Keyword(If) then_ Builtin(NaturalFold) Bool(true) Forall|End",
        ),
        ("`` `if` `\"${\\`", " `` `if` `\"${\\`|End"),
        ("0 0xfF +0 -0x1F", " 0 255 +0 -31|End"),
        (
            "340282366920938463463374607431768211455",
            " 340282366920938463463374607431768211455|End",
        ),
        (
            "-170141183460469231731687303715884105728",
            " -170141183460469231731687303715884105728|End",
        ),
        (
            "x@2147483647 1@2147483648",
            " x|At|2147483647 1|At|2147483648|End",
        ),
        (
            "/\\ //\\\\ === +++1 x--y",
            " Operator(Combine) Operator(CombineTypes) Operator(Equivalent) Operator(TextAppend)|+1 x--y|End",
        ),
        ("\"\"", " TextOpen(DoubleQuoted)|TextClose|End"),
        (
            "\"\\u0041\\u{1F600}\\n\\${x} $ ${y}\"",
            " TextOpen(DoubleQuoted)|[A😀\n${x} $ ]|${|y|}|TextClose|End",
        ),
        (
            "\"${ { a = {=} } }}\"",
            " TextOpen(DoubleQuoted)|${ BraceOpen a Equals BraceOpen|Equals|BraceClose BraceClose }|[}]|TextClose|End",
        ),
        (
            "''\n  a\n    b\n  ''",
            " TextOpen(MultiLine)|[  a\n    b\n  ]|TextClose|End",
        ),
        (
            "''\na'''b''${c}\r\n''",
            " TextOpen(MultiLine)|[a''b${c}\n]|TextClose|End",
        ),
        ("env:X env:\"a b\"", " env:X env:a b|End"),
        (
            "./\"a b\"/c",
            " Path(Here(Many { items: [Piece { text: \"a b\" }, Piece { text: \"c\" }] }))|End",
        ),
        (
            "http://h:80?q",
            " Url(Http(Url { host: Piece { text: \"h:80\" }, comps: Many { items: [Piece { text: \"\" }] }, query: Some(Piece { text: \"q\" }) }))|End",
        ),
    ];
    for (text, want) in rows {
        let got = unplaced(rt.alloc(), text)?;
        assert_eq!(rt; got.as_str(), want, "at {text}");
    }
    Ok(())
}

#[test]
fn forms_that_are_no_tokens_are_faults(rt: HostRuntime) -> Result<(), Fail> {
    let rows = [
        ("x & y", Bad(2)),
        ("x\u{b}", Bad(1)),
        ("x\ry", Bad(1)),
        ("--\u{fffe}", Bad(2)),
        ("`a", Bad(0)),
        ("./a/", Bad(3)),
        ("env:\"a", Bad(4)),
        ("x sha256:0a", Bad(2)),
        ("http://h/%4", Bad(9)),
        (" #!x", Bad(2)),
        ("340282366920938463463374607431768211456", Wide(0)),
        ("+170141183460469231731687303715884105728", Wide(0)),
        ("x@2147483648", Wide(2)),
        ("x {- y -} @ -- z\n2147483648", Wide(17)),
        ("x@2147483648e5", Out(2)),
        ("1.5", Out(0)),
        ("00.5", Out(1)),
        ("-1e+5", Out(0)),
        ("2020-01-02", Out(0)),
        ("12:30", Out(0)),
        ("0b1", Out(0)),
        ("-Infinity", Out(0)),
        ("x as Bytes", Out(5)),
        ("http://u@h", Out(0)),
        ("env:\"a\\", Out(0)),
        ("xé", Out(1)),
    ];
    for (text, want) in rows {
        assert_eq!(rt; read(rt.alloc(), text).err(), Some(want), "at {text}");
    }
    Ok(())
}

#[test]
fn what_is_not_closed_is_a_fault_at_the_outermost_text(rt: HostRuntime) -> Result<(), Fail> {
    let rows = [
        ("{- x", Bad(0)),
        (" {- a {- b -}", Bad(1)),
        ("{- \u{1}", Bad(3)),
        ("1 \"", Bad(2)),
        ("\"${ x }", Bad(0)),
        ("''\n'''", Bad(0)),
        ("\"a\" \"${''\nb", Bad(4)),
        ("\"${ \"${ {- x", Bad(0)),
        ("\"${ {} -- \"", Bad(0)),
        ("\"\\q\"", Bad(1)),
        ("\"\\ud800\"", Bad(1)),
        ("\"ab\\x41", Bad(3)),
        ("\"a\n\"", Bad(2)),
        ("''\n\r''", Bad(3)),
        ("\"${\"\\q", Bad(4)),
        ("\"${ 1.5", Out(4)),
        ("\"${ x@2147483648", Wide(6)),
    ];
    for (text, want) in rows {
        assert_eq!(rt; read(rt.alloc(), text).err(), Some(want), "at {text}");
    }
    Ok(())
}
