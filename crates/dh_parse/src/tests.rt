//! Texts that are read, with where their nodes and imports stand, and texts that are not.

use crate::{parse, parse_imports, parse_spans};
use dh_places::Span;
use dh_syntax::{MOST_BYTES, Many, ParseFault};
use std::alloc::{AllocError, Global};
use std::test::Fail;

/// Each stretch, and in brackets those of its parts.
fn show(alloc: Global, spans: &Many<Span>, shown: &mut String) -> Result<(), AllocError> {
    for span in spans.as_slice() {
        let place = format!(in alloc; " {}-{}(", span.from, span.to)?;
        shown.push_str(place.as_str())?;
        show(alloc, &span.parts, shown)?;
        shown.push_str(")")?;
    }
    Ok(())
}

/// The stretches of nodes in a row.
fn shown_stretches(alloc: Global, spans: &Many<Span>) -> Result<String, AllocError> {
    let mut shown = String::new(alloc);
    show(alloc, spans, &mut shown)?;
    Ok(shown)
}

/// Each offset.
fn shown_offsets(alloc: Global, offsets: &[u32]) -> Result<String, AllocError> {
    let mut shown = String::new(alloc);
    for offset in offsets {
        let place = format!(in alloc; " {offset}")?;
        shown.push_str(place.as_str())?;
    }
    Ok(shown)
}

/// The stretches of the nodes of a text, or its fault.
fn stretches_of(alloc: Global, text: &[u8]) -> Result<String, AllocError> {
    match parse_spans(alloc, text) {
        Ok((_expression, spans)) => shown_stretches(alloc, &spans),
        Err(fault) => format!(in alloc; "{fault}"),
    }
}

/// The offsets of the imports of a text, or its fault.
fn imports_of(alloc: Global, text: &[u8]) -> Result<String, AllocError> {
    match parse_imports(alloc, text) {
        Ok((_expression, offsets)) => shown_offsets(alloc, offsets.as_slice()),
        Err(fault) => format!(in alloc; "{fault}"),
    }
}

/// What is wrong with a text, if anything is.
pub(crate) fn fault_of(alloc: Global, text: &[u8]) -> Option<ParseFault> {
    match parse(alloc, text) {
        Ok(_) => None,
        Err(fault) => Some(fault),
    }
}

#[test]
fn places_are_found(rt: HostRuntime) -> Result<(), Fail> {
    let alloc = rt.alloc();
    let table: [(&str, &str, &str); 16] = [
        // The text, the stretches of its nodes, and the offsets of its imports.
        ("x", " 0-1()", ""),
        ("-- a line\n1", " 10-11()", ""),
        (
            "let a = ./n\nin  a && True",
            " 0-25( 8-11() 16-25( 16-17() 21-25()))",
            " 11",
        ),
        (
            "let a = 1 let b : T = 2 in a",
            " 0-28( 8-9() 10-28( 18-19() 22-23() 27-28()))",
            "",
        ),
        (
            "[ missing ? (1 + True) ]",
            " 0-24( 2-22( 2-9() 13-21( 13-14() 17-21())))",
            " 9",
        ),
        // Fields stand in the order of their labels.
        (
            "{ b = ./x, a.c = ./y }",
            " 0-22( 13-20( 17-20()) 6-9())",
            " 20 9",
        ),
        (
            "\\(x : Bool) -> env:A as Text",
            " 0-28( 6-10() 15-28())",
            " 20",
        ),
        ("(merge h u) : T", " 0-15( 1-10( 7-8() 9-10()) 14-15())", ""),
        ("merge h u : T", " 0-13( 6-7() 8-9() 12-13())", ""),
        ("\"${./b}\"", " 0-8( 3-6())", " 6"),
        // Texts with faults of types, which are told by these places.
        (
            "\u{3bb}(x : Bool) \u{2192} x + 1",
            " 0-22( 7-11() 17-22( 17-18() 21-22()))",
            "",
        ),
        (
            "let x = 1 in x && True",
            " 0-22( 8-9() 13-22( 13-14() 18-22()))",
            "",
        ),
        ("1 + True", " 0-8( 0-1() 4-8())", ""),
        (
            "assert : 1 + 1 === 3",
            " 0-20( 9-20( 9-14( 9-10() 13-14()) 19-20()))",
            "",
        ),
        // A label alone is a variable; the record of a later key begins with it; entries of one label are joined.
        (
            "{ x, a.b = ./v, a = y }",
            " 0-23( 5-21( 7-14( 11-14()) 20-21()) 2-3())",
            " 14",
        ),
        ("1+2", "syntax at 1", "syntax at 1"),
    ];
    for (text, stretches, imports) in table {
        let shown = stretches_of(alloc, text.as_bytes())?;
        assert_eq!(rt; shown.as_str(), stretches, "{text}");
        let shown = imports_of(alloc, text.as_bytes())?;
        assert_eq!(rt; shown.as_str(), imports, "{text}");
    }
    Ok(())
}

/// A piece so many times, the middle, and another piece so many times.
pub(crate) fn repeated(
    alloc: Global,
    times: usize,
    before: &str,
    middle: &str,
    after: &str,
) -> Result<String, AllocError> {
    let mut text = String::new(alloc);
    for _ in 0..times {
        text.push_str(before)?;
    }
    text.push_str(middle)?;
    for _ in 0..times {
        text.push_str(after)?;
    }
    Ok(text)
}

#[test]
fn faults_are_told(rt: HostRuntime) -> Result<(), Fail> {
    let alloc = rt.alloc();
    let table: [(&[u8], Option<ParseFault>); 9] = [
        (b"", Some(ParseFault::Syntax(0))),
        (b"(1", Some(ParseFault::Syntax(2))),
        (b"{ a : Bool, a : Bool }", Some(ParseFault::Syntax(12))),
        (b"f x with a = 1", Some(ParseFault::Syntax(4))),
        (b"1.5", Some(ParseFault::Out(0))),
        (b"x@2147483648", Some(ParseFault::Wide(2))),
        (b"\"\\q\"", Some(ParseFault::Syntax(1))),
        (b"1 \xff", Some(ParseFault::NotUtf8(2))),
        (b"assert : 1 === 1", None),
    ];
    for (text, fault) in table {
        assert_eq!(rt; fault_of(alloc, text), fault);
    }
    // The limits: 500 expressions open, 500 nested, and 1,048,576 bytes.
    let long = vec![in alloc; b' '; MOST_BYTES]?;
    let limits = [
        (repeated(alloc, 499, "(", "1", ")")?, None),
        (
            repeated(alloc, 500, "(", "1", ")")?,
            Some(ParseFault::TooNested),
        ),
        (repeated(alloc, 500, "", "1", " + 1")?, None),
        (
            repeated(alloc, 501, "", "1", " + 1")?,
            Some(ParseFault::TooNested),
        ),
    ];
    for (text, fault) in limits.iter() {
        assert_eq!(rt; fault_of(alloc, text.as_bytes()), *fault);
    }
    assert_eq!(rt;
        fault_of(alloc, long.as_slice()),
        Some(ParseFault::Syntax(1048576))
    );
    let longer = vec![in alloc; b' '; MOST_BYTES + 1]?;
    assert_eq!(rt;
        fault_of(alloc, longer.as_slice()),
        Some(ParseFault::TooLarge)
    );
    Ok(())
}
