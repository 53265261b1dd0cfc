//! Places of nodes in texts, with stretches written by hand; lines and statuses of the faults of imports.

use crate::{Placed, Position, in_item, place_of, why_status, why_text};
use dh_command::Status;
use dh_imports::Why;
use dh_places::Span;
use dh_syntax::{Digest, Ill, Key, Loc, Many, Mode, NormFault, ParseFault, Piece, TypeFault};
use std::alloc::{AllocError, Global};
use std::test::Fail;

/// A node with no parts.
fn leaf(alloc: Global, from: u32, to: u32) -> Span {
    Span {
        from,
        to,
        parts: Many::new(alloc),
    }
}

/// A node with two parts.
fn pair(
    alloc: Global,
    from: u32,
    to: u32,
    left: Span,
    right: Span,
) -> Result<Many<Span>, AllocError> {
    let mut parts = Many::new(alloc);
    parts.push(left)?;
    parts.push(right)?;
    let mut nodes = Many::new(alloc);
    nodes.push(Span { from, to, parts })?;
    Ok(nodes)
}

#[test]
fn places_are_lines_and_characters(rt: HostRuntime) -> Result<(), Fail> {
    let alloc = rt.alloc();
    // The name has five characters in eight bytes; `True` begins at the byte 14.
    let text = "\n`\u{e9}\u{e9}\u{e9}`\n && True";
    let nodes = pair(alloc, 1, 17, leaf(alloc, 1, 9), leaf(alloc, 14, 18))?;
    let rows: [(&[u32], u32, u32); 5] = [
        (&[], 2, 1),
        (&[0], 2, 1),
        (&[1], 3, 5),
        (&[1, 0, 7], 3, 5),
        (&[2, 1], 2, 1),
    ];
    for (path, line, column) in &rows {
        let place = place_of(text.as_bytes(), &nodes, path);
        assert_eq!(rt; place.line, *line);
        assert_eq!(rt; place.column, *column);
    }
    let far = pair(alloc, 8, 99, leaf(alloc, 99, 99), leaf(alloc, 8, 9))?;
    assert_eq!(rt; place_of(text.as_bytes(), &far, &[]).column, 5);
    assert_eq!(rt; place_of(text.as_bytes(), &far, &[0]).column, 9);
    assert_eq!(rt; place_of(text.as_bytes(), &Many::new(alloc), &[1]).line, 1);
    Ok(())
}

#[test]
fn lines_tell_rule_path_and_place(rt: HostRuntime) -> Result<(), Fail> {
    let alloc = rt.alloc();
    let mut path = Many::new(alloc);
    path.push(1)?;
    path.push(0)?;
    let ill = Ill { path, rule: 13 };
    let place = Position {
        line: 2,
        column: 15,
    };
    let line = format!(in alloc; "{}", Placed { ill: &ill, place })?;
    assert_eq!(rt; line.as_str(), "type rule 13 at 1/0, line 2, column 15");
    Ok(())
}

#[test]
fn reasons_have_a_line_and_a_status(rt: HostRuntime) -> Result<(), Fail> {
    let alloc = rt.alloc();
    let rows = [
        (
            Why::Parse(ParseFault::Syntax(9)),
            "syntax at 9",
            Status::Text,
        ),
        (
            Why::Typing(TypeFault::Wide),
            "number or literal too wide",
            Status::Limit,
        ),
        (Why::Norm(NormFault::Deep), "too deep", Status::Limit),
        (Why::Absent, "absent", Status::Import),
        (Why::Broken(404), "status 404", Status::Import),
        (Why::Https, "https is refused", Status::Import),
        (Why::Failed, "device failed", Status::Desk),
        (
            Why::Differs {
                wanted: Digest([1; 32]),
                got: Digest([0xFE; 32]),
            },
            "digest differs: wanted 0101010101010101010101010101010101010101010101010101010101010101 got fefefefefefefefefefefefefefefefefefefefefefefefefefefefefefefefe",
            Status::Import,
        ),
        (
            Why::Insane(Loc::Env(Piece::new(alloc, "X")?)),
            "may not import env:X",
            Status::Import,
        ),
        (
            Why::Cors(Loc::Missing),
            "cross-origin import of missing refused",
            Status::Import,
        ),
        (Why::Cycle, "import cycle", Status::Import),
        (Why::TooMany, "more than 4096 imports", Status::Limit),
    ];
    for (why, line, status) in &rows {
        assert_eq!(rt; why_text(alloc, why)?.as_str(), *line);
        assert_eq!(rt; why_status(why), *status);
    }
    let key = Key {
        loc: Loc::Missing,
        mode: Mode::Code,
        digest: None,
    };
    assert_eq!(rt;
        in_item(alloc, Some(&key), "absent")?.as_str(),
        "in missing: absent"
    );
    assert_eq!(rt; in_item(alloc, None, "absent")?.as_str(), "absent");
    Ok(())
}
