//! What the contracts do not say: that text literals which keep interpolations are joined without a copy. Each of these would take
//! minutes and gigabytes otherwise.

use crate::texts::{grown, normal_text, over, runs, variable, written};
use dh_syntax::{Expr, Many, Op, Piece};
use std::alloc::{AllocError, Global};
use std::test::Fail;

#[test]
fn literals_that_grow(rt: HostRuntime) -> Result<(), Fail> {
    let a = rt.alloc();
    // a step of the fold, one of the function and the text that is spliced in; the last call, the text, and each variable in it
    let both = grown(a, 20_000, "x t '<|:|>")?;
    let expected = runs(a, 20_000, "<{x}:", ">", " 0")?;
    let got = normal_text(a, &both, 80_002)?;
    assert!(rt; got.as_str() == expected.as_str());
    let got = normal_text(a, &both, 80_001)?;
    assert_eq!(rt; got.as_str(), "Spent");
    // by `++`, which costs a unit, and so does each of its sides
    let behind = grown(a, 20_000, "t x 'a| ++")?;
    let expected = runs(a, 20_000, "a{x}", "", " 0")?;
    let got = normal_text(a, &behind, 120_002)?;
    assert!(rt; got.as_str() == expected.as_str());
    let front = grown(a, 20_000, "x 'a| t ++")?;
    let got = normal_text(a, &front, 120_002)?;
    assert!(rt; got.as_str() == expected.as_str());
    Ok(())
}

/// So many variables, each in a literal of its own, in one literal.
fn nested(alloc: Global, times: usize) -> Result<Expr, AllocError> {
    let mut pieces = Many::new(alloc);
    let mut parts = Vec::new(alloc);
    pieces.push(Piece::new(alloc, "<")?)?;
    for _ in 0..times {
        parts.push(written(alloc, "x 'a|b")?)?;
        pieces.push(Piece::new(alloc, ">")?)?;
    }
    over(alloc, Op::Text(pieces), parts)
}

#[test]
fn literals_of_literals(rt: HostRuntime) -> Result<(), Fail> {
    let a = rt.alloc();
    // each costs a unit, and so does its variable; one for the text
    let e = nested(a, 20_000)?;
    let mut expected = String::from_str(a, "<")?;
    for _ in 0..20_000 {
        expected.push_str("a{x}b>")?;
    }
    expected.push_str(" 0")?;
    let got = normal_text(a, &e, 40_001)?;
    assert!(rt; got.as_str() == expected.as_str());
    Ok(())
}

/// A literal of these pieces over twice the same one, which is this piece and a variable.
fn doubled(alloc: Global, piece: &str, between: &str) -> Result<Expr, AllocError> {
    let mut parts = Vec::new(alloc);
    for _ in 0..2 {
        let mut pieces = Many::new(alloc);
        pieces.push(Piece::new(alloc, piece)?)?;
        pieces.push(Piece::new(alloc, "")?)?;
        let kept = Vec::from_array(alloc, [variable(alloc, "x")?])?;
        parts.push(over(alloc, Op::Text(pieces), kept)?)?;
    }
    let mut pieces = Many::new(alloc);
    pieces.push(Piece::new(alloc, "")?)?;
    pieces.push(Piece::new(alloc, between)?)?;
    pieces.push(Piece::new(alloc, "")?)?;
    over(alloc, Op::Text(pieces), parts)
}

#[test]
fn wide_literals(rt: HostRuntime) -> Result<(), Fail> {
    let a = rt.alloc();
    // 2^23 bytes twice are as many as a text may have
    let mut piece = String::from_str(a, "a")?;
    for _ in 0..23 {
        let half = piece.clone()?;
        piece.push_str(half.as_str())?;
    }
    let half = piece.as_str();
    let e = doubled(a, half, "")?;
    let expected = format!(in a; "{half}{{x}}{half}{{x}} 4")?;
    let got = normal_text(a, &e, 9)?;
    assert!(rt; got.as_str() == expected.as_str());
    let e = doubled(a, half, "c")?;
    let got = normal_text(a, &e, 9)?;
    assert_eq!(rt; got.as_str(), "Wide");
    Ok(())
}
