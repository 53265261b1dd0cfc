//! Tests: the text of each case and the line of each fault, written out by hand; large values; values that nest as deep as a normal form may.

use crate::{JsonFault, json_text, to_json};
use dh_syntax::{
    Alt, Alts, Builtin, Expr, Kid, Label, Labels, Many, Op, Piece, Pieces, is_well_formed,
};
use std::alloc::{AllocError, Global};
use std::test::Fail;

fn leaf(alloc: Global, op: Op) -> Expr {
    Expr::Node(op, Many::new(alloc))
}

fn builtin(alloc: Global, builtin: Builtin) -> Expr {
    leaf(alloc, Op::Builtin(builtin))
}

fn natural(alloc: Global, n: u128) -> Expr {
    leaf(alloc, Op::Nat(n))
}

fn plain(body: Expr) -> Kid {
    Kid { binder: None, body }
}

fn one(alloc: Global, op: Op, part: Expr) -> Result<Expr, AllocError> {
    let kids = Vec::from_array(alloc, [plain(part)])?;
    Ok(Expr::Node(op, Many::of(kids)))
}

fn two(alloc: Global, op: Op, first: Expr, second: Expr) -> Result<Expr, AllocError> {
    let kids = Vec::from_array(alloc, [plain(first), plain(second)])?;
    Ok(Expr::Node(op, Many::of(kids)))
}

fn text(alloc: Global, text: &str) -> Result<Expr, AllocError> {
    let mut pieces: Pieces = Many::new(alloc);
    pieces.push(Piece::new(alloc, text)?)?;
    Ok(leaf(alloc, Op::Text(pieces)))
}

/// `None t`
fn none(alloc: Global, t: Expr) -> Result<Expr, AllocError> {
    two(alloc, Op::App, builtin(alloc, Builtin::None), t)
}

/// `< X | Y : Natural >.x`
fn alternative(alloc: Global, x: &str) -> Result<Expr, AllocError> {
    let mut alts: Alts = Many::new(alloc);
    alts.push(Alt {
        label: Label::new(alloc, "X")?,
        typed: false,
    })?;
    alts.push(Alt {
        label: Label::new(alloc, "Y")?,
        typed: true,
    })?;
    let union = one(alloc, Op::Union(alts), builtin(alloc, Builtin::Natural))?;
    one(alloc, Op::Field(Label::new(alloc, x)?), union)
}

fn labels(alloc: Global, names: &[&str]) -> Result<Labels, AllocError> {
    let mut labels: Labels = Many::new(alloc);
    for name in names {
        labels.push(Label::new(alloc, name)?)?;
    }
    Ok(labels)
}

/// What is answered: the text, which is also that of the value, or the line of the fault.
fn answer(alloc: Global, e: &Expr) -> Result<String, JsonFault> {
    if !is_well_formed(e) {
        return Ok(String::from_str(alloc, "not well formed")?);
    }
    match json_text(alloc, e) {
        Ok(text) => {
            let by_value = to_json(alloc, e)?.to_string(alloc)?;
            if by_value.as_str() != text.as_str() {
                return Ok(String::from_str(alloc, "the value has another text")?);
            }
            Ok(by_value)
        }
        Err(fault) => Ok(format!(in alloc; "{fault}")?),
    }
}

#[test]
fn numbers_have_64_bits(rt: HostRuntime) -> Result<(), Fail> {
    let alloc = rt.alloc();
    let rows = [
        (Op::Bool(true), "true"),
        (Op::Bool(false), "false"),
        (Op::Nat(0), "0"),
        (Op::Nat(18446744073709551615), "18446744073709551615"),
        (Op::Nat(18446744073709551616), "no JSON value at root"),
        (Op::Int(0), "0"),
        (Op::Int(-1), "-1"),
        (Op::Int(18446744073709551615), "18446744073709551615"),
        (Op::Int(18446744073709551616), "no JSON value at root"),
        (Op::Int(-9223372036854775808), "-9223372036854775808"),
        (Op::Int(-9223372036854775809), "no JSON value at root"),
    ];
    for (op, wanted) in rows {
        let e = leaf(alloc, op);
        assert_eq!(rt; answer(alloc, &e)?.as_str(), wanted);
    }
    Ok(())
}

/// RFC 8259, section 7: quotes, backslashes and control characters are escaped, each other character stands for itself.
#[test]
fn texts_are_escaped(rt: HostRuntime) -> Result<(), Fail> {
    let alloc = rt.alloc();
    let rows = [
        ("", r#""""#),
        ("a\"b\\c/d", r#""a\"b\\c/d""#),
        (
            "\0\u{1}\u{2}\u{3}\u{4}\u{5}\u{6}\u{7}\u{8}\t\n\u{b}\u{c}\r\u{e}\u{f}",
            r#""\u0000\u0001\u0002\u0003\u0004\u0005\u0006\u0007\b\t\n\u000b\f\r\u000e\u000f""#,
        ),
        (
            "\u{10}\u{11}\u{12}\u{13}\u{14}\u{15}\u{16}\u{17}\u{18}\u{19}\u{1a}\u{1b}\u{1c}\u{1d}\u{1e}\u{1f}",
            r#""\u0010\u0011\u0012\u0013\u0014\u0015\u0016\u0017\u0018\u0019\u001a\u001b\u001c\u001d\u001e\u001f""#,
        ),
        ("é\u{7f}\u{2028}\u{1f600}", "\"é\u{7f}\u{2028}\u{1f600}\""),
    ];
    for (given, wanted) in &rows {
        let e = text(alloc, given)?;
        assert_eq!(rt; answer(alloc, &e)?.as_str(), *wanted);
    }
    Ok(())
}

fn sample(alloc: Global, number: usize) -> Result<Expr, AllocError> {
    match number {
        0 => one(alloc, Op::EmptyList, builtin(alloc, Builtin::Natural)),
        1 => two(alloc, Op::List, natural(alloc, 1), natural(alloc, 2)),
        2 => Ok(leaf(alloc, Op::Record(Many::new(alloc)))),
        3 => one(alloc, Op::Some, one(alloc, Op::Some, natural(alloc, 1))?),
        4 => one(
            alloc,
            Op::Some,
            none(alloc, builtin(alloc, Builtin::Natural))?,
        ),
        5 => alternative(alloc, "X"),
        6 => two(alloc, Op::App, alternative(alloc, "Y")?, natural(alloc, 3)),
        7 => alternative(alloc, "Y"),
        8 => alternative(alloc, "Z"),
        9 => two(alloc, Op::App, alternative(alloc, "X")?, natural(alloc, 3)),
        10 => two(alloc, Op::List, natural(alloc, 1), alternative(alloc, "Y")?),
        11 => two(
            alloc,
            Op::App,
            alternative(alloc, "Y")?,
            alternative(alloc, "Y")?,
        ),
        12 => Ok(builtin(alloc, Builtin::None)),
        _ => one(alloc, Op::Some, builtin(alloc, Builtin::ListLength)),
    }
}

#[test]
fn lists_optionals_and_unions_have_their_texts(rt: HostRuntime) -> Result<(), Fail> {
    let alloc = rt.alloc();
    let rows = [
        "[]",
        "[1,2]",
        "{}",
        "1",
        "null",
        "\"X\"",
        "3",
        "no JSON value at root",
        "no JSON value at root",
        "no JSON value at root",
        "no JSON value at 1",
        "no JSON value at 1",
        "no JSON value at root",
        "no JSON value at 0",
    ];
    for (number, wanted) in rows.iter().enumerate() {
        let e = sample(alloc, number)?;
        assert_eq!(rt; answer(alloc, &e)?.as_str(), *wanted);
    }
    Ok(())
}

/// `{ a = 1, b = [ inner ], c = None Natural, d = < X | Y : Natural >.X }`
fn record(alloc: Global, inner: Expr) -> Result<Expr, AllocError> {
    let list = one(alloc, Op::List, inner)?;
    let null = none(alloc, builtin(alloc, Builtin::Natural))?;
    let last = alternative(alloc, "X")?;
    let kids = Vec::from_array(
        alloc,
        [
            plain(natural(alloc, 1)),
            plain(list),
            plain(null),
            plain(last),
        ],
    )?;
    Ok(Expr::Node(
        Op::Record(labels(alloc, &["a", "b", "c", "d"])?),
        Many::of(kids),
    ))
}

#[test]
fn records_have_their_fields_in_order(rt: HostRuntime) -> Result<(), Fail> {
    let alloc = rt.alloc();
    let good = record(alloc, leaf(alloc, Op::Bool(true)))?;
    assert_eq!(rt;
        answer(alloc, &good)?.as_str(),
        r#"{"a":1,"b":[true],"c":null,"d":"X"}"#
    );
    let bad = record(alloc, builtin(alloc, Builtin::ListLength))?;
    assert_eq!(rt; answer(alloc, &bad)?.as_str(), "no JSON value at 1/0");
    Ok(())
}

/// Lists of one element around a number or a built-in, 500 deep.
fn nested(alloc: Global, inner: Expr) -> Result<Expr, AllocError> {
    let mut e = inner;
    for _depth in 0..500u32 {
        e = one(alloc, Op::List, e)?;
    }
    Ok(e)
}

#[test]
fn values_nest_as_deep_as_normal_forms(rt: HostRuntime) -> Result<(), Fail> {
    let alloc = rt.alloc();
    let good = nested(alloc, natural(alloc, 7))?;
    assert_eq!(rt; answer(alloc, &good)?.len(), 1001);
    let bad = nested(alloc, builtin(alloc, Builtin::Natural))?;
    // `no JSON value at ` and 500 noughts with strokes between them
    assert_eq!(rt; answer(alloc, &bad)?.len(), 17 + 999);
    Ok(())
}

fn long_list(alloc: Global, count: u32) -> Result<Expr, AllocError> {
    let mut kids = Vec::new(alloc);
    for i in 0..count {
        kids.push(plain(natural(alloc, u128::from(i))))?;
    }
    Ok(Expr::Node(Op::List, Many::of(kids)))
}

/// `{ f10000 = 1, f10001 = 1, .. }`
fn wide_record(alloc: Global, count: u32) -> Result<Expr, AllocError> {
    let mut names: Labels = Many::new(alloc);
    let mut kids = Vec::new(alloc);
    for i in 0..count {
        let name = format!(in alloc; "f{}", i.saturating_add(10000))?;
        names.push(Label::new(alloc, name.as_str())?)?;
        kids.push(plain(natural(alloc, 1)))?;
    }
    Ok(Expr::Node(Op::Record(names), Many::of(kids)))
}

#[test]
fn large_values_are_written(rt: HostRuntime) -> Result<(), Fail> {
    let alloc = rt.alloc();
    // 488,890 digits, 99,999 commas and two brackets
    let list = long_list(alloc, 100000)?;
    assert_eq!(rt; answer(alloc, &list)?.len(), 588891);
    // 10,000 times `"f10000":1`, 9,999 commas and two braces
    let record = wide_record(alloc, 10000)?;
    assert_eq!(rt; answer(alloc, &record)?.len(), 110001);
    let mut long = String::new(alloc);
    for _times in 0..131072u32 {
        long.push_str("abcdefgh")?;
    }
    let e = text(alloc, long.as_str())?;
    assert_eq!(rt; answer(alloc, &e)?.len(), 1048578);
    Ok(())
}
