//! Expressions built by hand, and their bytes worked out by hand from the standard's "Binary encoding".

use crate::encode;
use dh_syntax::{
    Alt, BinOp, BoxedImport, Builtin, Digest, Expr, Import, Kid, Label, Labels, Loc, Many, Mode,
    Op, Piece, Url, is_well_formed, nest,
};
use std::alloc::{AllocError, Global};
use std::process::Abort;
use std::test::Fail;

fn variable(alloc: Global, name: &str, index: u32) -> Result<Expr, AllocError> {
    Ok(Expr::Var(Label::new(alloc, name)?, index))
}

fn leaf(alloc: Global, op: Op) -> Expr {
    Expr::Node(op, Many::new(alloc))
}

fn builtin(alloc: Global, builtin: Builtin) -> Expr {
    leaf(alloc, Op::Builtin(builtin))
}

fn natural(alloc: Global, n: u128) -> Expr {
    leaf(alloc, Op::Nat(n))
}

fn truth(alloc: Global, value: bool) -> Expr {
    leaf(alloc, Op::Bool(value))
}

fn plain(body: Expr) -> Kid {
    Kid { binder: None, body }
}

fn one(alloc: Global, op: Op, part: Expr) -> Result<Expr, AllocError> {
    let kids = Vec::from_array(alloc, [plain(part)])?;
    Ok(Expr::Node(op, Many::of(kids)))
}

fn two(alloc: Global, op: Op, first: Expr, second: Expr) -> Result<Expr, AllocError> {
    let kids = Vec::from_array(alloc, [plain(first), plain(second)])?;
    Ok(Expr::Node(op, Many::of(kids)))
}

/// A node with a part, and with another part under a variable.
fn binding(
    alloc: Global,
    op: Op,
    first: Expr,
    name: Label,
    body: Expr,
) -> Result<Expr, AllocError> {
    let last = Kid {
        binder: Some(name),
        body,
    };
    let kids = Vec::from_array(alloc, [plain(first), last])?;
    Ok(Expr::Node(op, Many::of(kids)))
}

/// `λ(x : Bool) → x`
fn identity(alloc: Global) -> Result<Expr, AllocError> {
    let name = Label::new(alloc, "x")?;
    let body = variable(alloc, "x", 0)?;
    binding(alloc, Op::Lam, builtin(alloc, Builtin::Bool), name, body)
}

/// `True → False`
fn arrow(alloc: Global) -> Result<Expr, AllocError> {
    let name = Label::new(alloc, "_")?;
    binding(alloc, Op::Pi, truth(alloc, true), name, truth(alloc, false))
}

/// `1 + 2`
fn sum(alloc: Global) -> Result<Expr, AllocError> {
    two(
        alloc,
        Op::Bin(BinOp::Plus),
        natural(alloc, 1),
        natural(alloc, 2),
    )
}

/// `1 +2`
fn applied(alloc: Global) -> Result<Expr, AllocError> {
    two(alloc, Op::App, natural(alloc, 1), leaf(alloc, Op::Int(2)))
}

/// `1 +2 True`
fn applied_twice(alloc: Global) -> Result<Expr, AllocError> {
    two(alloc, Op::App, applied(alloc)?, truth(alloc, true))
}

/// `let x = 1 let y = True in _`
fn lets(alloc: Global) -> Result<Expr, AllocError> {
    let name = Label::new(alloc, "x")?;
    let body = inner_let(alloc)?;
    binding(alloc, Op::Let(false), natural(alloc, 1), name, body)
}

fn inner_let(alloc: Global) -> Result<Expr, AllocError> {
    let name = Label::new(alloc, "y")?;
    let body = variable(alloc, "_", 0)?;
    binding(alloc, Op::Let(false), truth(alloc, true), name, body)
}

/// `[] : List True`
fn empty_list(alloc: Global) -> Result<Expr, AllocError> {
    let list_type = two(
        alloc,
        Op::App,
        builtin(alloc, Builtin::List),
        truth(alloc, true),
    )?;
    one(alloc, Op::EmptyList, list_type)
}

fn labels(alloc: Global, first: &str, second: &str) -> Result<Labels, AllocError> {
    let first = Label::new(alloc, first)?;
    let second = Label::new(alloc, second)?;
    Ok(Many::of(Vec::from_array(alloc, [first, second])?))
}

/// `"a${True}b"`
fn text(alloc: Global) -> Result<Expr, AllocError> {
    let first = Piece::new(alloc, "a")?;
    let second = Piece::new(alloc, "b")?;
    let pieces = Vec::from_array(alloc, [first, second])?;
    one(alloc, Op::Text(Many::of(pieces)), truth(alloc, true))
}

/// `{ a = True, b = False }`
fn record(alloc: Global) -> Result<Expr, AllocError> {
    let labels = labels(alloc, "a", "b")?;
    two(
        alloc,
        Op::Record(labels),
        truth(alloc, true),
        truth(alloc, false),
    )
}

/// `< A | B : True >`
fn union_type(alloc: Global) -> Result<Expr, AllocError> {
    let first = Alt {
        label: Label::new(alloc, "A")?,
        typed: false,
    };
    let second = Alt {
        label: Label::new(alloc, "B")?,
        typed: true,
    };
    let alts = Vec::from_array(alloc, [first, second])?;
    one(alloc, Op::Union(Many::of(alts)), truth(alloc, true))
}

/// `True with b.a = False`
fn update(alloc: Global) -> Result<Expr, AllocError> {
    let path = labels(alloc, "b", "a")?;
    two(
        alloc,
        Op::With(path),
        truth(alloc, true),
        truth(alloc, false),
    )
}

/// `https://h/p?q sha256:0707.. as Location`
fn remote(alloc: Global) -> Result<Expr, AllocError> {
    let host = Piece::new(alloc, "h")?;
    let query = Piece::new(alloc, "q")?;
    let comp = Piece::new(alloc, "p")?;
    let comps = Many::of(Vec::from_array(alloc, [comp])?);
    let url = Url {
        host,
        comps,
        query: Some(query),
    };
    let import = Import {
        loc: Loc::Https(url),
        mode: Mode::Location,
        digest: Some(Digest([7; 32])),
    };
    Ok(leaf(alloc, Op::Import(BoxedImport::new(alloc, import)?)))
}

fn assert_encodes(rt: &impl Abort, alloc: Global, e: Expr, wanted: &[u8]) -> Result<(), Fail> {
    if !is_well_formed(&e) || nest(&e) > 1 << 20 {
        return Err(Fail::from("not well formed"));
    }
    let found = encode(alloc, &e)?;
    assert_eq!(rt; found.as_slice(), wanted);
    Ok(())
}

#[test]
fn encodes_leaves(rt: HostRuntime) -> Result<(), Fail> {
    let a = rt.alloc();
    assert_encodes(&rt, a, natural(a, 1), &[0x82, 0x0F, 0x01])?;
    assert_encodes(&rt, a, natural(a, 24), &[0x82, 0x0F, 0x18, 0x18])?;
    let full = [
        0x82, 0x0F, 0xC2, 0x50, 255, 255, 255, 255, 255, 255, 255, 255, 255, 255, 255, 255, 255,
        255, 255, 255,
    ];
    assert_encodes(&rt, a, natural(a, u128::MAX), &full)?;
    assert_encodes(&rt, a, leaf(a, Op::Int(-1)), &[0x82, 0x10, 0x20])?;
    assert_encodes(&rt, a, truth(a, true), &[0xF5])?;
    assert_encodes(
        &rt,
        a,
        builtin(a, Builtin::Bool),
        &[0x64, 0x42, 0x6F, 0x6F, 0x6C],
    )?;
    assert_encodes(&rt, a, variable(a, "_", 1)?, &[0x01])?;
    let wanted = [
        0x88, 0x18, 0x18, 0x58, 0x22, 0x12, 0x20, 7, 7, 7, 7, 7, 7, 7, 7, 7, 7, 7, 7, 7, 7, 7, 7,
        7, 7, 7, 7, 7, 7, 7, 7, 7, 7, 7, 7, 7, 7, 7, 7, 0x02, 0x01, 0xF6, 0x61, 0x68, 0x61, 0x70,
        0x61, 0x71,
    ];
    assert_encodes(&rt, a, remote(a)?, &wanted)
}

#[test]
fn encodes_functions_and_lets(rt: HostRuntime) -> Result<(), Fail> {
    let a = rt.alloc();
    let wanted = [
        0x84, 0x01, 0x61, 0x78, 0x64, 0x42, 0x6F, 0x6F, 0x6C, 0x82, 0x61, 0x78, 0x00,
    ];
    assert_encodes(&rt, a, identity(a)?, &wanted)?;
    assert_encodes(&rt, a, arrow(a)?, &[0x83, 0x02, 0xF5, 0xF4])?;
    assert_encodes(
        &rt,
        a,
        sum(a)?,
        &[0x84, 0x03, 0x04, 0x82, 0x0F, 0x01, 0x82, 0x0F, 0x02],
    )?;
    assert_encodes(
        &rt,
        a,
        applied(a)?,
        &[0x83, 0x00, 0x82, 0x0F, 0x01, 0x82, 0x10, 0x02],
    )?;
    let wanted = [0x84, 0x00, 0x82, 0x0F, 0x01, 0x82, 0x10, 0x02, 0xF5];
    assert_encodes(&rt, a, applied_twice(a)?, &wanted)?;
    let wanted = [
        0x88, 0x18, 0x19, 0x61, 0x78, 0xF6, 0x82, 0x0F, 0x01, 0x61, 0x79, 0xF6, 0xF5, 0x00,
    ];
    assert_encodes(&rt, a, lets(a)?, &wanted)
}

#[test]
fn encodes_collections(rt: HostRuntime) -> Result<(), Fail> {
    let a = rt.alloc();
    assert_encodes(&rt, a, empty_list(a)?, &[0x82, 0x04, 0xF5])?;
    assert_encodes(
        &rt,
        a,
        text(a)?,
        &[0x84, 0x12, 0x61, 0x61, 0xF5, 0x61, 0x62],
    )?;
    assert_encodes(
        &rt,
        a,
        record(a)?,
        &[0x82, 0x08, 0xA2, 0x61, 0x61, 0xF5, 0x61, 0x62, 0xF4],
    )?;
    let wanted = [0x82, 0x0B, 0xA2, 0x61, 0x41, 0xF6, 0x61, 0x42, 0xF5];
    assert_encodes(&rt, a, union_type(a)?, &wanted)?;
    let wanted = [0x84, 0x18, 0x1D, 0xF5, 0x82, 0x61, 0x62, 0x61, 0x61, 0xF4];
    assert_encodes(&rt, a, update(a)?, &wanted)
}
