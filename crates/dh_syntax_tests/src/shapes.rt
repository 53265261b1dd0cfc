//! Nodes that have their parts and nodes that do not, and how deep they nest.

use dh_syntax::{
    Alt, Alts, BinOp, BoxedImport, Builtin, Expr, Import, Kid, Kids, Label, Labels, Loc, Many,
    Mode, Op, Piece, Pieces, arity_ok, is_well_formed, nest,
};
use std::alloc::{AllocError, Global};
use std::process::Abort;
use std::test::Fail;

fn node(op: Op, kids: Kids) -> Expr {
    Expr::Node(op, kids)
}

fn leaf(alloc: Global) -> Result<Expr, AllocError> {
    Ok(Expr::Var(Label::new(alloc, "v")?, 0))
}

/// A kid for each mark: `.` is one under no binder, `x` is one under a binder.
fn kids(alloc: Global, marks: &str) -> Result<Kids, AllocError> {
    let mut kids = Many::new(alloc);
    for mark in marks.as_bytes() {
        let body = leaf(alloc)?;
        let binder = if *mark == b'x' {
            Some(Label::new(alloc, "x")?)
        } else {
            None
        };
        kids.push(Kid { binder, body })?;
    }
    Ok(kids)
}

fn only(alloc: Global, body: Expr) -> Result<Kids, AllocError> {
    let mut kids = Many::new(alloc);
    kids.push(Kid { binder: None, body })?;
    Ok(kids)
}

fn labels(alloc: Global, names: &[&str]) -> Result<Labels, AllocError> {
    let mut labels = Many::new(alloc);
    for name in names {
        labels.push(Label::new(alloc, name)?)?;
    }
    Ok(labels)
}

fn pieces(alloc: Global, texts: &[&str]) -> Result<Pieces, AllocError> {
    let mut pieces = Many::new(alloc);
    for text in texts {
        pieces.push(Piece::new(alloc, text)?)?;
    }
    Ok(pieces)
}

fn import(alloc: Global, loc: Loc) -> Result<Op, AllocError> {
    let import = Import {
        loc,
        mode: Mode::Code,
        digest: None,
    };
    Ok(Op::Import(BoxedImport::new(alloc, import)?))
}

/// The operator takes the kids of these marks, or does not.
fn check(
    rt: &impl Abort,
    alloc: Global,
    op: &Op,
    marks: &str,
    fits: bool,
) -> Result<(), AllocError> {
    let kids = kids(alloc, marks)?;
    assert!(rt; arity_ok(op, &kids) == fits, "{op:?} and {marks}");
    Ok(())
}

#[test]
fn operators_take_their_kids(rt: HostRuntime) -> Result<(), Fail> {
    // an operator, the kids that it takes and kids that it does not take
    let rows = [
        (Op::Builtin(Builtin::List), "", "."),
        (Op::Nat(5), "", "x"),
        (Op::Lam, ".x", ".."),
        (Op::Pi, ".x", "x."),
        (Op::Let(false), ".x", "..x"),
        (Op::Let(true), "..x", ".xx"),
        (Op::App, "..", "..."),
        (Op::If, "...", "..x"),
        (Op::Bin(BinOp::Plus), "..", "."),
        (Op::List, ".", ""),
        (Op::List, "...", "..x"),
        (Op::EmptyList, ".", ".."),
        (Op::Some, ".", ""),
        (Op::Merge(false), "..", "..."),
        (Op::Merge(true), "...", ".."),
        (Op::ProjectType, "..", "."),
        (Op::ToMap(false), ".", ".."),
        (Op::ToMap(true), "..", "."),
    ];
    for (op, good, bad) in &rows {
        check(&rt, rt.alloc(), op, good, true)?;
        check(&rt, rt.alloc(), op, bad, false)?;
    }
    Ok(())
}

#[test]
fn labels_ascend(rt: HostRuntime) -> Result<(), Fail> {
    // two labels, and whether they ascend
    let rows = [
        ("a", "b", true),
        ("b", "a", false),
        ("a", "a", false),
        ("Z", "a", true),
        ("", "a", true),
        ("ab", "a", false),
    ];
    for (x, y, ascend) in &rows {
        let record = Op::Record(labels(rt.alloc(), &[x, y])?);
        check(&rt, rt.alloc(), &record, "..", *ascend)?;
        check(&rt, rt.alloc(), &record, ".", false)?;
        let projection = Op::Project(labels(rt.alloc(), &[x, y])?);
        check(&rt, rt.alloc(), &projection, ".", *ascend)?;
    }
    Ok(())
}

#[test]
fn unions_count_types(rt: HostRuntime) -> Result<(), Fail> {
    let a = rt.alloc();
    let mut alts: Alts = Many::new(a);
    for (name, typed) in [("a", false), ("b", true), ("c", false)] {
        let label = Label::new(a, name)?;
        alts.push(Alt { label, typed })?;
    }
    let union = Op::Union(alts);
    check(&rt, a, &union, ".", true)?;
    check(&rt, a, &union, "...", false)?;
    Ok(())
}

#[test]
fn texts_and_paths_count(rt: HostRuntime) -> Result<(), Fail> {
    // texts, and the kids that a text literal with such pieces takes
    let rows = [(["a"].as_slice(), ""), (["a", "", "b"].as_slice(), "..")];
    for (texts, marks) in &rows {
        let literal = Op::Text(pieces(rt.alloc(), texts)?);
        check(&rt, rt.alloc(), &literal, marks, true)?;
        let path = import(rt.alloc(), Loc::Here(pieces(rt.alloc(), texts)?))?;
        check(&rt, rt.alloc(), &path, "", true)?;
    }
    let none = pieces(rt.alloc(), &[])?;
    check(&rt, rt.alloc(), &Op::Text(none), "", false)?;
    let none = pieces(rt.alloc(), &[])?;
    check(
        &rt,
        rt.alloc(),
        &import(rt.alloc(), Loc::Here(none))?,
        "",
        false,
    )?;
    let none = labels(rt.alloc(), &[])?;
    check(&rt, rt.alloc(), &Op::With(none), "..", false)?;
    Ok(())
}

#[test]
fn nesting_counts_nodes_with_kids(rt: HostRuntime) -> Result<(), Fail> {
    let a = rt.alloc();
    let leaf = leaf(a)?;
    assert_eq!(rt; nest(&leaf), 0);
    let one = node(Op::Some, only(a, leaf)?);
    assert_eq!(rt; nest(&one), 1);
    let mut kids = kids(a, ".")?;
    kids.push(Kid {
        binder: None,
        body: node(Op::Some, only(a, one)?),
    })?;
    assert_eq!(rt; nest(&node(Op::App, kids)), 3);
    assert_eq!(rt; nest(&node(Op::Bool(true), Many::new(a))), 0);
    Ok(())
}

#[test]
fn a_node_below_is_looked_at(rt: HostRuntime) -> Result<(), Fail> {
    let a = rt.alloc();
    let good = node(Op::Lam, kids(a, ".x")?);
    let bad = node(Op::Lam, kids(a, "..")?);
    assert!(rt; is_well_formed(&node(Op::Some, only(a, good)?)));
    assert!(rt; !is_well_formed(&node(Op::Some, only(a, bad)?)));
    Ok(())
}
