//! Printed texts of expressions that are given by hand.

use crate::print;
use dh_syntax::{
    Alt, BinOp, BoxedImport, Builtin, Digest, Expr, Import, Kid, Kids, Label, Labels, Loc, Many,
    Mode, Op, Piece, Pieces, is_well_formed,
};
use std::alloc::{AllocError, Global};
use std::process::Abort;
use std::test::Fail;

fn variable(alloc: Global, name: &str, index: u32) -> Result<Expr, AllocError> {
    Ok(Expr::Var(Label::new(alloc, name)?, index))
}

fn leaf(alloc: Global, op: Op) -> Expr {
    Expr::Node(op, Many::new(alloc))
}

fn natural(alloc: Global, n: u128) -> Expr {
    leaf(alloc, Op::Nat(n))
}

fn builtin(alloc: Global, builtin: Builtin) -> Expr {
    leaf(alloc, Op::Builtin(builtin))
}

fn put(kids: &mut Kids, body: Expr) -> Result<(), AllocError> {
    kids.push(Kid { binder: None, body })
}

fn one(alloc: Global, op: Op, e: Expr) -> Result<Expr, AllocError> {
    let mut kids = Many::new(alloc);
    put(&mut kids, e)?;
    Ok(Expr::Node(op, kids))
}

fn two(alloc: Global, op: Op, e: Expr, f: Expr) -> Result<Expr, AllocError> {
    let mut kids = Many::new(alloc);
    put(&mut kids, e)?;
    put(&mut kids, f)?;
    Ok(Expr::Node(op, kids))
}

/// A node whose last part stands under a name.
fn bound(alloc: Global, op: Op, e: Expr, name: &str, body: Expr) -> Result<Expr, AllocError> {
    let mut kids = Many::new(alloc);
    put(&mut kids, e)?;
    let binder = Some(Label::new(alloc, name)?);
    kids.push(Kid { binder, body })?;
    Ok(Expr::Node(op, kids))
}

fn labels(alloc: Global, names: &[&str]) -> Result<Labels, AllocError> {
    let mut done = Many::new(alloc);
    for name in names {
        done.push(Label::new(alloc, name)?)?;
    }
    Ok(done)
}

fn pieces(alloc: Global, texts: &[&str]) -> Result<Pieces, AllocError> {
    let mut done = Many::new(alloc);
    for text in texts {
        done.push(Piece::new(alloc, text)?)?;
    }
    Ok(done)
}

/// What is printed of an expression, which is well formed.
fn assert_prints(rt: &impl Abort, alloc: Global, e: Expr, wanted: &str) -> Result<(), AllocError> {
    assert!(rt; is_well_formed(&e));
    let text = print(alloc, &e)?;
    assert_eq!(rt; text.as_str(), wanted);
    Ok(())
}

fn sum(alloc: Global, left: u128, right: u128) -> Result<Expr, AllocError> {
    two(
        alloc,
        Op::Bin(BinOp::Plus),
        natural(alloc, left),
        natural(alloc, right),
    )
}

fn functions(alloc: Global) -> Result<Expr, AllocError> {
    let natural = builtin(alloc, Builtin::Natural);
    let inner = bound(alloc, Op::Lam, natural, "y", variable(alloc, "y", 1)?)?;
    bound(alloc, Op::Lam, builtin(alloc, Builtin::Natural), "y", inner)
}

fn blank_function(alloc: Global) -> Result<Expr, AllocError> {
    let blank = variable(alloc, "_", 0)?;
    bound(alloc, Op::Lam, builtin(alloc, Builtin::Bool), "_", blank)
}

#[test]
fn prints_functions_and_numbers(rt: HostRuntime) -> Result<(), Fail> {
    let a = rt.alloc();
    assert_prints(
        &rt,
        a,
        functions(a)?,
        "λ(y : Natural) → λ(y : Natural) → y@1",
    )?;
    assert_prints(&rt, a, blank_function(a)?, "λ(_ : Bool) → _")?;
    assert_prints(&rt, a, sum(a, 1, 2)?, "1 + 2")?;
    let applied = two(a, Op::App, natural(a, 1), leaf(a, Op::Int(2)))?;
    assert_prints(&rt, a, applied, "1 +2")?;
    let same = two(a, Op::Bin(BinOp::Equivalent), natural(a, 2), natural(a, 2))?;
    assert_prints(&rt, a, same, "2 ≡ 2")?;
    assert_prints(&rt, a, leaf(a, Op::Int(0)), "+0")?;
    Ok(())
}

fn records(alloc: Global) -> Result<Expr, AllocError> {
    let xy = Op::Record(labels(alloc, &["x", "y"])?);
    let inner = two(alloc, xy, natural(alloc, 2), leaf(alloc, Op::Bool(true)))?;
    let ab = Op::Record(labels(alloc, &["a", "b"])?);
    two(alloc, ab, inner, natural(alloc, 1))
}

fn greeting(alloc: Global) -> Result<Expr, AllocError> {
    let t = variable(alloc, "t", 0)?;
    let text = one(alloc, Op::Text(pieces(alloc, &["", "!"])?), t)?;
    bound(alloc, Op::Lam, builtin(alloc, Builtin::Text), "t", text)
}

#[test]
fn prints_records_and_texts(rt: HostRuntime) -> Result<(), Fail> {
    let a = rt.alloc();
    assert_prints(&rt, a, records(a)?, "{ a = { x = 2, y = True }, b = 1 }")?;
    assert_prints(&rt, a, greeting(a)?, "λ(t : Text) → \"${t}!\"")?;
    let shown = leaf(a, Op::Text(pieces(a, &["\"a\\u0024\""])?));
    assert_prints(&rt, a, shown, "\"\\\"a\\\\u0024\\\"\"")?;
    assert_prints(&rt, a, leaf(a, Op::Record(Many::new(a))), "{=}")?;
    assert_prints(&rt, a, leaf(a, Op::RecordType(Many::new(a))), "{}")?;
    assert_prints(&rt, a, leaf(a, Op::Union(Many::new(a))), "<>")?;
    Ok(())
}

fn product(alloc: Global) -> Result<Expr, AllocError> {
    two(
        alloc,
        Op::Bin(BinOp::Times),
        sum(alloc, 1, 2)?,
        natural(alloc, 3),
    )
}

fn sum_to_the_right(alloc: Global) -> Result<Expr, AllocError> {
    let right = sum(alloc, 2, 3)?;
    two(alloc, Op::Bin(BinOp::Plus), natural(alloc, 1), right)
}

fn annotated_merge(alloc: Global) -> Result<Expr, AllocError> {
    let handlers = variable(alloc, "r", 0)?;
    let merged = two(alloc, Op::Merge(false), handlers, variable(alloc, "u", 0)?)?;
    two(alloc, Op::Annot, merged, builtin(alloc, Builtin::Bool))
}

fn function_of_a_function(alloc: Global) -> Result<Expr, AllocError> {
    let text = builtin(alloc, Builtin::Text);
    let arrow = bound(alloc, Op::Pi, builtin(alloc, Builtin::Bool), "_", text)?;
    bound(alloc, Op::Pi, arrow, "_", builtin(alloc, Builtin::Bool))
}

fn selection_of_a_completion(alloc: Global) -> Result<Expr, AllocError> {
    let schema = variable(alloc, "T", 0)?;
    let completed = two(
        alloc,
        Op::Bin(BinOp::Complete),
        schema,
        variable(alloc, "r", 0)?,
    )?;
    one(alloc, Op::Field(Label::new(alloc, "x")?), completed)
}

#[test]
fn brackets_parts_of_lower_levels(rt: HostRuntime) -> Result<(), Fail> {
    let a = rt.alloc();
    assert_prints(&rt, a, product(a)?, "(1 + 2) * 3")?;
    assert_prints(&rt, a, sum_to_the_right(a)?, "1 + (2 + 3)")?;
    assert_prints(&rt, a, annotated_merge(a)?, "(merge r u) : Bool")?;
    assert_prints(&rt, a, function_of_a_function(a)?, "(Bool → Text) → Bool")?;
    let optional = one(a, Op::Some, one(a, Op::Some, natural(a, 1))?)?;
    assert_prints(&rt, a, optional, "Some (Some 1)")?;
    assert_prints(&rt, a, selection_of_a_completion(a)?, "(T::r).x")?;
    Ok(())
}

fn union(alloc: Global) -> Result<Expr, AllocError> {
    let mut alts = Many::new(alloc);
    let label = Label::new(alloc, "A")?;
    alts.push(Alt {
        label,
        typed: false,
    })?;
    let label = Label::new(alloc, "then")?;
    alts.push(Alt { label, typed: true })?;
    one(alloc, Op::Union(alts), builtin(alloc, Builtin::Bool))
}

fn update(alloc: Global) -> Result<Expr, AllocError> {
    let record = variable(alloc, "r", 0)?;
    two(
        alloc,
        Op::With(labels(alloc, &["a", "in"])?),
        record,
        natural(alloc, 1),
    )
}

fn import(alloc: Global) -> Result<Expr, AllocError> {
    let loc = Loc::Here(pieces(alloc, &["a b", "c"])?);
    let mode = Mode::Text;
    let digest = Some(Digest([0x0f; 32]));
    let import = BoxedImport::new(alloc, Import { loc, mode, digest })?;
    Ok(leaf(alloc, Op::Import(import)))
}

#[test]
fn quotes_names_that_need_it(rt: HostRuntime) -> Result<(), Fail> {
    let a = rt.alloc();
    let names = [
        ("a-b/c", "a-b/c"),
        ("iffy", "iffy"),
        ("if", "`if`"),
        ("Natural/show", "`Natural/show`"),
        ("Double", "`Double`"),
        ("", "``"),
        ("1a", "`1a`"),
        ("a b", "`a b`"),
    ];
    for (name, wanted) in names {
        assert_prints(&rt, a, variable(a, name, 0)?, wanted)?;
    }
    assert_prints(&rt, a, union(a)?, "< A | `then` : Bool >")?;
    assert_prints(&rt, a, update(a)?, "r with a.`in` = 1")?;
    let digits = "0f0f0f0f0f0f0f0f0f0f0f0f0f0f0f0f0f0f0f0f0f0f0f0f0f0f0f0f0f0f0f0f";
    let wanted = format!(in a; "./\"a b\"/c sha256:{digits} as Text")?;
    assert_prints(&rt, a, import(a)?, wanted.as_str())?;
    Ok(())
}
