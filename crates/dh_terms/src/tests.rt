//! Each call on expressions whose results are worked out by hand.

use crate::{alpha, fits_alpha, fits_shift, fits_subst, free, same, shift, subst};
use dh_syntax::{
    Alt, BinOp, BoxedImport, Builtin, Expr, Import, Kid, Kids, Label, Labels, Loc, Many, Mode, Op,
    Piece,
};
use std::alloc::{AllocError, Global};
use std::process::Abort;
use std::test::Fail;

/// A binder over a body: the binder's name, and the name and the index of the variable that is the body.
#[derive(Clone, Copy)]
struct Form {
    binder: &'static str,
    name: &'static str,
    index: u32,
}

const fn form_of(binder: &'static str, name: &'static str, index: u32) -> Form {
    Form {
        binder,
        name,
        index,
    }
}

fn variable(alloc: Global, name: &str, index: u32) -> Result<Expr, AllocError> {
    Ok(Expr::Var(Label::new(alloc, name)?, index))
}

fn bool_type(alloc: Global) -> Expr {
    Expr::Node(Op::Builtin(Builtin::Bool), Many::new(alloc))
}

fn push(kids: &mut Kids, binder: Option<Label>, body: Expr) -> Result<(), AllocError> {
    kids.push(Kid { binder, body })
}

/// The operators that bind a variable.
fn binding_operators() -> [Op; 4] {
    [Op::Lam, Op::Pi, Op::Let(false), Op::Let(true)]
}

/// A node of such an operator, with `Bool` for each kid that is under no binder.
fn node(alloc: Global, op: &Op, binder: &str, body: Expr) -> Result<Expr, AllocError> {
    let op = op.copied(alloc)?;
    let mut kids = Many::new(alloc);
    push(&mut kids, None, bool_type(alloc))?;
    if let Op::Let(true) = &op {
        push(&mut kids, None, bool_type(alloc))?;
    }
    push(&mut kids, Some(Label::new(alloc, binder)?), body)?;
    Ok(Expr::Node(op, kids))
}

fn built(alloc: Global, op: &Op, of: &Form) -> Result<Expr, AllocError> {
    node(alloc, op, of.binder, variable(alloc, of.name, of.index)?)
}

fn assert_equal(
    rt: &impl Abort,
    alloc: Global,
    found: &Expr,
    wanted: &Expr,
) -> Result<(), AllocError> {
    let found = format!(in alloc; "{found:?}")?;
    let wanted = format!(in alloc; "{wanted:?}")?;
    assert_eq!(rt; found.as_str(), wanted.as_str());
    Ok(())
}

#[test]
fn shifts_up_past_binders(rt: HostRuntime) -> Result<(), Fail> {
    let a = rt.alloc();
    let x = Label::new(a, "x")?;
    // the least index that is shifted, an expression, and what it becomes
    let rows = [
        (0, form_of("x", "x", 1), form_of("x", "x", 2)),
        (0, form_of("x", "x", 0), form_of("x", "x", 0)),
        (0, form_of("y", "x", 0), form_of("y", "x", 1)),
        (0, form_of("y", "y", 1), form_of("y", "y", 1)),
        (2, form_of("x", "x", 3), form_of("x", "x", 4)),
        (2, form_of("x", "x", 2), form_of("x", "x", 2)),
        (2, form_of("y", "x", 2), form_of("y", "x", 3)),
        (2, form_of("y", "x", 1), form_of("y", "x", 1)),
        (
            0,
            form_of("y", "x", 4294967294),
            form_of("y", "x", 4294967295),
        ),
        (
            4294967295,
            form_of("x", "x", 4294967294),
            form_of("x", "x", 4294967294),
        ),
    ];
    for op in &binding_operators() {
        for (from, given, wanted) in &rows {
            let e = built(a, op, given)?;
            assert!(rt; fits_shift(true, &x, *from, &e));
            let shifted = shift(a, true, &x, *from, &e)?;
            assert_equal(&rt, a, &shifted, &built(a, op, wanted)?)?;
        }
    }
    Ok(())
}

#[test]
fn shifts_down_past_binders(rt: HostRuntime) -> Result<(), Fail> {
    let a = rt.alloc();
    let x = Label::new(a, "x")?;
    // the least index that is shifted, an expression, and what it becomes
    let rows = [
        (0, form_of("x", "x", 2), form_of("x", "x", 1)),
        (0, form_of("x", "x", 0), form_of("x", "x", 0)),
        (0, form_of("y", "x", 1), form_of("y", "x", 0)),
        (0, form_of("y", "y", 1), form_of("y", "y", 1)),
        (2, form_of("x", "x", 4), form_of("x", "x", 3)),
        (2, form_of("x", "x", 2), form_of("x", "x", 2)),
        (2, form_of("y", "x", 3), form_of("y", "x", 2)),
        (2, form_of("y", "x", 1), form_of("y", "x", 1)),
        (
            0,
            form_of("y", "x", 4294967295),
            form_of("y", "x", 4294967294),
        ),
        (
            4294967295,
            form_of("x", "x", 4294967295),
            form_of("x", "x", 4294967295),
        ),
    ];
    for op in &binding_operators() {
        for (from, given, wanted) in &rows {
            let e = built(a, op, given)?;
            assert!(rt; fits_shift(false, &x, *from, &e));
            let shifted = shift(a, false, &x, *from, &e)?;
            assert_equal(&rt, a, &shifted, &built(a, op, wanted)?)?;
        }
    }
    Ok(())
}

#[test]
fn substitutes_under_binders(rt: HostRuntime) -> Result<(), Fail> {
    let a = rt.alloc();
    let x = Label::new(a, "x")?;
    let y = variable(a, "y", 0)?;
    // the index of the variable, an expression, and what it becomes with `y` for that variable
    let rows = [
        (0, form_of("y", "x", 0), form_of("y", "y", 1)),
        (0, form_of("z", "x", 0), form_of("z", "y", 0)),
        (0, form_of("x", "x", 1), form_of("x", "y", 0)),
        (0, form_of("x", "x", 0), form_of("x", "x", 0)),
        (0, form_of("y", "x", 1), form_of("y", "x", 1)),
        (0, form_of("y", "y", 1), form_of("y", "y", 1)),
        (1, form_of("y", "x", 1), form_of("y", "y", 1)),
        (1, form_of("y", "x", 0), form_of("y", "x", 0)),
        (1, form_of("x", "x", 2), form_of("x", "y", 0)),
        (1, form_of("x", "x", 3), form_of("x", "x", 3)),
        (
            4294967294,
            form_of("z", "x", 4294967294),
            form_of("z", "y", 0),
        ),
        (
            4294967294,
            form_of("x", "x", 4294967295),
            form_of("x", "y", 0),
        ),
    ];
    for op in &binding_operators() {
        for (n, given, wanted) in &rows {
            let e = built(a, op, given)?;
            assert!(rt; fits_subst(*n, &y, &e));
            let substituted = subst(a, &x, *n, &y, &e)?;
            assert_equal(&rt, a, &substituted, &built(a, op, wanted)?)?;
        }
    }
    Ok(())
}

#[test]
fn renames_binders(rt: HostRuntime) -> Result<(), Fail> {
    let a = rt.alloc();
    let rows = [
        (form_of("x", "x", 0), form_of("_", "_", 0)),
        (form_of("x", "x", 1), form_of("_", "x", 0)),
        (form_of("x", "_", 0), form_of("_", "_", 1)),
        (form_of("_", "_", 1), form_of("_", "_", 1)),
        (form_of("y", "y", 1), form_of("_", "y", 0)),
        (form_of("y", "x", 1), form_of("_", "x", 1)),
    ];
    for op in &binding_operators() {
        for (given, wanted) in &rows {
            let e = built(a, op, given)?;
            assert!(rt; fits_alpha(&e));
            assert_equal(&rt, a, &alpha(a, &e)?, &built(a, op, wanted)?)?;
        }
    }
    Ok(())
}

#[test]
fn counts_binders_of_one_name(rt: HostRuntime) -> Result<(), Fail> {
    let a = rt.alloc();
    let inner = node(a, &Op::Lam, "x", variable(a, "x", 1)?)?;
    let e = node(a, &Op::Lam, "x", inner)?;
    let inner = node(a, &Op::Lam, "_", variable(a, "_", 1)?)?;
    let wanted = node(a, &Op::Lam, "_", inner)?;
    assert!(rt; fits_alpha(&e));
    assert_equal(&rt, a, &alpha(a, &e)?, &wanted)?;
    Ok(())
}

#[test]
fn tells_the_same_from_others(rt: HostRuntime) -> Result<(), Fail> {
    let a = rt.alloc();
    let rows = [
        (form_of("x", "x", 0), form_of("y", "y", 0), true),
        (form_of("x", "x", 1), form_of("y", "x", 0), true),
        (form_of("x", "_", 0), form_of("_", "_", 1), true),
        (form_of("x", "x", 0), form_of("y", "x", 0), false),
        (form_of("x", "x", 0), form_of("x", "x", 1), false),
        (form_of("x", "y", 0), form_of("x", "z", 0), false),
    ];
    let operators = binding_operators();
    for i in 0..operators.len() {
        for j in 0..operators.len() {
            for (left, right, wanted) in &rows {
                let left = built(a, &operators[i], left)?;
                let right = built(a, &operators[j], right)?;
                assert!(rt; fits_alpha(&left));
                assert!(rt; fits_alpha(&right));
                assert!(rt; same(a, &left, &right)? == (*wanted && i == j));
            }
        }
    }
    Ok(())
}

#[test]
fn finds_free_variables(rt: HostRuntime) -> Result<(), Fail> {
    let a = rt.alloc();
    let x = Label::new(a, "x")?;
    // the index of the variable, an expression, and whether the variable is free in it
    let rows = [
        (0, form_of("x", "x", 1), true),
        (0, form_of("x", "x", 0), false),
        (0, form_of("y", "x", 0), true),
        (0, form_of("y", "y", 0), false),
        (2, form_of("x", "x", 3), true),
        (2, form_of("x", "x", 2), false),
        (2, form_of("y", "x", 2), true),
        (4294967295, form_of("x", "x", 0), false),
        (4294967295, form_of("x", "x", 4294967295), false),
        (4294967295, form_of("y", "x", 4294967295), true),
    ];
    for op in &binding_operators() {
        for (n, given, wanted) in &rows {
            assert!(rt; free(&x, *n, &built(a, op, given)?) == *wanted);
        }
    }
    Ok(())
}

#[test]
fn tells_when_indices_have_no_room(rt: HostRuntime) -> Result<(), Fail> {
    let a = rt.alloc();
    let x = Label::new(a, "x")?;
    let last = variable(a, "x", 4294967295)?;
    let one_below = variable(a, "x", 4294967294)?;
    let deep = built(a, &Op::Lam, &form_of("y", "x", 0))?;
    assert!(rt; !fits_shift(true, &x, 0, &last));
    assert!(rt; fits_shift(true, &x, 0, &one_below));
    assert!(rt; !fits_shift(false, &x, 4294967295, &last));
    assert!(rt; !fits_subst(0, &last, &deep));
    assert!(rt; fits_subst(0, &one_below, &deep));
    assert!(rt; !fits_subst(4294967295, &one_below, &deep));
    assert!(rt; fits_alpha(&last));
    assert!(rt; !fits_alpha(&built(a, &Op::Lam, &form_of("y", "x", 4294967295))?));
    Ok(())
}

fn labels(alloc: Global, names: &[&str]) -> Result<Labels, AllocError> {
    let mut labels = Many::new(alloc);
    for name in names {
        labels.push(Label::new(alloc, name)?)?;
    }
    Ok(labels)
}

/// `"${..}"`: a text of one interpolation.
fn text(alloc: Global) -> Result<Op, AllocError> {
    let mut pieces = Many::new(alloc);
    pieces.push(Piece::new(alloc, "")?)?;
    pieces.push(Piece::new(alloc, "")?)?;
    Ok(Op::Text(pieces))
}

/// `< a : .. | b >`
fn union_type(alloc: Global) -> Result<Op, AllocError> {
    let mut alts = Many::new(alloc);
    for (name, typed) in [("a", true), ("b", false)] {
        let label = Label::new(alloc, name)?;
        alts.push(Alt { label, typed })?;
    }
    Ok(Op::Union(alts))
}

fn import(alloc: Global) -> Result<Op, AllocError> {
    let import = Import {
        loc: Loc::Missing,
        mode: Mode::Code,
        digest: None,
    };
    Ok(Op::Import(BoxedImport::new(alloc, import)?))
}

/// A node of this operator with so many kids under no binder, each of them this variable.
fn filled(
    alloc: Global,
    op: &Op,
    count: usize,
    name: &str,
    index: u32,
) -> Result<Expr, AllocError> {
    let mut kids = Many::new(alloc);
    for _ in 0..count {
        push(&mut kids, None, variable(alloc, name, index)?)?;
    }
    Ok(Expr::Node(op.copied(alloc)?, kids))
}

fn assert_shifts(rt: &impl Abort, alloc: Global, e: &Expr, up: &Expr) -> Result<(), AllocError> {
    let x = Label::new(alloc, "x")?;
    assert!(rt; fits_shift(true, &x, 0, e));
    assert_equal(rt, alloc, &shift(alloc, true, &x, 0, e)?, up)?;
    assert!(rt; fits_shift(false, &x, 0, up));
    assert_equal(rt, alloc, &shift(alloc, false, &x, 0, up)?, e)
}

/// With `y` for `x`.
fn assert_substitutes(
    rt: &impl Abort,
    alloc: Global,
    e: &Expr,
    wanted: &Expr,
) -> Result<(), AllocError> {
    let x = Label::new(alloc, "x")?;
    let y = variable(alloc, "y", 0)?;
    assert!(rt; fits_subst(0, &y, e));
    assert_equal(rt, alloc, &subst(alloc, &x, 0, &y, e)?, wanted)
}

fn assert_renames(
    rt: &impl Abort,
    alloc: Global,
    e: &Expr,
    wanted: &Expr,
) -> Result<(), AllocError> {
    assert!(rt; fits_alpha(e));
    assert_equal(rt, alloc, &alpha(alloc, e)?, wanted)?;
    assert!(rt; fits_alpha(wanted));
    assert!(rt; same(alloc, e, wanted)?);
    Ok(())
}

/// Each call goes into each kid of a node of this operator, which binds no variable and has so many kids.
fn assert_goes_into_kids(
    rt: &impl Abort,
    alloc: Global,
    op: &Op,
    count: usize,
) -> Result<(), AllocError> {
    let e = filled(alloc, op, count, "x", 0)?;
    assert_shifts(rt, alloc, &e, &filled(alloc, op, count, "x", 1)?)?;
    assert_substitutes(rt, alloc, &e, &filled(alloc, op, count, "y", 0)?)?;
    assert_renames(rt, alloc, &e, &e)
}

#[test]
fn goes_into_the_kids_of_operators(rt: HostRuntime) -> Result<(), Fail> {
    // operators, and how many kids they have
    let rows = [
        (Op::Builtin(Builtin::List), 0),
        (Op::Bool(true), 0),
        (Op::Nat(1), 0),
        (Op::Int(1), 0),
        (Op::App, 2),
        (Op::If, 3),
        (Op::Bin(BinOp::Plus), 2),
        (Op::EmptyList, 1),
        (Op::List, 4),
        (Op::Some, 1),
        (Op::Merge(false), 2),
        (Op::Merge(true), 3),
        (Op::ProjectType, 2),
        (Op::Assert, 1),
        (Op::Annot, 2),
        (Op::ToMap(false), 1),
        (Op::ToMap(true), 2),
    ];
    for (op, count) in &rows {
        assert_goes_into_kids(&rt, rt.alloc(), op, *count)?;
    }
    Ok(())
}

#[test]
fn goes_into_the_kids_of_operators_with_names(rt: HostRuntime) -> Result<(), Fail> {
    let a = rt.alloc();
    assert_goes_into_kids(&rt, a, &text(a)?, 1)?;
    assert_goes_into_kids(&rt, a, &import(a)?, 0)?;
    assert_goes_into_kids(&rt, a, &union_type(a)?, 1)?;
    assert_goes_into_kids(&rt, a, &Op::Field(Label::new(a, "a")?), 1)?;
    assert_goes_into_kids(&rt, a, &Op::RecordType(labels(a, &["a", "b"])?), 2)?;
    assert_goes_into_kids(&rt, a, &Op::Record(labels(a, &["a", "b"])?), 2)?;
    assert_goes_into_kids(&rt, a, &Op::Project(labels(a, &["a", "b"])?), 1)?;
    assert_goes_into_kids(&rt, a, &Op::With(labels(a, &["a"])?), 2)?;
    Ok(())
}

/// `λ(b : Bool) → λ(b : Bool) → .. → v`, with 500 binders.
fn chain(alloc: Global, binder: &str, name: &str, index: u32) -> Result<Expr, AllocError> {
    let mut e = variable(alloc, name, index)?;
    for _ in 0..500 {
        e = node(alloc, &Op::Lam, binder, e)?;
    }
    Ok(e)
}

#[test]
fn goes_below_many_binders(rt: HostRuntime) -> Result<(), Fail> {
    let a = rt.alloc();
    assert_shifts(&rt, a, &chain(a, "x", "x", 500)?, &chain(a, "x", "x", 501)?)?;
    assert_substitutes(&rt, a, &chain(a, "y", "x", 0)?, &chain(a, "y", "y", 500)?)?;
    assert_renames(&rt, a, &chain(a, "x", "x", 500)?, &chain(a, "_", "x", 0)?)?;
    assert_renames(&rt, a, &chain(a, "x", "x", 499)?, &chain(a, "_", "_", 499)?)?;
    Ok(())
}
