//! Digests of bytes worked out by hand from the standard's table of encodings, computed by `sha256sum`.

use crate::{digest, digest_text};
use dh_syntax::{Builtin, Expr, Kid, Label, Many, Op, is_well_formed, nest};
use dh_terms::fits_alpha;
use std::alloc::{AllocError, Global};
use std::test::Fail;

fn literal(alloc: Global, n: u128) -> Expr {
    Expr::Node(Op::Nat(n), Many::new(alloc))
}

/// `λ(x : Bool) → x` with this name.
fn identity(alloc: Global, name: &str) -> Result<Expr, AllocError> {
    let mut kids = Many::new(alloc);
    kids.push(Kid {
        binder: None,
        body: Expr::Node(Op::Builtin(Builtin::Bool), Many::new(alloc)),
    })?;
    kids.push(Kid {
        binder: Some(Label::new(alloc, name)?),
        body: Expr::Var(Label::new(alloc, name)?, 0),
    })?;
    Ok(Expr::Node(Op::Lam, kids))
}

#[test]
fn writes_digests(rt: HostRuntime) -> Result<(), Fail> {
    let alloc = rt.alloc();
    // `82 0F 01`, and `83 01 64 42 6F 6F 6C 00` whatever the name.
    let rows = [
        (
            literal(alloc, 1),
            "d60d8415e36e86dae7f42933d3b0c4fe3ca238f057fba206c7e9fbf5d784fe15",
        ),
        (
            identity(alloc, "x")?,
            "400a629db0d5af895d438acf74d60a07c0315c88b17cd541ae182d7dfc3247d6",
        ),
        (
            identity(alloc, "_")?,
            "400a629db0d5af895d438acf74d60a07c0315c88b17cd541ae182d7dfc3247d6",
        ),
    ];
    for (e, wanted) in &rows {
        if is_well_formed(e) && nest(e) <= 1 && fits_alpha(e) {
            let text = digest_text(alloc, &digest(alloc, e)?)?;
            assert_eq!(rt; text.as_str(), *wanted);
        } else {
            return Err(Fail::from("not fit"));
        }
    }
    Ok(())
}
