//! Values worked out by hand from RFC 7049 and the standard's table of encodings.

use crate::decode;
use dh_syntax::{BinOp, Builtin, DecodeFault, Expr, Kid, Op};
use std::alloc::Global;
use std::test::Fail;

/// `1 + 2`.
const SUM: [u8; 9] = [0x84, 0x03, 0x04, 0x82, 0x0F, 0x01, 0x82, 0x0F, 0x02];

fn is_number(kid: &Kid, wanted: u128) -> bool {
    match &kid.body {
        Expr::Node(Op::Nat(n), kids) => *n == wanted && kids.is_empty(),
        Expr::Node(_, _) | Expr::Var(_, _) => false,
    }
}

/// Whether an expression is `1 + 2`.
fn is_sum(expression: &Expr) -> bool {
    match expression {
        Expr::Node(Op::Bin(BinOp::Plus), kids) => match kids.as_slice() {
            [left, right] => is_number(left, 1) && is_number(right, 2),
            _ => false,
        },
        Expr::Node(_, _) | Expr::Var(_, _) => false,
    }
}

#[test]
fn reads_sums_with_any_heads(rt: HostRuntime) -> Result<(), Fail> {
    let long = [0x98, 0x04, 0x03, 0x04, 0x82, 0x0F, 0x01, 0x82, 0x0F, 0x02];
    let forms: [&[u8]; 2] = [&SUM, &long];
    for bytes in forms {
        if bytes.len() < 1 << 32 {
            match decode(rt.alloc(), bytes) {
                Ok(expression) => assert!(rt; is_sum(&expression)),
                Err(_) => return Err(Fail::from("refused")),
            }
        }
    }
    Ok(())
}

/// The fault of bytes, if they have one.
fn fault_in(alloc: Global, bytes: &[u8]) -> Option<DecodeFault> {
    if bytes.len() >= 1 << 32 {
        return None;
    }
    match decode(alloc, bytes) {
        Ok(_) => None,
        Err(fault) => Some(fault),
    }
}

#[test]
fn tells_the_first_fault(rt: HostRuntime) {
    let rows: [(&[u8], DecodeFault); 6] = [
        (
            &[0x9B, 0xFF, 0xFF, 0xFF, 0xFF, 0xFF, 0xFF, 0xFF, 0xFF],
            DecodeFault::Cut(9),
        ),
        (
            &[0x82, 0x08, 0xA2, 0x61, 0x61, 0xF5, 0x61, 0x61, 0xF5],
            DecodeFault::Shape(6),
        ),
        (
            &[0x84, 0x03, 0x04, 0x82, 0x0F, 0x01, 0x82, 0x0F, 0x02, 0x00],
            DecodeFault::Rest(9),
        ),
        (&[0xF9, 0x3C, 0x00], DecodeFault::Float(0)),
        (&[0x9F, 0xFF], DecodeFault::Indefinite(0)),
        (&[0xC3, 0x41, 0x01], DecodeFault::Shape(0)),
    ];
    for (bytes, wanted) in rows {
        assert_eq!(rt; fault_in(rt.alloc(), bytes), Some(wanted));
    }
}

#[test]
fn tells_where_bytes_end(rt: HostRuntime) {
    for cut in 0..SUM.len() {
        assert_eq!(rt;
            fault_in(rt.alloc(), &SUM[..cut]),
            Some(DecodeFault::Cut(cut as u32))
        );
    }
}

#[test]
fn bounds_the_nesting(rt: HostRuntime) -> Result<(), Fail> {
    let alloc = rt.alloc();
    let mut bytes = Vec::new(alloc);
    for _ in 0..501 {
        bytes.push(0x82)?;
        bytes.push(0x13)?;
    }
    bytes.push(0xF5)?;
    assert_eq!(rt; fault_in(alloc, &bytes), Some(DecodeFault::TooNested));
    Ok(())
}

/// Whether an expression is `λ(_ : Bool) → _`.
fn is_identity(expression: &Expr) -> bool {
    match expression {
        Expr::Node(Op::Lam, kids) => match kids.as_slice() {
            [domain, body] => is_bool(domain) && is_bound(body),
            _ => false,
        },
        Expr::Node(_, _) | Expr::Var(_, _) => false,
    }
}

fn is_bool(kid: &Kid) -> bool {
    match &kid.body {
        Expr::Node(Op::Builtin(Builtin::Bool), kids) => kids.is_empty() && kid.binder.is_none(),
        Expr::Node(_, _) | Expr::Var(_, _) => false,
    }
}

/// Whether a part is the variable that it binds, `_`.
fn is_bound(kid: &Kid) -> bool {
    match (&kid.binder, &kid.body) {
        (Some(x), Expr::Var(y, index)) => x.as_str() == "_" && y.as_str() == "_" && *index == 0,
        _ => false,
    }
}

#[test]
fn reads_a_binder_that_is_not_written(rt: HostRuntime) -> Result<(), Fail> {
    let bytes = [0x83, 0x01, 0x64, 0x42, 0x6F, 0x6F, 0x6C, 0x00];
    match decode(rt.alloc(), &bytes) {
        Ok(expression) => assert!(rt; is_identity(&expression)),
        Err(_) => return Err(Fail::from("refused")),
    }
    Ok(())
}
