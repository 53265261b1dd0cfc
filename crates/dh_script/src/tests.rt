//! Scripts that are read, and faults as they are told.

use crate::{Order, ScriptFault, read_script};
use dh_paths::loc_text;
use std::alloc::{AllocError, Global};
use std::test::Fail;

/// An order as text, with its location as it is told.
fn shown(alloc: Global, order: &Order) -> Result<String, AllocError> {
    let place = loc_text(alloc, order.location())?;
    let place = place.as_str();
    match order {
        Order::Set(_, bytes) => {
            let digits = hex::encode(alloc, bytes.as_slice())?;
            format!(in alloc; "set {place} {digits};")
        }
        Order::Drop(_) => format!(in alloc; "drop {place};"),
        Order::Ask(_) => format!(in alloc; "ask {place};"),
    }
}

/// The orders of a script, or its fault, as text.
fn told(alloc: Global, script: &[u8]) -> Result<String, AllocError> {
    match read_script(alloc, script) {
        Ok(orders) => {
            let mut text = String::new(alloc);
            for order in &orders {
                text.push_str(shown(alloc, order)?.as_str())?;
            }
            Ok(text)
        }
        Err(fault) => format!(in alloc; "{fault}"),
    }
}

#[test]
fn reads_scripts(rt: HostRuntime) -> Result<(), Fail> {
    let alloc = rt.alloc();
    for (script, wanted) in [
        ("", ""),
        (
            "set ./a 2E2f62\ndrop ./b\nask ./c\n",
            "set ./a 2e2f62;drop ./b;ask ./c;",
        ),
        ("set ./a \nask env:A", "set ./a ;ask env:A;"),
        ("set ./\"a b\" 31", "set ./\"a b\" 31;"),
        ("ask ./b/../a\nask  ../x {- x -}", "ask ./a;ask ../x;"),
        (
            "ask https://h/a\nask http://h/b",
            "ask https://h/a;ask http://h/b;",
        ),
        ("ask ./a\n\nask ./b", "usage: line 2"),
        ("ask ./a\nask ./b\nset ./a 3\n", "usage: line 3"),
        ("set ./a 3g", "usage: line 1"),
        ("set ./a", "usage: line 1"),
        ("ask missing", "usage: line 1"),
        ("ask ./a as Text", "usage: line 1"),
        ("ask 1", "usage: line 1"),
        ("Ask ./a", "usage: line 1"),
    ] {
        assert_eq!(rt; told(alloc, script.as_bytes())?.as_str(), wanted);
    }
    Ok(())
}

#[test]
fn refuses_what_is_no_text(rt: HostRuntime) -> Result<(), Fail> {
    let alloc = rt.alloc();
    assert_eq!(rt; told(alloc, b"ask ./a\xFF")?.as_str(), "not UTF-8 at 7");
    let mut large = Vec::new(alloc);
    large.resize(1_048_577, b'\n')?;
    assert_eq!(rt;
        told(alloc, large.as_slice())?.as_str(),
        "larger than 1048576 bytes"
    );
    large.truncate(1_048_576);
    assert_eq!(rt;
        read_script(alloc, large.as_slice()).err(),
        Some(ScriptFault::Line(1))
    );
    Ok(())
}
