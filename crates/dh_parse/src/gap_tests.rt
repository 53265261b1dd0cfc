//! White space that is needed, and white space that is not; labels that may not be repeated; where parts may not stand.

use crate::tests::{fault_of, repeated};
use dh_syntax::ParseFault;
use std::alloc::{AllocError, Global};
use std::test::Fail;

/// The fault of a text in words; nothing where it has none.
fn shown_fault(alloc: Global, text: &str) -> Result<String, AllocError> {
    match fault_of(alloc, text.as_bytes()) {
        Some(fault) => format!(in alloc; "{fault}"),
        None => Ok(String::new(alloc)),
    }
}

#[test]
fn gaps_are_needed(rt: HostRuntime) -> Result<(), Fail> {
    let alloc = rt.alloc();
    // What stands before a gap, and what stands behind it.
    let table: [(&str, &str); 36] = [
        ("\\(x :", "(Bool)) -> x"),
        ("forall (x :", "(Bool)) -> x"),
        ("if", "(p) then 1 else 2"),
        ("if p then", "(1) else 2"),
        ("if p then 1 else", "(2)"),
        ("let", "`x` = 1 in x"),
        ("let x :", "(Bool) = True in x"),
        ("let x = (1)", "let y = 2 in x"),
        ("let x = (1)", "in x"),
        ("let x = 1 in", "(x)"),
        ("(x)", "with a = 1"),
        ("x with", "`a` = 1"),
        ("x with a = (1)", "with b = 2"),
        ("merge", "(x) y"),
        ("merge x", "(y)"),
        ("merge x y :", "(T)"),
        ("Some", "(x)"),
        ("toMap", "(x)"),
        ("toMap x :", "(T)"),
        ("[] :", "(List Bool)"),
        ("assert :", "(x)"),
        ("x :", "(T)"),
        ("1 +", "(2)"),
        ("x ?", "(y)"),
        ("f", "(x)"),
        ("f", "[ 1 ]"),
        ("f", "{=}"),
        ("f", "< A >"),
        ("f", "\"a\""),
        ("(f)", "x"),
        ("(f)", "1"),
        ("(f)", "Bool"),
        (
            "env:\"A\"",
            "sha256:0123456789abcdef0123456789abcdef0123456789abcdef0123456789abcdef",
        ),
        ("< A :", "(T) >"),
        ("{ a :", "(T) }"),
        ("{ a : T, b :", "(U) }"),
    ];
    for (before, behind) in table {
        let text = format!(in alloc; "{before}{behind}")?;
        let fault = format!(in alloc; "syntax at {}", before.len())?;
        assert_eq!(rt;
            shown_fault(alloc, text.as_str())?.as_str(),
            fault.as_str(),
            "{text}"
        );
        let text = format!(in alloc; "{before} {behind}")?;
        assert_eq!(rt; shown_fault(alloc, text.as_str())?.as_str(), "", "{text}");
    }
    Ok(())
}

#[test]
fn other_gaps_are_not_needed(rt: HostRuntime) -> Result<(), Fail> {
    let alloc = rt.alloc();
    let table: [&str; 26] = [
        "\\(x: Bool)->x",
        "forall(x: Bool)->x",
        "if (p)then (1)else 2",
        "let x=1 in x",
        "let x: Bool=True in x",
        "x with a.b=1",
        "merge x y: T",
        "toMap x: T",
        "[]: T",
        "[,]: T",
        "assert: x",
        "(x): T",
        "(x)->(y)",
        "(x)+ 1",
        "(x)? y",
        "x&&y||z==a!=b",
        "[1,2]#[3]",
        "(x)/\\(y)//(z)//\\\\(a)",
        "x*1++\"a\"",
        "x===y",
        "x::y",
        "x.a.b.{a,b}.(T)",
        "{a=1,b.c=2,d}",
        "{a: T,b: U}",
        "<A|B: T>",
        "env:\"A\"as Text",
    ];
    for text in table {
        assert_eq!(rt; shown_fault(alloc, text)?.as_str(), "", "{text}");
    }
    Ok(())
}

#[test]
fn labels_are_not_repeated(rt: HostRuntime) -> Result<(), Fail> {
    let alloc = rt.alloc();
    let table: [(&str, &str); 13] = [
        ("{ a : x, b : y, `a` : z }", "syntax at 16"),
        ("{ Bool : x, `Bool` : y }", "syntax at 12"),
        ("{ Some : x, `Some` : y }", "syntax at 12"),
        ("{ True : x, True : y }", "syntax at 12"),
        ("< A | A >", "syntax at 6"),
        ("< A : x | B | A >", "syntax at 14"),
        ("< A | B : y | `A` : x >", "syntax at 14"),
        ("x.{ a, a }", "syntax at 7"),
        ("x.{ a, b, `a` }", "syntax at 10"),
        // Entries of one label are joined.
        ("{ a = 1, a = 2 }", ""),
        ("{ a, a.b = 1 }", ""),
        ("x with a.a = 1", ""),
        ("{ a : x, A : y }", ""),
    ];
    for (text, fault) in table {
        assert_eq!(rt; shown_fault(alloc, text)?.as_str(), fault, "{text}");
    }
    Ok(())
}

#[test]
fn parts_stand_in_their_places(rt: HostRuntime) -> Result<(), Fail> {
    let alloc = rt.alloc();
    let table: [(&str, &str); 24] = [
        // What is updated is no application and no sum, and what it gets has no `:`, no `→` and no keyword of its own.
        ("x + y with a = 1", "syntax at 6"),
        ("Some x with a = 1", "syntax at 7"),
        ("merge x y with a = 1", "syntax at 10"),
        ("x with a = y : T", "syntax at 13"),
        ("x with a = y -> z", "syntax at 13"),
        ("x with a = \\(y : T) -> z", "syntax at 11"),
        ("x with a = if b then c else d", "syntax at 11"),
        ("x with a = let b = 1 in b", "syntax at 11"),
        ("x with a", "syntax at 8"),
        ("x with 1 = 2", "syntax at 7"),
        ("x with a.? = 1", "syntax at 9"),
        ("(x + y) with a = (z : T)", ""),
        // `as` and a digest belong to imports, each once and the digest first.
        ("./a as Bool", "syntax at 7"),
        ("./a as Bytes", "left out of this profile at 7"),
        ("./a as Text as Text", "syntax at 12"),
        ("x as Text", "syntax at 2"),
        (
            "x sha256:0123456789abcdef0123456789abcdef0123456789abcdef0123456789abcdef",
            "syntax at 2",
        ),
        (
            "./a as Text sha256:0123456789abcdef0123456789abcdef0123456789abcdef0123456789abcdef",
            "syntax at 12",
        ),
        // `::` and `.` stand behind no import.
        ("./a :: b", "syntax at 4"),
        ("a :: ./b", "syntax at 5"),
        ("missing.a", "syntax at 7"),
        ("(missing).a :: (./b)", ""),
        // An empty list has an annotation, and what stands behind `:` may have one.
        ("[]", "syntax at 2"),
        ("[] : T : U", ""),
    ];
    for (text, fault) in table {
        assert_eq!(rt; shown_fault(alloc, text)?.as_str(), fault, "{text}");
    }
    // A token that cannot stand there comes before what nests too deep.
    let open = repeated(alloc, 500, "[", "] )", "")?;
    assert_eq!(rt;
        fault_of(alloc, open.as_bytes()),
        Some(ParseFault::Syntax(502))
    );
    Ok(())
}
