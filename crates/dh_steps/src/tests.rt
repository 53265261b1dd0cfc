//! Steps whose ends are worked out by hand, and words that are places or not.

use crate::words::is_place;
use crate::written::{number, one, variable, written};
use crate::{
    MOST_PLACES, Places, apply_at, check_places, fits, has_room, outside, read_place, read_places,
    run_steps, settled,
};
use dh_syntax::{Builtin, Expr, Kid, Label, Many, Op, Path};
use std::alloc::{AllocError, Global};
use std::process::Abort;
use std::test::Fail;

/// The words of a line.
fn words(alloc: Global, line: &str) -> Result<Vec<String>, AllocError> {
    let mut words = Vec::new(alloc);
    for word in line.split_whitespace() {
        words.push(String::from_str(alloc, word)?)?;
    }
    Ok(words)
}

/// The expression at the end of the steps of an expression at places, and whether a step leads on; or the line of a fault.
fn told(
    rt: &impl Abort,
    alloc: Global,
    e: &Expr,
    places: &Places,
) -> Result<(Option<Expr>, String), AllocError> {
    assert!(rt; has_room(e));
    assert!(rt; places.len() <= 256);
    match run_steps(alloc, e, places) {
        Ok(end) => {
            let line = if settled(&end) {
                "normal"
            } else {
                "not normal"
            };
            Ok((Some(end), String::from_str(alloc, line)?))
        }
        Err(fault) => Ok((None, format!(in alloc; "{fault}")?)),
    }
}

/// Whether the steps at these places lead from this expression to that one, where they end so.
fn assert_ends(rt: &impl Abort, alloc: Global, row: (&str, &str, &str, &str)) -> Result<(), Fail> {
    let (from, line, to, wanted) = row;
    let e = written(alloc, from)?;
    let words = words(alloc, line)?;
    match read_places(alloc, words.as_slice())? {
        Some(places) => {
            let (end, last) = told(rt, alloc, &e, &places)?;
            let end = format!(in alloc; "{end:?}")?;
            let to = Some(written(alloc, to)?);
            let to = format!(in alloc; "{to:?}")?;
            assert_eq!(rt; end.as_str(), to.as_str());
            assert_eq!(rt; last.as_str(), wanted);
        }
        None => return Err(Fail::from("a word is no place")),
    }
    Ok(())
}

/// `(λ(x : Natural) → [ x, x ]) ((λ(y : Natural) → y) 1)`
const TWICE: &str = "Natural x x pair lambda_x Natural y lambda_y 1 apply apply";

#[test]
fn all_orders_end_in_one_expression(rt: HostRuntime) -> Result<(), Fail> {
    let inners = "Natural y lambda_y 1 apply Natural y lambda_y 1 apply pair";
    let rows = [
        (TWICE, "1 root", "1 1 pair", "normal"),
        (TWICE, "root 0 1", "1 1 pair", "normal"),
        (TWICE, "root 1 0", "1 1 pair", "normal"),
        (TWICE, "root", inners, "not normal"),
        (
            TWICE,
            "1",
            "Natural x x pair lambda_x 1 apply",
            "not normal",
        ),
        (TWICE, "", TWICE, "not normal"),
        ("1 1 pair", "", "1 1 pair", "normal"),
    ];
    for row in rows {
        assert_ends(&rt, rt.alloc(), row)?;
    }
    Ok(())
}

#[test]
fn tells_why_a_step_is_not_made(rt: HostRuntime) -> Result<(), Fail> {
    let rows = [
        (TWICE, "0", "no rule at step 1"),
        (TWICE, "root 7", "no rule at step 2"),
        (TWICE, "1 1", "no rule at step 2"),
        (TWICE, "0/4294967295", "no rule at step 1"),
        ("1 1 record .c", "root", "no rule at step 1"),
        ("x .a", "root", "no rule at step 1"),
        ("1 2 +", "", "not in the fragment at root"),
        ("1 2 +", "root", "not in the fragment at root"),
        ("0 1 2 + some pair", "root", "not in the fragment at 1/0"),
        (
            "Natural x Natural/show apply lambda_x",
            "",
            "not in the fragment at 1/1",
        ),
        (
            "True 1 2 + 1 if some 1 2 + pair",
            "",
            "not in the fragment at 0/0",
        ),
    ];
    let alloc = rt.alloc();
    for (from, line, wanted) in rows {
        let e = written(alloc, from)?;
        let words = words(alloc, line)?;
        match read_places(alloc, words.as_slice())? {
            Some(places) => {
                let (_, last) = told(&rt, alloc, &e, &places)?;
                assert_eq!(rt; last.as_str(), wanted);
            }
            None => return Err(Fail::from("a word is no place")),
        }
    }
    Ok(())
}

/// Where a step is made: an expression with a hole, and the place of the hole.
const AROUND: [(&str, &str, &str); 5] = [
    ("", "", "root"),
    ("Natural", "lambda_x", "1"),
    ("0", "pair", "1"),
    ("0", "record", "1"),
    ("0", "pair some", "0/1"),
];

#[test]
fn each_rule_is_used_under_binders_and_inside_literals(rt: HostRuntime) -> Result<(), Fail> {
    // the application of a function, both forms of `let`, an annotation, a field of a record
    let rules = [
        ("Natural y 2 pair lambda_y 1 apply", "1 2 pair"),
        (
            "Natural Natural y lambda_x lambda_y x apply",
            "Natural x@1 lambda_x",
        ),
        ("1 x x@1 pair let_x", "1 x pair"),
        ("Natural 1 x x@1 pair typed_let_x", "1 x pair"),
        ("1 Natural typed", "1"),
        ("1 2 record .a", "1"),
        ("1 2 record .b", "2"),
    ];
    let alloc = rt.alloc();
    for (before, behind, place) in AROUND {
        for (from, to) in rules {
            let from = format!(in alloc; "{before} {from} {behind}")?;
            let to = format!(in alloc; "{before} {to} {behind}")?;
            assert_ends(&rt, alloc, (from.as_str(), place, to.as_str(), "normal"))?;
        }
    }
    Ok(())
}

/// A list of so many of these.
fn list(alloc: Global, count: u32, of_variables: bool) -> Result<Expr, AllocError> {
    let mut kids = Many::new(alloc);
    for _ in 0..count {
        let body = if of_variables {
            variable(alloc, "x", 0)?
        } else {
            number(alloc, 1)
        };
        kids.push(Kid { binder: None, body })?;
    }
    Ok(Expr::Node(Op::List, kids))
}

/// The application of `λ(x : Natural) → e` to an argument.
fn applied(alloc: Global, e: Expr, argument: Expr) -> Result<Expr, AllocError> {
    let natural = Expr::Node(Op::Builtin(Builtin::Natural), Many::new(alloc));
    let mut parts = Many::new(alloc);
    parts.push(Kid {
        binder: None,
        body: natural,
    })?;
    parts.push(Kid {
        binder: Some(Label::new(alloc, "x")?),
        body: e,
    })?;
    let mut kids = Many::new(alloc);
    kids.push(Kid {
        binder: None,
        body: Expr::Node(Op::Lam, parts),
    })?;
    kids.push(Kid {
        binder: None,
        body: argument,
    })?;
    Ok(Expr::Node(Op::App, kids))
}

/// `Some` so many times over an expression.
fn under_somes(alloc: Global, e: Expr, count: u32) -> Result<Expr, AllocError> {
    let mut e = e;
    for _ in 0..count {
        e = one(alloc, Op::Some, e)?;
    }
    Ok(e)
}

fn place_of_zeros(alloc: Global, count: u32) -> Result<Path, AllocError> {
    let mut place = Many::new(alloc);
    for _ in 0..count {
        place.push(0)?;
    }
    Ok(place)
}

fn at_one_place(alloc: Global, place: Path) -> Result<Places, AllocError> {
    let mut places = Many::new(alloc);
    places.push(place)?;
    Ok(places)
}

#[test]
fn stops_before_an_expression_grows_too_large(rt: HostRuntime) -> Result<(), Fail> {
    let alloc = rt.alloc();
    // a list of 1,023 lists of 1,024 ones has 1 + 1,023 * 1,025 nodes, which is the limit; the next has one more
    let root = Many::new(alloc);
    let e = applied(alloc, list(alloc, 1023, true)?, list(alloc, 1024, false)?)?;
    assert!(rt; fits(&e, &root));
    let e = applied(alloc, list(alloc, 1024, true)?, list(alloc, 1023, false)?)?;
    let (_, last) = told(&rt, alloc, &e, &at_one_place(alloc, root)?)?;
    assert_eq!(rt; last.as_str(), "grown too large at step 1");
    // 250 levels put below 250 make 500; one more is too deep
    for (levels, wanted) in [(250, "normal"), (251, "grown too large at step 1")] {
        let body = under_somes(alloc, variable(alloc, "x", 0)?, 250)?;
        let e = applied(alloc, body, under_somes(alloc, number(alloc, 1), levels)?)?;
        let places = at_one_place(alloc, Many::new(alloc))?;
        let (_, last) = told(&rt, alloc, &e, &places)?;
        assert_eq!(rt; last.as_str(), wanted);
    }
    Ok(())
}

#[test]
fn a_step_is_made_500_deep(rt: HostRuntime) -> Result<(), Fail> {
    let alloc = rt.alloc();
    let rows = [
        (498, 498, "normal"),
        (498, 499, "no rule at step 1"),
        (498, 500, "no rule at step 1"),
        (497, 498, "no rule at step 1"),
    ];
    for (levels, numbers, wanted) in rows {
        let redex = applied(alloc, variable(alloc, "x", 0)?, number(alloc, 1))?;
        let e = under_somes(alloc, redex, levels)?;
        let places = at_one_place(alloc, place_of_zeros(alloc, numbers)?)?;
        let (_, last) = told(&rt, alloc, &e, &places)?;
        assert_eq!(rt; last.as_str(), wanted);
    }
    // 501 levels are no room, and no step is asked for
    let redex = applied(alloc, variable(alloc, "x", 0)?, number(alloc, 1))?;
    let e = under_somes(alloc, redex, 499)?;
    assert!(rt; !has_room(&e));
    Ok(())
}

/// Whether a step of an expression of the fragment at the place that a word names is made.
fn is_made(rt: &impl Abort, alloc: Global, e: &Expr, word: &str) -> Result<bool, Fail> {
    assert!(rt; has_room(e));
    match outside(alloc, e)? {
        Some(_) => Err(Fail::from("not in the fragment")),
        None => match read_place(alloc, word)? {
            Some(place) => {
                assert!(rt; fits(e, &place));
                Ok(apply_at(alloc, e, &place)?.is_some())
            }
            None => Err(Fail::from("a word is no place")),
        },
    }
}

#[test]
fn one_step_is_made_or_not(rt: HostRuntime) -> Result<(), Fail> {
    let alloc = rt.alloc();
    let e = written(alloc, TWICE)?;
    for (word, wanted) in [("root", true), ("1", true), ("0", false), ("1/0", false)] {
        assert_eq!(rt; is_made(&rt, alloc, &e, word)?, wanted);
    }
    Ok(())
}

#[test]
fn words_are_places_or_not(rt: HostRuntime) -> Result<(), Fail> {
    let rows = [
        ("root", "[]"),
        ("0", "[0]"),
        ("10/0/7", "[10, 0, 7]"),
        ("4294967295", "[4294967295]"),
        ("4294967295/4294967295", "[4294967295, 4294967295]"),
        ("4294967296", ""),
        ("1/4294967296", ""),
        ("", ""),
        ("/", ""),
        ("1/", ""),
        ("/1", ""),
        ("1//2", ""),
        ("00", ""),
        ("01", ""),
        ("1/00", ""),
        ("+1", ""),
        ("-1", ""),
        ("1 2", ""),
        ("1a", ""),
        ("Root", ""),
        ("root/1", ""),
        ("1/root", ""),
        ("٣", ""),
    ];
    let alloc = rt.alloc();
    for (word, wanted) in rows {
        let found = match read_place(alloc, word)? {
            Some(place) => {
                let numbers = place.as_slice();
                format!(in alloc; "{numbers:?}")?
            }
            None => String::new(alloc),
        };
        assert_eq!(rt; found.as_str(), wanted);
        assert!(rt; is_place(word) == !wanted.is_empty());
    }
    Ok(())
}

/// As many words `root` as `count` says, but for the word of the number `wrong`, from 0, which is no place.
fn roots(alloc: Global, count: usize, wrong: usize) -> Result<Vec<String>, AllocError> {
    let mut words = Vec::new(alloc);
    for i in 0..count {
        let word = if i == wrong { "7/" } else { "root" };
        words.push(String::from_str(alloc, word)?)?;
    }
    Ok(words)
}

#[test]
fn places_have_many_numbers_and_are_at_most_256(rt: HostRuntime) -> Result<(), Fail> {
    let alloc = rt.alloc();
    for count in [2, 3, 499, 500, 501] {
        let mut word = String::from_str(alloc, "1")?;
        for _ in 1..count {
            word.push_str("/0")?;
        }
        let numbers = match read_place(alloc, word.as_str())? {
            Some(place) => place.len(),
            None => 0,
        };
        assert!(rt; numbers == count);
    }
    let full = roots(alloc, 256, 256)?;
    assert_eq!(rt; check_places(MOST_PLACES, 2, full.as_slice()), Ok(()));
    let more = roots(alloc, 257, 257)?;
    assert_eq!(rt; check_places(MOST_PLACES, 2, more.as_slice()), Err(258));
    assert_eq!(rt; check_places(MOST_PLACES, 4, more.as_slice()), Err(260));
    let none = match read_places(alloc, more.as_slice())? {
        Some(_) => false,
        None => true,
    };
    assert!(rt; none);
    let wrong = roots(alloc, 257, 7)?;
    assert_eq!(rt; check_places(MOST_PLACES, 2, wrong.as_slice()), Err(9));
    Ok(())
}
