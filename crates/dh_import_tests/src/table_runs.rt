//! Tests of whole runs by hand: a loop of two files beside a file that is not there, and too many keys.

ghost use Rattle.std.specs.Prelude.{◌≡◌, ◌+◌, ◌≤◌, ◌∷◌, [], Ok, Some, None, IfOk, OnOk, codes, length};
ghost use Rattle.dh_syntax.specs.declared.expressions.Op.TheVariants as ops;
ghost use Rattle.dh_syntax.specs.declared.locations.Loc.TheVariants as locs;
ghost use Rattle.dh_syntax.specs.declared.locations.Mode.TheVariants as modes;
ghost use Rattle.dh_syntax.specs.Expressions.Bridge.{term};
ghost use Rattle.dh_syntax.specs.Expressions.Tree.{Node, end};
ghost use Rattle.dh_record.specs.Brought.{BringsText, BringsOutcome};

use crate::tables::{claimed, here, import, imports, is_kept, make_room, opened, task};
use dh_imports::{Blame, Outcome, Why};
use dh_ports::{Found, Got, Silent};
use dh_syntax::{BoxedImport, Bytes, Expr, Import, Key, Loc, Many, Mode, Op};
use dh_table::{
    Body, Claimed, Done, Ended, Item, News, Noted, OpenFault, Parsed, Step, Table, Ticket,
};
use dh_terms::is_same_key;
use std::alloc::{AllocError, Global};
use std::test::Fail;

/// The key of a file that is read as code.
fn key(alloc: Global, file: &str) -> Result<Key, AllocError>
    ensures { IfOk result (λ k. k ≡ record { loc = locs.Here (file.now ∷ []); mode = modes.Code; digest = None }) }
{
    let loc = here(alloc, file)?;
    Ok(Key {
        loc,
        mode: Mode::Code,
        digest: None,
    })
}

/// The expression that imports a file.
fn link(alloc: Global, file: &str) -> Result<Expr, AllocError>
    ensures { IfOk result (λ e. term e ≡ Node (ops.Import (record { loc = locs.Here (file.now ∷ []); mode = modes.Code; digest = None })) end) }
{
    let loc = here(alloc, file)?;
    let import = BoxedImport::new(
        alloc,
        Import {
            loc,
            mode: Mode::Code,
            digest: None,
        },
    )?;
    Ok(Expr::Node(Op::Import(import), Many::new(alloc)))
}

/// These found bytes.
fn found(alloc: Global, bytes: &[u8]) -> Result<Noted, AllocError>
    ensures { IfOk result (λ n. n ≡ Noted.Got (Got.Found (record { bytes = bytes.now; allow = None }))) }
{
    let bytes = Bytes::of(Vec::from_slice(alloc, bytes)?);
    Ok(Noted::Got(Got::Found(Found { bytes, allow: None })))
}

/// There is no file of this name.
fn absent_fetched(alloc: Global, file: &str) -> Result<News, AllocError>
    ensures { IfOk result (BringsText (λ _. None)) }
{
    let loc = here(alloc, file)?;
    Ok(News::Fetched {
        loc,
        got: Noted::Got(Got::Absent),
        scan: None,
    })
}

/// A file that is not there: the fault of its key.
fn absent(alloc: Global, file: &str) -> Result<Blame, AllocError>
    ensures { IfOk result (λ b. b ≡ record { at = Some (record { loc = locs.Here (file.now ∷ []); mode = modes.Code; digest = None }); why = Why.Absent }) }
{
    let key = key(alloc, file)?;
    Ok(Blame {
        at: Some(key),
        why: Why::Absent,
    })
}

/// The key of a file that is not there comes to its fault.
fn absent_finished(alloc: Global, file: &str) -> Result<News, AllocError>
    ensures { IfOk result BringsOutcome }
{
    let key = key(alloc, file)?;
    let fault = absent(alloc, file)?;
    let outcome = Outcome::Bad(absent(alloc, file)?);
    let item = Item {
        key,
        allow: None,
        body: Body::Fault(fault),
    };
    Ok(News::Finished(Done::of(item, outcome)))
}

/// The text `./b` of a file.
fn b_fetched(alloc: Global, file: &str) -> Result<News, AllocError>
    ensures { IfOk result (BringsText (λ _. None)) }
{
    let loc = here(alloc, file)?;
    let got = found(alloc, b"./b")?;
    let mut keys = Many::new(alloc);
    keys.push(key(alloc, "b")?)?;
    let expr = link(alloc, "b")?;
    Ok(News::Fetched {
        loc,
        got,
        scan: Some(Parsed::Good { expr, keys }),
    })
}

/// The text `./a` of `./b`.
fn a_fetched(alloc: Global) -> Result<News, AllocError>
    ensures { IfOk result (BringsText (λ _. None)) }
{
    let loc = here(alloc, "b")?;
    let got = found(alloc, b"./a")?;
    let mut keys = Many::new(alloc);
    keys.push(key(alloc, "a")?)?;
    let expr = link(alloc, "a")?;
    Ok(News::Fetched {
        loc,
        got,
        scan: Some(Parsed::Good { expr, keys }),
    })
}

/// Claims a task, and makes room for what is delivered on it.
fn ready(table: &mut Table<Silent>) -> Result<Ticket, AllocError>
    ensures { OnOk result (length table.new.flights + 1 ≤ table.new.spare) }
{
    let ticket = task(table, 1)?;
    make_room(table)?;
    Ok(ticket)
}

/// Claims a fetch and delivers that there is no such file; whether it was kept.
fn fetch_absent(alloc: Global, table: &mut Table<Silent>, file: &str) -> Result<bool, AllocError> {
    let ticket = ready(table)?;
    let news = absent_fetched(alloc, file)?;
    Ok(is_kept(table.fetched(ticket, news)))
}

/// Claims a last step and delivers that the file is not there; whether it was kept.
fn finish_absent(alloc: Global, table: &mut Table<Silent>, file: &str) -> Result<bool, AllocError> {
    let ticket = ready(table)?;
    let news = absent_finished(alloc, file)?;
    Ok(is_kept(table.finished(ticket, news)))
}

/// Claims the fetch of a file and delivers the text `./b`; whether it was kept.
fn fetch_b(alloc: Global, table: &mut Table<Silent>, file: &str) -> Result<bool, AllocError> {
    let ticket = ready(table)?;
    let news = b_fetched(alloc, file)?;
    Ok(is_kept(table.fetched(ticket, news)))
}

/// Claims the fetch of `./b` and delivers the text `./a`; whether it was kept.
fn fetch_a(alloc: Global, table: &mut Table<Silent>) -> Result<bool, AllocError> {
    let ticket = ready(table)?;
    let news = a_fetched(alloc)?;
    Ok(is_kept(table.fetched(ticket, news)))
}

/// A list of the imports of `./a` and `./x`.
fn a_and_x(alloc: Global) -> Result<Expr, AllocError> {
    let mut kids = Many::new(alloc);
    kids.push(import(alloc, "a", None)?)?;
    kids.push(import(alloc, "x", None)?)?;
    Ok(Expr::Node(Op::List, kids))
}

/// Delivers that `./x` is not there, which the table claims first, that `./a` is `./b`, and that `./b` is `./a`; whether all of it was
/// kept.
fn fetch_loop(alloc: Global, table: &mut Table<Silent>) -> Result<bool, AllocError> {
    let absent = fetch_absent(alloc, table, "x")?;
    let fault = finish_absent(alloc, table, "x")?;
    let first = fetch_b(alloc, table, "a")?;
    let second = fetch_a(alloc, table)?;
    Ok(absent && fault && first && second)
}

/// How the root ends, where it is decided.
fn ended(alloc: Global, table: &Table<Silent>) -> Result<Ended, AllocError> {
    if table.is_over() {
        table.root(alloc)
    } else {
        Err(AllocError)
    }
}

/// Whether the root ends at a loop of which this is the least key.
fn is_loop_at(ended: &Ended, key: &Key) -> bool {
    match ended {
        Ended::Ready(_) => false,
        Ended::Bad(blame) => matches!(blame.why, Why::Cycle) && is_at(&blame.at, key),
    }
}

fn is_at(at: &Option<Key>, key: &Key) -> bool {
    match at {
        None => false,
        Some(own) => is_same_key(own, key),
    }
}

/// Whether the root ends since there are too many keys.
fn is_too_many(ended: &Ended) -> bool {
    match ended {
        Ended::Ready(_) => false,
        Ended::Bad(blame) => matches!(blame.why, Why::TooMany) && blame.at.is_none(),
    }
}

/// Whether the root ends at a loop of which the key of this file is the least one.
fn ends_at(alloc: Global, table: &Table<Silent>, file: &str) -> Result<bool, AllocError> {
    let key = key(alloc, file)?;
    let end = ended(alloc, table)?;
    Ok(is_loop_at(&end, &key))
}

/// Runs to the end of the loop; whether each step answered as it should, and the root ends at the loop.
fn meets_loop(alloc: Global, table: &mut Table<Silent>) -> Result<bool, AllocError> {
    let kept = fetch_loop(alloc, table)?;
    let over = matches!(claimed(table, 2)?, Claimed::Over);
    let looped = ends_at(alloc, table, "a")?;
    Ok(kept && over && looped)
}

/// Whether a root of so many imports is refused.
fn is_refused(alloc: Global, count: usize) -> Result<bool, AllocError> {
    let table: Result<Table<Silent>, OpenFault> = Table::open(alloc, imports(alloc, count)?);
    Ok(matches!(table, Err(OpenFault::TooMany)))
}

/// Whether one more key is too many for the root, whose last import the table claims first.
fn overflows(alloc: Global, table: &mut Table<Silent>) -> Result<bool, AllocError> {
    let kept = fetch_b(alloc, table, "4095")?;
    let over = matches!(claimed(table, 2)?, Claimed::Over);
    Ok(kept && over && is_too_many(&ended(alloc, table)?))
}

#[test]
fn a_loop_is_marked_at_its_least_key_when_nothing_else_is_left(
    rt: HostRuntime,
) -> Result<(), Fail> {
    let alloc = rt.alloc();
    let mut table = opened(alloc, a_and_x(alloc)?)?;
    let right = meets_loop(alloc, &mut table)?;
    assert!(rt; right);
    assert_eq!(rt; table.history().len(), 9);
    assert!(rt; table.history().last() == Some(&Step::Cycled { key: 0 }));
    Ok(())
}

#[test]
fn more_than_4096_keys_are_too_many(rt: HostRuntime) -> Result<(), Fail> {
    let alloc = rt.alloc();
    assert!(rt; is_refused(alloc, 4_097)?);
    let mut table = opened(alloc, imports(alloc, 4_096)?)?;
    let right = overflows(alloc, &mut table)?;
    assert!(rt; right);
    Ok(())
}
