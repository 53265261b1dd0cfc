//! Tests: a root without imports, two imports of one key, a task that is put back, a frozen key, and news that is recorded or
//! comes too late.

ghost use Rattle.std.specs.Prelude.{◌≡◌, ◌+◌, ◌≤◌, ◌∷◌, [], None, IfOk, OnOk, length};
ghost use Rattle.dh_syntax.specs.declared.expressions.Op.TheVariants as ops;
ghost use Rattle.dh_syntax.specs.declared.locations.Loc.TheVariants as locs;
ghost use Rattle.dh_syntax.specs.Expressions.Bridge.{term};
ghost use Rattle.dh_syntax.specs.Expressions.Tree.{Node, end};
ghost use Rattle.dh_record.specs.Brought.{BringsText, BringsOutcome};

use dh_imports::{Origin, Outcome};
use dh_ports::{Found, Got, Silent};
use dh_syntax::{BoxedImport, Bytes, Digest, Expr, Import, Key, Kid, Loc, Many, Mode, Op, Piece};
use dh_table::{Body, Claimed, Done, Item, Kind, News, Noted, Parsed, Step, Table, Taken, Ticket};
use std::alloc::{AllocError, Global};
use std::test::Fail;

pub(crate) fn here(alloc: Global, file: &str) -> Result<Loc, AllocError>
    ensures { IfOk result (λ l. l ≡ locs.Here (file.now ∷ [])) }
{
    let mut comps = Many::new(alloc);
    comps.push(Piece::new(alloc, file)?)?;
    Ok(Loc::Here(comps))
}

pub(crate) fn import(alloc: Global, file: &str, digest: Option<Digest>) -> Result<Kid, AllocError> {
    let import = Import {
        loc: here(alloc, file)?,
        mode: Mode::Code,
        digest,
    };
    let import = BoxedImport::new(alloc, import)?;
    Ok(Kid {
        binder: None,
        body: Expr::Node(Op::Import(import), Many::new(alloc)),
    })
}

/// A list of so many imports, each of a key of its own.
pub(crate) fn imports(alloc: Global, count: usize) -> Result<Expr, AllocError> {
    let mut kids = Many::new(alloc);
    for n in 0..count {
        let file = format!(in alloc; "{n}")?;
        kids.push(import(alloc, file.as_str(), None)?)?;
    }
    Ok(Expr::Node(Op::List, kids))
}

pub(crate) fn opened(alloc: Global, root: Expr) -> Result<Table<Silent>, AllocError> {
    match Table::open(alloc, root) {
        Ok(table) => Ok(table),
        Err(_) => Err(AllocError),
    }
}

/// A claim, with the room that it needs.
pub(crate) fn claimed(table: &mut Table<Silent>, worker: u32) -> Result<Claimed, AllocError> {
    let Some(room) = table.in_flight().checked_add(3) else {
        return Err(AllocError);
    };
    table.reserve(room)?;
    Ok(table.claim(worker))
}

/// The ticket of a claim that hands out a task.
pub(crate) fn task(table: &mut Table<Silent>, worker: u32) -> Result<Ticket, AllocError> {
    match claimed(table, worker)? {
        Claimed::Task(ticket) => Ok(ticket),
        Claimed::Idle | Claimed::Over => Err(AllocError),
    }
}

/// The root that is a list of two imports of one key.
fn twice(alloc: Global) -> Result<Expr, AllocError> {
    let mut kids = Many::new(alloc);
    kids.push(import(alloc, "a", None)?)?;
    kids.push(import(alloc, "a", None)?)?;
    Ok(Expr::Node(Op::List, kids))
}

/// The root that is a list of one frozen import.
fn frozen(alloc: Global) -> Result<Expr, AllocError> {
    let mut kids = Many::new(alloc);
    kids.push(import(alloc, "a", Some(Digest([7; 32])))?)?;
    Ok(Expr::Node(Op::List, kids))
}

/// The expression `1`.
fn one(alloc: Global) -> Expr
    ensures { term result ≡ Node (ops.Nat 1) end }
{
    Expr::Node(Op::Nat(1), Many::new(alloc))
}

/// The table of the root `./a`.
fn importing(alloc: Global) -> Result<Table<Silent>, AllocError> {
    let Kid { binder: _, body } = import(alloc, "a", None)?;
    opened(alloc, body)
}

/// The text `1` of `./a`.
fn one_fetched(alloc: Global) -> Result<News, AllocError>
    ensures { IfOk result (BringsText (λ _. None)) }
{
    let loc = here(alloc, "a")?;
    let bytes = Bytes::of(Vec::from_slice(alloc, b"1")?);
    let got = Noted::Got(Got::Found(Found { bytes, allow: None }));
    let scan = Some(Parsed::Good {
        expr: one(alloc),
        keys: Many::new(alloc),
    });
    Ok(News::Fetched { loc, got, scan })
}

/// The value `1` of `./a`.
fn one_finished(alloc: Global) -> Result<News, AllocError>
    ensures { IfOk result BringsOutcome }
{
    let key = Key {
        loc: here(alloc, "a")?,
        mode: Mode::Code,
        digest: None,
    };
    let item = Item {
        key,
        allow: None,
        body: Body::Code(one(alloc)),
    };
    let outcome = Outcome::Good {
        value: one(alloc),
        origin: Origin::Fetched(None),
    };
    Ok(News::Finished(Done::of(item, outcome)))
}

/// Makes room for one more step.
pub(crate) fn make_room(table: &mut Table<Silent>) -> Result<(), AllocError>
    ensures { OnOk result (length table.new.flights + 1 ≤ table.new.spare) }
{
    let Some(room) = table.in_flight().checked_add(1) else {
        return Err(AllocError);
    };
    table.reserve(room)
}

/// Whether news is recorded.
pub(crate) fn is_kept(taken: Taken) -> bool {
    match taken {
        Taken::Kept => true,
        Taken::Late(_ticket, _serial) => false,
        Taken::Memory(_ticket, _news) => false,
    }
}

/// Whether news is late, and nothing is in flight for what it names.
fn is_unknown(taken: Taken) -> bool {
    match taken {
        Taken::Kept => false,
        Taken::Late(_ticket, serial) => serial == 0,
        Taken::Memory(_ticket, _news) => false,
    }
}

/// Delivers the text `1` of `./a`.
fn fetch_one(
    alloc: Global,
    table: &mut Table<Silent>,
    ticket: Ticket,
) -> Result<Taken, AllocError> {
    make_room(table)?;
    let news = one_fetched(alloc)?;
    Ok(table.fetched(ticket, news))
}

/// Delivers the value `1` of `./a`.
fn finish_one(
    alloc: Global,
    table: &mut Table<Silent>,
    ticket: Ticket,
) -> Result<Taken, AllocError> {
    make_room(table)?;
    let news = one_finished(alloc)?;
    Ok(table.finished(ticket, news))
}

/// Claims the fetch and the finish of `./a` and delivers both; whether both were kept, and a claim between had to wait.
fn resolve_one(alloc: Global, table: &mut Table<Silent>) -> Result<bool, AllocError> {
    let ticket = task(table, 1)?;
    let waited = is_waiting(table)?;
    let text = is_kept(fetch_one(alloc, table, ticket)?);
    let ticket = task(table, 2)?;
    let value = is_kept(finish_one(alloc, table, ticket)?);
    Ok(waited && text && value)
}

/// Whether a claim finds the root decided.
fn is_decided(table: &mut Table<Silent>) -> Result<bool, AllocError> {
    let over = matches!(claimed(table, 1)?, Claimed::Over);
    Ok(over && table.is_over() && !table.idle())
}

/// Whether a second claim has to wait.
fn is_waiting(table: &mut Table<Silent>) -> Result<bool, AllocError> {
    let idle = matches!(claimed(table, 9)?, Claimed::Idle);
    Ok(idle && table.idle() && !table.is_over())
}

/// Claims a task, puts it back, and claims it again; whether the claim between had to wait.
fn claim_twice(table: &mut Table<Silent>) -> Result<bool, AllocError> {
    let ticket = task(table, 7)?;
    let waited = is_waiting(table)?;
    let released = table.release(ticket);
    let _again = task(table, 8)?;
    Ok(waited && released)
}

#[test]
fn a_root_without_imports_is_over(rt: HostRuntime) -> Result<(), Fail> {
    let alloc = rt.alloc();
    let mut table = opened(alloc, imports(alloc, 0)?)?;
    let decided = is_decided(&mut table)?;
    assert!(rt; decided);
    assert_eq!(rt; table.key_count(), 0);
    assert!(rt; table.history().is_empty());
    Ok(())
}

#[test]
fn two_imports_of_one_key_are_one_task(rt: HostRuntime) -> Result<(), Fail> {
    let alloc = rt.alloc();
    let mut table = opened(alloc, twice(alloc)?)?;
    let right = claim_twice(&mut table)?;
    assert!(rt; right);
    assert_eq!(rt; table.key_count(), 1);
    let wanted = [
        Step::Claim {
            worker: 7,
            kind: Kind::Fetch,
            serial: 1,
        },
        Step::Release { serial: 1 },
        Step::Claim {
            worker: 8,
            kind: Kind::Fetch,
            serial: 2,
        },
    ];
    assert!(rt; table.history() == wanted.as_slice());
    Ok(())
}

#[test]
fn a_frozen_key_is_looked_up_first(rt: HostRuntime) -> Result<(), Fail> {
    let alloc = rt.alloc();
    let mut table = opened(alloc, frozen(alloc)?)?;
    let _ticket = task(&mut table, 1)?;
    assert_eq!(rt; table.key_count(), 2);
    let wanted = [Step::Claim {
        worker: 1,
        kind: Kind::Look,
        serial: 1,
    }];
    assert!(rt; table.history() == wanted.as_slice());
    Ok(())
}

#[test]
fn a_text_is_recorded_and_its_key_finished(rt: HostRuntime) -> Result<(), Fail> {
    let alloc = rt.alloc();
    let mut table = importing(alloc)?;
    let kept = resolve_one(alloc, &mut table)?;
    assert!(rt; kept);
    let decided = is_decided(&mut table)?;
    assert!(rt; decided);
    let wanted = [
        Step::Claim {
            worker: 1,
            kind: Kind::Fetch,
            serial: 1,
        },
        Step::Fetched { serial: 1 },
        Step::Claim {
            worker: 2,
            kind: Kind::Finish,
            serial: 2,
        },
        Step::Finished { serial: 2 },
    ];
    assert!(rt; table.history() == wanted.as_slice());
    Ok(())
}

#[test]
fn news_on_the_ticket_of_another_table_is_late(rt: HostRuntime) -> Result<(), Fail> {
    let alloc = rt.alloc();
    let mut table = importing(alloc)?;
    let mut other = importing(alloc)?;
    let ticket = task(&mut table, 1)?;
    let late = is_unknown(fetch_one(alloc, &mut other, ticket)?);
    assert!(rt; late);
    let wanted = [Step::Late { serial: 1 }];
    assert!(rt; other.history() == wanted.as_slice());
    Ok(())
}
