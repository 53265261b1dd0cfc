//! Tests with real threads over desks in memory: imports are fetched once by any number of workers, two fetches are under way at
//! once, a device that fails, a loop, and desks that stand in their order again.

use dh_imports::Why;
use dh_ports::{
    Content, Contents, Desk, DeskFails, Found, Gate, Got, HoldGate, MemDesk, OpenGate, Silent,
    are_short,
};
use dh_session::{SessionFault, resolve_all};
use dh_shelf::Shelf;
use dh_syntax::{BoxedImport, Bytes, Digest, Expr, Import, Kid, Loc, Many, Mode, Op, Piece};
use dh_table::Ended;
use std::alloc::{AllocError, Global};
use std::sync::Wait;
use std::test::Fail;
use std::thread::Threads;

/// A file and its text.
type File = (&'static str, &'static str);

fn here(alloc: Global, file: &str) -> Result<Loc, AllocError> {
    let mut comps = Many::new(alloc);
    comps.push(Piece::new(alloc, file)?)?;
    Ok(Loc::Here(comps))
}

fn import(alloc: Global, file: &str) -> Result<Kid, AllocError> {
    let import = Import {
        loc: here(alloc, file)?,
        mode: Mode::Code,
        digest: None,
    };
    let import = BoxedImport::new(alloc, import)?;
    Ok(Kid {
        binder: None,
        body: Expr::Node(Op::Import(import), Many::new(alloc)),
    })
}

/// The list of two imports.
fn both(alloc: Global, one: &str, other: &str) -> Result<Expr, AllocError> {
    let mut kids = Many::new(alloc);
    kids.push(import(alloc, one)?)?;
    kids.push(import(alloc, other)?)?;
    Ok(Expr::Node(Op::List, kids))
}

fn content(alloc: Global, file: File) -> Result<Content, AllocError> {
    let bytes = Bytes::of(Vec::from_slice(alloc, file.1.as_bytes())?);
    Ok(Content {
        loc: here(alloc, file.0)?,
        got: Got::Found(Found { bytes, allow: None }),
    })
}

fn contents(alloc: Global, files: [File; 2]) -> Result<Contents, AllocError> {
    let mut contents = Many::new(alloc);
    contents.push(content(alloc, files[0])?)?;
    contents.push(content(alloc, files[1])?)?;
    Ok(contents)
}

/// A desk over these files, of which the fetch of this number fails.
fn desk_over(alloc: Global, files: [File; 2], failing: u64) -> Result<MemDesk, AllocError> {
    let contents = contents(alloc, files)?;
    let fails = DeskFails {
        fetch: Many::of([failing].to_vec(alloc)?),
        look: Many::new(alloc),
        keep: Many::new(alloc),
    };
    if !are_short(&contents) {
        return Err(AllocError);
    }
    Ok(MemDesk::new(alloc, contents, Many::new(alloc), fails))
}

/// So many desks and one more, each of which has kept as many entries as stand before it.
fn desks_over(
    alloc: Global,
    files: [File; 2],
    failing: u64,
    workers: u32,
) -> Result<Vec<MemDesk>, AllocError> {
    let mut desks = Vec::new(alloc);
    for number in 0..=workers {
        let mut desk = desk_over(alloc, files, failing)?;
        for _ in 0..number {
            if desk.keep(&Digest([0; 32]), &[1]).is_err() {
                return Err(AllocError);
            }
        }
        desks.push(desk)?;
    }
    Ok(desks)
}

/// What is seen of a run.
#[derive(Debug, Drop, PartialEq)]
struct Ran {
    end: &'static str,
    asked: u64,
    faults: u64,
    in_order: bool,
}

/// How a root ended, in one word.
fn word(ended: &Ended) -> &'static str {
    match ended {
        Ended::Ready(_) => "ready",
        Ended::Bad(blame) => match &blame.why {
            Why::Failed => "failed",
            Why::Cycle => "cycle",
            Why::Absent => "absent",
            _ => "other",
        },
    }
}

fn seen(end: &'static str, desks: &[MemDesk]) -> Ran {
    let mut ran = Ran {
        end,
        asked: 0,
        faults: 0,
        in_order: true,
    };
    for (number, desk) in desks.iter().enumerate() {
        ran.asked = ran.asked.saturating_add(desk.asked_count());
        ran.faults = ran.faults.saturating_add(desk.fault_count());
        ran.in_order = ran.in_order && desk.kept().len() == number;
    }
    ran
}

/// A run over these files.
fn run_over<T: Threads + Wait + Sync, G: Gate + Sync>(
    rt: &T,
    alloc: Global,
    files: [File; 2],
    failing: u64,
    workers: u32,
    root: Expr,
    gate: &G,
) -> Result<Ran, AllocError> {
    let mut desks = desks_over(alloc, files, failing, workers)?;
    if workers == 0 || desks.len() < workers as usize {
        return Err(AllocError);
    }
    let shelf = Shelf::new(alloc)?;
    let answer = resolve_all::<T, Silent, MemDesk, G>(
        rt, alloc, &mut desks, workers, &shelf, root, gate,
    );
    let end = match &answer {
        Ok(answered) => word(&answered.ended),
        Err(SessionFault::TooMany) => "too many",
        Err(SessionFault::Memory) => "memory",
    };
    Ok(seen(end, desks.as_slice()))
}

const ONES: [File; 2] = [("a", "1"), ("b", "1")];

#[test]
fn imports_are_fetched_once_by_any_number_of_workers(rt: HostRuntime) -> Result<(), Fail> {
    let alloc = rt.alloc();
    for workers in [1_u32, 2, 8] {
        for (other, asked) in [("b", 2_u64), ("a", 1)] {
            let root = both(alloc, "a", other)?;
            let wanted = Ran {
                end: "ready",
                asked,
                faults: 0,
                in_order: true,
            };
            assert_eq!(rt;
                run_over(&rt, alloc, ONES, 9, workers, root, &OpenGate)?,
                wanted
            );
        }
    }
    Ok(())
}

#[test]
fn two_fetches_are_under_way_at_once(rt: HostRuntime) -> Result<(), Fail> {
    let alloc = rt.alloc();
    // Whichever of the two one worker fetches first is held in vain.
    for (workers, gave_up) in [(2_u32, false), (1, true)] {
        let mut in_vain = false;
        for (held, other) in [("a", "b"), ("b", "a")] {
            let gate = HoldGate::new(here(alloc, held)?, here(alloc, other)?);
            let root = both(alloc, "a", "b")?;
            let ran = run_over(&rt, alloc, ONES, 9, workers, root, &gate)?;
            assert_eq!(rt; ran.asked, 2);
            in_vain = in_vain || gate.gave_up();
        }
        assert_eq!(rt; in_vain, gave_up);
    }
    Ok(())
}

#[test]
fn a_device_that_fails_is_the_fault_of_the_root(rt: HostRuntime) -> Result<(), Fail> {
    let alloc = rt.alloc();
    let wanted = Ran {
        end: "failed",
        asked: 1,
        faults: 1,
        in_order: true,
    };
    let root = both(alloc, "a", "a")?;
    assert_eq!(rt; run_over(&rt, alloc, ONES, 1, 2, root, &OpenGate)?, wanted);
    Ok(())
}

#[test]
fn a_loop_is_the_fault_of_the_root(rt: HostRuntime) -> Result<(), Fail> {
    let alloc = rt.alloc();
    let wanted = Ran {
        end: "cycle",
        asked: 2,
        faults: 0,
        in_order: true,
    };
    let files = [("a", "./b"), ("b", "./a")];
    let root = both(alloc, "a", "a")?;
    assert_eq!(rt; run_over(&rt, alloc, files, 9, 2, root, &OpenGate)?, wanted);
    Ok(())
}
