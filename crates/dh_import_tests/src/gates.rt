//! Runs past a slow gate: each fetch passes it first, and a worker that waits is woken by a release and at the end.

ghost use Rattle.std.specs.Prelude.{None};

use crate::tables::imports;
use dh_ports::{Desk, DeskError, Gate, Got, Silent};
use dh_session::{SessionFault, resolve_all};
use dh_shelf::Shelf;
use dh_syntax::{Bytes, Digest, Loc};
use dh_table::Ended;
use std::alloc::{AllocError, Global};
use std::sync::Wait;
use std::sync::atomic::{AtomicU64, Ordering};
use std::test::Fail;
use std::thread::Threads;

/// How often a fetch that is held looks up, so that the other worker comes to wait meanwhile.
const TURNS: u32 = 10_000_000;

/// A gate that holds each fetch for a while, and counts what passes it and what is fetched behind it.
#[derive(Drop)]
struct SlowGate {
    passed: AtomicU64,
    fetched: AtomicU64,
}

impl SlowGate {
    fn new() -> SlowGate {
        SlowGate {
            passed: AtomicU64::new(0),
            fetched: AtomicU64::new(0),
        }
    }

    /// Whether as many have passed as are fetched with one more.
    fn fetch_one(&self) -> bool {
        let fetched = self.fetched.fetch_add(1, Ordering::SeqCst);
        self.passed.load(Ordering::SeqCst) > fetched
    }
}

impl Gate for SlowGate {
    fn at_fetch(&self, _loc: &Loc) {
        for _ in 0..TURNS {
            let _ = self.fetched.load(Ordering::SeqCst);
        }
        self.passed.fetch_add(1, Ordering::SeqCst);
    }
}

/// A desk behind the gate. It finds nothing, or lacks the memory to tell.
#[derive(Drop)]
struct Guarded<'a> {
    gate: &'a SlowGate,
    lacks: bool,
    asked: u64,
    unpassed: u64,
}

impl Desk<Silent> for Guarded<'_> {
    ghost faults = { λ _. 0 };

    ghost asked = { λ d. d.asked };

    fn fetch(&mut self, _alloc: Global, _loc: &Loc) -> Result<Got, DeskError> {
        self.asked = self.asked.saturating_add(1);
        if !self.gate.fetch_one() {
            self.unpassed = self.unpassed.saturating_add(1);
        }
        if self.lacks {
            return Err(DeskError::Memory);
        }
        Ok(Got::Absent)
    }

    fn look(&mut self, _alloc: Global, _d: &Digest) -> Result<Option<Bytes>, DeskError> {
        Ok(None)
    }

    fn keep(&mut self, _d: &Digest, _bytes: &[u8]) -> Result<(), DeskError> {
        Ok(())
    }
}

fn desks(alloc: Global, gate: &SlowGate, lacks: bool) -> Result<Vec<Guarded<'_>>, AllocError> {
    let mut desks = Vec::new(alloc);
    for _ in 0..2 {
        desks.push(Guarded {
            gate,
            lacks,
            asked: 0,
            unpassed: 0,
        })?;
    }
    Ok(desks)
}

/// How a run of two workers past the gate ends, in one word.
fn ended_past<T: Threads + Wait + Sync>(
    rt: &T,
    alloc: Global,
    desks: &mut Vec<Guarded<'_>>,
    gate: &SlowGate,
) -> Result<&'static str, AllocError> {
    if desks.len() < 2 {
        return Err(AllocError);
    }
    let root = imports(alloc, 1)?;
    let shelf = Shelf::new(alloc)?;
    let answer = resolve_all::<_, Silent, _, _>(rt, alloc, desks, 2, &shelf, root, gate);
    Ok(match &answer {
        Ok(answered) => match &answered.ended {
            Ended::Ready(_) => "ready",
            Ended::Bad(_) => "bad",
        },
        Err(SessionFault::TooMany) => "too many",
        Err(SessionFault::Memory) => "memory",
    })
}

/// How often the desks were asked, and how often before the gate was passed.
fn counts(desks: &[Guarded<'_>]) -> (u64, u64) {
    let (mut asked, mut unpassed) = (0_u64, 0_u64);
    for desk in desks {
        asked = asked.saturating_add(desk.asked);
        unpassed = unpassed.saturating_add(desk.unpassed);
    }
    (asked, unpassed)
}

#[test]
fn a_worker_that_waits_is_woken(rt: HostRuntime) -> Result<(), Fail> {
    let alloc = rt.alloc();
    // Where memory is wanting the first worker gives its ticket back, and the second one tries in its turn.
    for (lacks, word, count) in [(false, "bad", 1_u64), (true, "memory", 2)] {
        let gate = SlowGate::new();
        let mut desks = desks(alloc, &gate, lacks)?;
        let end = ended_past(&rt, alloc, &mut desks, &gate)?;
        assert_eq!(rt; end, word);
        assert_eq!(rt; counts(desks.as_slice()), (count, 0));
    }
    Ok(())
}
