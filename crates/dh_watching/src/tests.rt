//! What runs of scripts write, over answers that are made up.

ghost use Rattle.std.specs.Prelude.{◌≡◌, ◌≤◌, OnOk, OnErr};
ghost use Rattle.dh_ports.specs.Counts.{Rose};

use crate::{Line, WatchFault, Watches, run_watch};
use dh_command::Status;
use dh_paths::loc_text;
use dh_ports::{CallList, DeskError, MemFeed, MemSink};
use dh_syntax::{Bytes, Loc};
use std::alloc::{AllocError, Global};
use std::test::Fail;

/// Each ask is answered with the text of its location, and with the number of the call. Two calls do not succeed: a device fails, and an
/// ask visits too many keys.
#[derive(Drop)]
struct Made {
    alloc: Global,
    calls: u32,
    fails: u32,
    overflows: u32,
    failed: u64,
}

impl Made {
    /// One more call; whether a device fails in it.
    fn call(&mut self) -> Result<(), DeskError>
        ensures counted { self.old.failed ≤ self.new.failed }
        ensures quiet { OnOk result (self.new.failed ≡ self.old.failed) }
        ensures failed { OnErr result (Rose self.old.failed self.new.failed) }
    {
        self.calls = self.calls.saturating_add(1);
        if self.calls == self.fails {
            self.failed = self.failed.saturating_add(1);
            return Err(DeskError::Failed);
        }
        Ok(())
    }

    fn answer(&self, loc: &Loc) -> Result<Line, AllocError> {
        Ok(Line {
            text: loc_text(self.alloc, loc)?,
            status: if self.calls == 3 {
                Status::Ill
            } else {
                Status::Ok
            },
            asked: self.calls,
        })
    }
}

/// What a run on a script writes, its standard error behind a bar, and how it ends.
fn run(
    alloc: Global,
    script: &str,
    words: &[String],
    fails: u32,
    overflows: u32,
) -> Result<(String, Status), Fail> {
    let none = || CallList::new(alloc);
    let mut input = MemFeed::new(
        alloc,
        Bytes::of(Vec::from_slice(alloc, script.as_bytes())?),
        none(),
    );
    let mut out = MemSink::new(alloc, none());
    let mut err = MemSink::new(alloc, none());
    let mut made = Made {
        alloc,
        calls: 0,
        fails,
        overflows,
        failed: 0,
    };
    let status = run_watch(alloc, words, &mut made, &mut input, &mut out, &mut err);
    let mut text = String::new(alloc);
    text.push_str(str::from_utf8(out.written_bytes())?)?;
    text.push_str("|")?;
    text.push_str(str::from_utf8(err.written_bytes())?)?;
    Ok((text, status))
}

impl Watches for Made {
    ghost use Rattle.std.specs.Prelude.{None, []};

    ghost agrees = { λ _. Unit {0} };

    ghost now = { λ _. None };

    ghost kept = { λ _. [] };

    ghost asked = { λ _. 0 };

    ghost faults = { λ m. m.failed };

    fn change(&mut self, _loc: &Loc, _bytes: Option<Bytes>) -> Result<(), DeskError> {
        self.call()
    }

    #[tactic(auto, using(crate::proofs::Stepping::none_new))]
    fn ask(&mut self, loc: &Loc) -> Result<Line, WatchFault> {
        if self.call().is_err() {
            return Err(WatchFault::Failed);
        }
        if self.calls == self.overflows {
            return Err(WatchFault::TooMany);
        }
        match self.answer(loc) {
            Ok(line) => Ok(line),
            Err(_) => Err(WatchFault::Memory),
        }
    }
}

/// Three asks, with an edit before each of the last two.
const ORDERS: &str = "ask ./a\nset ./b 31\nask ./b/../b\ndrop ./c\nask ./\"c d\"\n";

#[test]
fn writes_a_line_for_each_ask(rt: HostRuntime) -> Result<(), Fail> {
    let alloc = rt.alloc();
    for (script, fails, overflows, wanted, status) in [
        ("", 0, 0, "|", Status::Ok),
        ("ask ./a", 0, 0, "./a: ./a (asked 1)\n|", Status::Ok),
        (
            ORDERS,
            0,
            0,
            "./a: ./a (asked 1)\n./b: ./b (asked 3)\n./\"c d\": ./\"c d\" (asked 5)\n|",
            Status::Ill,
        ),
        (
            ORDERS,
            1,
            0,
            "./a: device failed\n./b: ./b (asked 3)\n./\"c d\": ./\"c d\" (asked 5)\n|",
            Status::Desk,
        ),
        (
            ORDERS,
            0,
            5,
            "./a: ./a (asked 1)\n./b: ./b (asked 3)\n./\"c d\": more than 4096 imports\n|",
            Status::Ill,
        ),
        (
            ORDERS,
            0,
            1,
            "./a: more than 4096 imports\n./b: ./b (asked 3)\n./\"c d\": ./\"c d\" (asked 5)\n|",
            Status::Limit,
        ),
        (
            ORDERS,
            2,
            0,
            "./a: ./a (asked 1)\n|device failed\n",
            Status::Desk,
        ),
        (
            ORDERS,
            4,
            0,
            "./a: ./a (asked 1)\n./b: ./b (asked 3)\n|device failed\n",
            Status::Desk,
        ),
        ("ask ./a\nask\n", 0, 0, "|usage: line 2\n", Status::Usage),
    ] {
        let (text, ended) = run(alloc, script, &[], fails, overflows)?;
        assert_eq!(rt; text.as_str(), wanted);
        assert_eq!(rt; ended, status);
    }
    Ok(())
}

#[test]
fn takes_no_words(rt: HostRuntime) -> Result<(), Fail> {
    let alloc = rt.alloc();
    let words = vec![in alloc; String::from_str(alloc, "ask")?]?;
    let (text, ended) = run(alloc, ORDERS, words.as_slice(), 0, 0)?;
    assert_eq!(rt; text.as_str(), "|usage: word 1\n");
    assert_eq!(rt; ended, Status::Usage);
    Ok(())
}
