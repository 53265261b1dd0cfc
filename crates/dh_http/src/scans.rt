//! Where lines end, so that what is read in lines is parsed as they end, and not at each byte that comes.

ghost use Rattle.std.specs.Prelude.{◌≡◌, ◌<◌, ◌≤◌, length, take, IfOk, OnErr, IsTrue};
ghost use Rattle.dh_ports.specs.Counts.{Rose};
ghost use Rattle.dh_http.specs.Bodies.{most_line};
ghost use Rattle.dh_http.specs.Reading.{Fits, place, Stopped};
ghost use Rattle.dh_http.specs.Scanning.{Gathered};

use crate::inboxes::{Inbox, grow};
use crate::links::{GetError, Link};

/// How many lines are looked at as soon as they end: a status line, as many fields as a head has, and one more. Of the lines of a
/// longer trailer section only the empty one is.
const MOST_ENDS: u32 = 66;

/// What was seen of the line that goes on.
#[derive(Clone, Copy, Debug)]
enum Line {
    /// Line ends alone, before the first line.
    Before,
    /// The start of a line.
    Start,
    /// A line behind its start.
    Later,
}

/// How far the window was looked through for ends: the ends of the first lines, and empty lines. No contract says which ends
/// are found, since what is read does not depend on it.
#[derive(Debug, Drop)]
pub(crate) struct Scan {
    line: Line,
    ends: u32,
    seen: usize,
}

impl Scan {
    /// For a head, before which empty lines may stand.
    pub(crate) fn of_head() -> Scan
        ensures { result.seen ≡ 0 }
    {
        Scan {
            line: Line::Before,
            ends: 0,
            seen: 0,
        }
    }

    /// For a line alone, or for a section, which ends with an empty line.
    pub(crate) fn of_lines() -> Scan
        ensures { result.seen ≡ 0 }
    {
        Scan {
            line: Line::Start,
            ends: 0,
            seen: 0,
        }
    }

    /// Passes over a byte, and answers whether it is an end.
    fn pass(&mut self, byte: u8) -> bool
        ensures { self.new.seen ≡ self.old.seen }
    {
        let (line, is_end) = match (self.line, byte) {
            (Line::Before, b'\r' | b'\n') => (Line::Before, false),
            (Line::Start, b'\n') => (Line::Start, true),
            (Line::Later, b'\n') => (Line::Start, self.ends < MOST_ENDS),
            (Line::Start, b'\r') => (Line::Start, false),
            _ => (Line::Later, false),
        };
        self.line = line;
        self.ends = self.ends.saturating_add(u32::from(is_end));
        is_end
    }

    /// Looks on through the window, up to the next end. Answers whether there is one.
    fn find(&mut self, window: &[u8]) -> bool
        requires { self.old.seen ≤ length window.now }
        ensures within { self.new.seen ≤ length window.now }
        ensures back { self.old.seen ≤ self.new.seen }
        ensures on { IsTrue result → self.old.seen < self.new.seen }
    {
        'bytes: while self.seen < window.len() {
            let byte = window[self.seen];
            self.seen += 1;
            if self.pass(byte) {
                return true;
            }
        }
        false
    }
}

/// Receives until the window has one more end, and answers whether it has. Where not, nothing more comes into the window.
pub(crate) fn await_end<L: Link>(
    link: &mut L,
    inbox: &mut Inbox,
    scan: &mut Scan,
) -> Result<bool, GetError>
    requires fits { Fits (L.left link.old) inbox.old }
    requires seen { scan.old.seen ≤ length (take most_line inbox.old.bytes) }
    ensures gathered { IfOk result (Gathered
        (place (L.sent link.old) (L.left link.old) (L.receives link.old) (L.faults link.old) inbox.old)
        (place (L.sent link.new) (L.left link.new) (L.receives link.new) (L.faults link.new) inbox.new)
        scan.old.seen scan.new.seen) }
    ensures stopped { OnErr result (Stopped
        (place (L.sent link.old) (L.left link.old) (L.receives link.old) (L.faults link.old) inbox.old)
        (place (L.sent link.new) (L.left link.new) (L.receives link.new) (L.faults link.new) inbox.new)) }
    ensures failed { result ≡ Err GetError.Failed → Rose (L.faults link.old) (L.faults link.new) }
{
    'pieces: loop {
        if scan.find(inbox.window()) {
            return Ok(true);
        }
        if !grow(link, inbox)? {
            return Ok(false);
        }
    }
}
