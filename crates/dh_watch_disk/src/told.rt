//! What is told of a location, and why no more is told.

ghost use Rattle.std.specs.Prelude.{◌≡◌};
ghost use Rattle.std.specs.Str.{bytes_eq};
ghost use Rattle.dh_watch_disk.specs.Showing.{are_open, is_open, status_of, told_status, told_text};

use dh_command::Status;
use dh_ports::DeskError;
use dh_watching::{Line, WatchFault, first_fault, refusal_status, refusal_text};
use std::alloc::AllocError;

/// What an ask of a location came to.
#[derive(Debug)]
pub enum Told {
    Line(Line),
    Refused(WatchFault),
}

// Written by hand: a derived one puts the drop of each part inline wherever it may die.
impl Drop for Told {
    fn drop(self) {
        match self {
            Told::Line(_) | Told::Refused(_) => {}
        }
    }
}

impl Told {
    /// The text that tells it, without a count.
    fn text(&self) -> &str
        ensures { result.now ≡ told_text self.now }
    {
        match self {
            Told::Line(line) => line.text.as_str(),
            Told::Refused(fault) => refusal_text(*fault),
        }
    }

    /// Whether the same text tells the other.
    pub(crate) fn is_same(&self, other: &Told) -> bool
        ensures { result ≡ bytes_eq (told_text self.now) (told_text other.now) }
    {
        self.text() == other.text()
    }

    /// How a run ends that tells just this.
    fn status(&self) -> Status
        ensures { result ≡ told_status self.now }
    {
        match self {
            Told::Line(line) => line.status,
            Told::Refused(fault) => refusal_status(*fault),
        }
    }

    /// Whether another ask may tell something else though no file is another.
    fn is_open(&self) -> bool
        ensures { result ≡ is_open self.now }
    {
        match self {
            Told::Refused(WatchFault::Failed | WatchFault::Memory) => true,
            Told::Line(_) | Told::Refused(WatchFault::TooMany) => false,
        }
    }
}

/// How a run ends that has told this last.
pub(crate) fn status_of(told: &[Told]) -> Status
    ensures { result ≡ status_of told.now }
{
    let mut status = Status::Ok;
    for one in told {
        status = first_fault(status, one.status());
    }
    status
}

/// Whether another ask may tell something else though no file is another.
pub(crate) fn are_open(told: &[Told]) -> bool
    ensures { result ≡ are_open told.now }
{
    let mut open = false;
    for one in told {
        open |= one.is_open();
    }
    open
}

/// Why no more is told.
#[derive(Clone, Copy, Debug)]
pub(crate) enum Halt {
    /// A line was not written whole.
    Cut,
    /// A device failed where a file was told to be another.
    Failed,
    Memory,
}

impl From<DeskError> for Halt {
    ghost use Rattle.dh_watch_disk.specs.Inside.Rounds.{halt_of};

    ghost from_gives = { λ fault halt. halt ≡ halt_of fault };

    fn from(fault: DeskError) -> Halt {
        match fault {
            DeskError::Failed => Halt::Failed,
            DeskError::Memory => Halt::Memory,
        }
    }
}

impl From<AllocError> for Halt {
    ghost use Rattle.dh_watch_disk.specs.declared.told.Halt.TheVariants.{Memory};

    ghost from_gives = { λ _ halt. halt ≡ Memory };

    fn from(_fault: AllocError) -> Halt {
        Halt::Memory
    }
}
