//! Why bytes are no script.

ghost use Rattle.std.specs.Prelude.{Some};
ghost use Rattle.dh_script.specs.Faults.{fault_line};

use std::alloc::{AllocError, AllocFailed};
use std::error::Error;
use std::fmt;

/// Why bytes are no script.
#[derive(Clone, Copy, Debug, PartialEq, Eq)]
pub enum ScriptFault {
    /// More than 1,048,576 bytes.
    TooLarge,
    /// The bytes are not UTF-8: the length of the longest prefix that is.
    NotUtf8(u32),
    /// The first line that is no order, by its number from 1.
    Line(u32),
    Memory,
}

/// The one line of a fault, without its line feed.
impl fmt::Display for ScriptFault {
    ghost output = { λ fault. Some (fault_line fault) };

    fn fmt<W: fmt::Write>(&self, f: &mut fmt::Formatter<W>) -> fmt::Result {
        match self {
            ScriptFault::TooLarge => write!(f, "larger than 1048576 bytes"),
            ScriptFault::NotUtf8(at) => write!(f, "not UTF-8 at {at}"),
            ScriptFault::Line(number) => write!(f, "usage: line {number}"),
            ScriptFault::Memory => write!(f, "out of memory"),
        }
    }
}

impl Error for ScriptFault {}

impl From<AllocError> for ScriptFault {
    ghost use Rattle.std.specs.Prelude.{◌≡◌};
    ghost use Rattle.dh_script.specs.declared.faults.ScriptFault.TheVariants.{Memory};

    ghost from_gives = { λ _ e. e ≡ Memory };

    fn from(_e: AllocError) -> ScriptFault {
        ScriptFault::Memory
    }
}

impl<T: Drop> From<AllocFailed<T>> for ScriptFault {
    ghost use Rattle.std.specs.Prelude.{◌≡◌};
    ghost use Rattle.dh_script.specs.declared.faults.ScriptFault.TheVariants.{Memory};

    ghost from_gives = { λ _ e. e ≡ Memory };

    fn from(_e: AllocFailed<T>) -> ScriptFault {
        ScriptFault::Memory
    }
}
