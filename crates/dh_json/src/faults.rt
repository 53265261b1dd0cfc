//! Why an expression has no JSON value, and the line that says so.

ghost use Rattle.std.specs.Prelude.{◌≡◌, Some};
ghost use Rattle.dh_syntax.specs.FaultLines.{path_text};
ghost use Rattle.dh_json.specs.FaultLines.{json_fault_line};

use dh_syntax::Path;
use std::alloc::{AllocError, AllocFailed};
use std::error::Error;
use std::fmt;

/// Why an expression has no JSON value.
#[derive(Debug, Drop)]
pub enum JsonFault {
    /// The first place, in the order of nodes before their parts, that has no value: the numbers of the parts on the way to it.
    NoValue(Path),
    Memory,
}

impl From<AllocError> for JsonFault {
    ghost use Rattle.dh_json.specs.declared.faults.JsonFault.TheVariants.{Memory};

    ghost from_gives = { λ _ e. e ≡ Memory };

    fn from(_e: AllocError) -> JsonFault {
        JsonFault::Memory
    }
}

impl<T: Drop> From<AllocFailed<T>> for JsonFault {
    ghost use Rattle.dh_json.specs.declared.faults.JsonFault.TheVariants.{Memory};

    ghost from_gives = { λ _ e. e ≡ Memory };

    fn from(_e: AllocFailed<T>) -> JsonFault {
        JsonFault::Memory
    }
}

/// A place as it is printed: `root`, or the numbers joined by `/`.
#[derive(Drop)]
struct PathText<'a>(&'a [u32]);

impl<'a> fmt::Display for PathText<'a> {
    ghost output = { λ path. Some (path_text path.0.now) };

    fn fmt<W: fmt::Write>(&self, f: &mut fmt::Formatter<W>) -> fmt::Result {
        let Some((first, rest)) = self.0.split_first() else {
            return write!(f, "root");
        };
        write!(f, "{first}")?;
        for number in rest {
            write!(f, "/{number}")?;
        }
        Ok(())
    }
}

impl fmt::Display for JsonFault {
    ghost output = { λ fault. Some (json_fault_line fault) };

    fn fmt<W: fmt::Write>(&self, f: &mut fmt::Formatter<W>) -> fmt::Result {
        match self {
            JsonFault::NoValue(path) => {
                let path = PathText(path.as_slice());
                write!(f, "no JSON value at {path}")
            }
            JsonFault::Memory => write!(f, "out of memory"),
        }
    }
}

impl Error for JsonFault {}
