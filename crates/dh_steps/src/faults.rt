//! Why steps are not made, and the one line of each reason, without its line feed: what `{}` writes.

ghost use Rattle.std.specs.Prelude.{◌≡◌, Some};
ghost use Rattle.dh_syntax.specs.FaultLines.{path_text};
ghost use Rattle.dh_steps.specs.StepLines.{step_fault_line};

use dh_syntax::Path;
use std::alloc::{AllocError, AllocFailed};
use std::error::Error;
use std::fmt;

/// Why steps are not made. A number is that of the step, from 1.
#[derive(Debug, Drop)]
pub enum StepFault {
    /// The place of the first node that the fragment does not have.
    Outside(Path),
    /// There is no such place, or no rule applies there.
    NoRule(u32),
    /// The step gives more than 1,048,576 nodes, or nests deeper than 500.
    Grown(u32),
    /// Want of memory.
    Memory,
}

impl From<AllocError> for StepFault {
    ghost use Rattle.dh_steps.specs.declared.faults.StepFault.TheVariants.{Memory};

    ghost from_gives = { λ _ e. e ≡ Memory };

    fn from(_e: AllocError) -> StepFault {
        StepFault::Memory
    }
}

/// A place as it is printed: `root`, or the numbers of the parts on the way from the root, joined by `/`.
#[derive(Drop)]
struct PlaceText<'a>(&'a [u32]);

impl<'a> fmt::Display for PlaceText<'a> {
    ghost output = { λ place. Some (path_text place.0.now) };

    fn fmt<W: fmt::Write>(&self, f: &mut fmt::Formatter<W>) -> fmt::Result {
        let Some((first, rest)) = self.0.split_first() else {
            return write!(f, "root");
        };
        write!(f, "{first}")?;
        for number in rest {
            write!(f, "/{number}")?;
        }
        Ok(())
    }
}

impl fmt::Display for StepFault {
    ghost output = { λ fault. Some (step_fault_line fault) };

    fn fmt<W: fmt::Write>(&self, f: &mut fmt::Formatter<W>) -> fmt::Result {
        match self {
            StepFault::Outside(place) => {
                let place = PlaceText(place.as_slice());
                write!(f, "not in the fragment at {place}")
            }
            StepFault::NoRule(number) => write!(f, "no rule at step {number}"),
            StepFault::Grown(number) => write!(f, "grown too large at step {number}"),
            StepFault::Memory => write!(f, "out of memory"),
        }
    }
}

impl Error for StepFault {}
