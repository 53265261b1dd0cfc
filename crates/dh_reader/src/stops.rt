//! Why a token is not read.
ghost use Rattle.std.specs.Prelude.{◌≡◌};
ghost use Rattle.dh_reader.specs.declared.stops.Stop.TheVariants.{Refused};

use std::alloc::{AllocError, AllocFailed};

/// Why a token is not read.
#[derive(Clone, Copy, Debug, PartialEq, Eq)]
pub enum Stop {
    /// It cannot stand there.
    Refused,
    /// Memory was wanting.
    Memory,
}

impl From<AllocError> for Stop {
    ghost use Rattle.dh_reader.specs.declared.stops.Stop.TheVariants.{Memory};

    ghost from_gives = { λ _ e. e ≡ Memory };

    fn from(_e: AllocError) -> Stop {
        Stop::Memory
    }
}

impl<T: Drop> From<AllocFailed<T>> for Stop {
    ghost use Rattle.dh_reader.specs.declared.stops.Stop.TheVariants.{Memory};

    ghost from_gives = { λ _ e. e ≡ Memory };

    fn from(_e: AllocFailed<T>) -> Stop {
        Stop::Memory
    }
}

/// Drops what was to be read on, where a token cannot stand there.
///
/// To drop a frame takes room for each part of each of its forms. A function that drops one in an arm of its own makes that
/// room ready at every call, so the functions that read tokens hand what they let go to this one.
#[cold]
pub fn refused<T: Drop>(_value: T) -> Stop
    ensures { result ≡ Refused }
{
    Stop::Refused
}
