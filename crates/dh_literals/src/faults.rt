//! Why a literal was not read.

ghost use Rattle.std.specs.Prelude.{◌≡◌};

use std::alloc::AllocError;

/// Why a text between double quotes was not read.
#[derive(Clone, Copy, Debug, PartialEq, Eq)]
pub enum LitFault {
    /// A backslash that begins no escape: its offset in bytes.
    BadEscape(usize),
    Memory,
}

impl From<AllocError> for LitFault {
    ghost use Rattle.dh_literals.specs.declared.faults.LitFault.TheVariants.{Memory};

    ghost from_gives = { λ _ e. e ≡ Memory };

    fn from(_e: AllocError) -> LitFault {
        LitFault::Memory
    }
}
