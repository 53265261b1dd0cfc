//! Why a text has no tokens.

ghost use Rattle.std.specs.Prelude.{◌≡◌};

use std::alloc::AllocError;

/// Why a text has no tokens. The number is the offset of the fault in bytes.
#[derive(Clone, Copy, Debug, PartialEq, Eq)]
pub enum LexFault {
    /// No form of the grammar fits, or what stands there may not.
    Bad(u32),
    /// A number is beyond its range.
    Wide(u32),
    /// A form of the standard is left out.
    Out(u32),
    Memory,
}

impl From<AllocError> for LexFault {
    ghost use Rattle.dh_tokens.specs.declared.faults.LexFault.TheVariants.{Memory};

    ghost from_gives = { λ _ e. e ≡ Memory };

    fn from(_e: AllocError) -> LexFault {
        LexFault::Memory
    }
}
