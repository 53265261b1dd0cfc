//! Why a text, bytes, a typing or a normalising gave no answer.

ghost use Rattle.std.specs.Prelude.{◌≡◌, IfOk};

use crate::copies::copy_path;
use crate::lists::Many;
use std::alloc::{AllocError, AllocFailed, Global};

/// The place of a part: the numbers of the parts on the way from the root.
pub type Path = Many<u32>;

/// Why a text is no expression. An offset is in bytes from the text's start.
#[derive(Clone, Copy, Debug, PartialEq, Eq)]
pub enum ParseFault {
    /// The bytes are not UTF-8: the length of the longest prefix that is.
    NotUtf8(u32),
    /// The first place where no expression goes on.
    Syntax(u32),
    /// A number that is too wide.
    Wide(u32),
    /// A form of the language that this profile leaves out.
    Out(u32),
    /// More than 1,048,576 bytes.
    TooLarge,
    /// More than 500 expressions open, or an expression that nests deeper than 500.
    TooNested,
    Memory,
}

/// Why bytes are no expression in the binary form. An offset is that of the item at fault.
#[derive(Clone, Copy, Debug, PartialEq, Eq)]
pub enum DecodeFault {
    Cut(u32),
    Indefinite(u32),
    Float(u32),
    Tag(u32),
    Wide(u32),
    Shape(u32),
    Rest(u32),
    TooNested,
    Memory,
}

/// Why an expression was not normalised.
#[derive(Clone, Copy, Debug, PartialEq, Eq)]
pub enum NormFault {
    /// A number, text or list that is too wide.
    Wide,
    /// The purse did not suffice.
    Spent,
    /// A height or nesting above the limit.
    Deep,
    Memory,
}

/// Why an expression was not typed.
#[derive(Debug, Drop)]
pub enum TypeFault {
    Ill(Ill),
    Wide,
    Spent,
    Deep,
    Memory,
}

/// The first place that has no type, and the number of the rule that fails there.
#[derive(Debug, Drop)]
pub struct Ill {
    pub path: Path,
    pub rule: u8,
}

impl Ill {
    /// An equal place and rule.
    pub fn copied(&self, alloc: Global) -> Result<Ill, AllocError>
        ensures { IfOk result (λ c. c ≡ self.now) }
    {
        let path = copy_path(alloc, &self.path)?;
        Ok(Ill {
            path,
            rule: self.rule,
        })
    }
}

impl TypeFault {
    /// An equal fault.
    pub fn copied(&self, alloc: Global) -> Result<TypeFault, AllocError>
        ensures { IfOk result (λ c. c ≡ self.now) }
    {
        match self {
            TypeFault::Ill(ill) => Ok(TypeFault::Ill(ill.copied(alloc)?)),
            TypeFault::Wide => Ok(TypeFault::Wide),
            TypeFault::Spent => Ok(TypeFault::Spent),
            TypeFault::Deep => Ok(TypeFault::Deep),
            TypeFault::Memory => Ok(TypeFault::Memory),
        }
    }
}

impl From<AllocError> for ParseFault {
    ghost use Rattle.dh_syntax.specs.declared.faults.ParseFault.TheVariants.{Memory};

    ghost from_gives = { λ _ e. e ≡ Memory };

    fn from(_e: AllocError) -> ParseFault {
        ParseFault::Memory
    }
}

impl<T: Drop> From<AllocFailed<T>> for ParseFault {
    ghost use Rattle.dh_syntax.specs.declared.faults.ParseFault.TheVariants.{Memory};

    ghost from_gives = { λ _ e. e ≡ Memory };

    fn from(_e: AllocFailed<T>) -> ParseFault {
        ParseFault::Memory
    }
}

impl From<AllocError> for DecodeFault {
    ghost use Rattle.dh_syntax.specs.declared.faults.DecodeFault.TheVariants.{Memory};

    ghost from_gives = { λ _ e. e ≡ Memory };

    fn from(_e: AllocError) -> DecodeFault {
        DecodeFault::Memory
    }
}

impl<T: Drop> From<AllocFailed<T>> for DecodeFault {
    ghost use Rattle.dh_syntax.specs.declared.faults.DecodeFault.TheVariants.{Memory};

    ghost from_gives = { λ _ e. e ≡ Memory };

    fn from(_e: AllocFailed<T>) -> DecodeFault {
        DecodeFault::Memory
    }
}

impl From<AllocError> for NormFault {
    ghost use Rattle.dh_syntax.specs.declared.faults.NormFault.TheVariants.{Memory};

    ghost from_gives = { λ _ e. e ≡ Memory };

    fn from(_e: AllocError) -> NormFault {
        NormFault::Memory
    }
}

impl<T: Drop> From<AllocFailed<T>> for NormFault {
    ghost use Rattle.dh_syntax.specs.declared.faults.NormFault.TheVariants.{Memory};

    ghost from_gives = { λ _ e. e ≡ Memory };

    fn from(_e: AllocFailed<T>) -> NormFault {
        NormFault::Memory
    }
}

impl From<AllocError> for TypeFault {
    ghost use Rattle.dh_syntax.specs.declared.faults.TypeFault.TheVariants.{Memory};

    ghost from_gives = { λ _ e. e ≡ Memory };

    fn from(_e: AllocError) -> TypeFault {
        TypeFault::Memory
    }
}

impl<T: Drop> From<AllocFailed<T>> for TypeFault {
    ghost use Rattle.dh_syntax.specs.declared.faults.TypeFault.TheVariants.{Memory};

    ghost from_gives = { λ _ e. e ≡ Memory };

    fn from(_e: AllocFailed<T>) -> TypeFault {
        TypeFault::Memory
    }
}
