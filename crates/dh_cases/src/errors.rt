//! What may be wrong with a file of cases.

use std::alloc::{AllocError, AllocFailed};
use thiserror::Error;

/// What is wrong with a line.
#[derive(Clone, Copy, Debug, PartialEq, Eq, Error)]
pub enum Fault {
    #[error("out of memory")]
    Memory,
    #[error("no case in this file")]
    NoCase,
    #[error("no field of this name")]
    UnknownField,
    #[error("a field before the first case")]
    OutsideOfCases,
    #[error("nothing above it that goes on here")]
    NothingAbove,
    #[error("a blank at its end, which `hex 20` would show")]
    BlankAtEnd,
    #[error("this field stands alone on its line")]
    NothingBelow,
    #[error("this field is there already")]
    Twice,
    #[error("a name that a value or a case above has")]
    NameTwice,
    #[error("no name")]
    NoName,
    #[error("no part of this kind")]
    UnknownPart,
    #[error("no definition of this name")]
    UnknownName,
    #[error("no case of this name above it")]
    UnknownCase,
    #[error("no device of this name")]
    UnknownDevice,
    #[error("not a number, or too large a one")]
    NotNumber,
    #[error("not in hexadecimal")]
    NotHexadecimal,
    #[error("no 64 digits of a digest")]
    NotDigest,
    #[error("a backslash before something else than x and two digits, n or a backslash")]
    NotEscape,
    #[error("no words above it")]
    NoWordsAbove,
    #[error("no file above it")]
    NoFileAbove,
    #[error("rows above it")]
    BelowRows,
    #[error("a row without an arrow")]
    NoArrow,
    #[error("no rows below it")]
    NoRows,
    #[error("no desk")]
    NoDesk,
    #[error("a count beside the entries that are to be kept")]
    CountOfEntries,
    #[error("a case without words")]
    NoWords,
    #[error("a status of a case with rows, whose arrows have it")]
    StatusOfRows,
}

impl From<AllocError> for Fault {
    fn from(_e: AllocError) -> Fault {
        Fault::Memory
    }
}

impl<T: Drop> From<AllocFailed<T>> for Fault {
    fn from(_e: AllocFailed<T>) -> Fault {
        Fault::Memory
    }
}

/// What is wrong with a file of cases, and at which line, from 1.
#[derive(Clone, Copy, Debug, PartialEq, Eq, Error)]
#[error("line {line}: {fault}")]
pub struct CaseError {
    pub line: usize,
    pub fault: Fault,
}

/// The answer, or its fault with the number of the line that has it.
pub(crate) fn at_line<T>(line: usize, answer: Result<T, Fault>) -> Result<T, CaseError> {
    match answer {
        Ok(value) => Ok(value),
        Err(fault) => Err(CaseError { line, fault }),
    }
}

/// Adds an item.
pub(crate) fn push<T: Drop>(items: &mut Vec<T>, item: T) -> Result<(), Fault> {
    items.push(item)?;
    Ok(())
}
