//! What came of a run.

use crate::cases::Entry;
use std::alloc::AllocError;
use thiserror::Error;

/// What a run wrote, its exit status, how many texts its desks were asked for, and what they kept, in the order of the desks.
#[derive(Debug, Drop)]
pub struct Ran {
    pub out: Vec<u8>,
    pub err: Vec<u8>,
    pub status: u8,
    pub asked: u64,
    pub kept: Vec<Entry>,
}

/// Why a case could not be run.
#[derive(Clone, Copy, Debug, PartialEq, Eq, Error)]
pub enum CannotRun {
    #[error("out of memory")]
    Memory,
    #[error("no location at line {0}")]
    NoLocation(usize),
    #[error("a text of more than 1048577 bytes at a location")]
    TooLong,
    #[error("no desk")]
    NoDesk,
}

impl From<AllocError> for CannotRun {
    fn from(_e: AllocError) -> CannotRun {
        CannotRun::Memory
    }
}
