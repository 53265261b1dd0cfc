//! Cases: what a run is given, and what is wanted of it.

use crate::errors::Fault;
use std::alloc::Global;

/// A case of a file: it is run once for each of its commands over each of its rows.
#[derive(Debug, Drop)]
pub struct Case {
    pub name: String,
    /// The line where the case begins, from 1.
    pub line: usize,
    /// The words of each command that is run.
    pub commands: Vec<Vec<String>>,
    /// The words of the commands that follow: each takes what the one before wrote, and the last one's answer is compared.
    pub then: Vec<Vec<String>>,
    pub files: Vec<File>,
    pub cache: Vec<Entry>,
    pub narrow: Narrow,
    pub failing: Failing,
    /// How many desks there are, each with the files, the cache and the failures.
    pub desks: u32,
    pub rows: Vec<Row>,
    /// How many texts all desks are asked for, if that is compared.
    pub asked: Option<u64>,
    /// What all desks are to keep, in this order, where no count is said.
    pub kept: Vec<Entry>,
    /// How many entries all desks are to keep, where that alone is compared.
    pub keeps: Option<u64>,
}

/// An input, and what the run over it is to write and to end with.
#[derive(Debug, Drop)]
pub struct Row {
    /// The line where the row stands, from 1.
    pub line: usize,
    pub input: Vec<u8>,
    pub out: Vec<u8>,
    pub err: Vec<u8>,
    pub status: u8,
}

/// What is found at a location.
#[derive(Clone, Debug, Drop)]
pub struct File {
    /// The line where the file stands, from 1.
    pub line: usize,
    /// The location, as an expression spells it.
    pub location: String,
    pub found: Found,
}

/// A text, with the origin that it allows to read it, or the status of a server that has none.
#[derive(Clone, Debug, Drop)]
pub enum Found {
    Text {
        bytes: Vec<u8>,
        allow: Option<Vec<u8>>,
    },
    Status(u16),
}

/// An entry of the cache.
#[derive(Debug, Drop)]
pub struct Entry {
    pub digest: [u8; 32],
    pub bytes: Vec<u8>,
}

/// Which of the three streams move at most one byte a call.
#[derive(Clone, Copy, Debug, PartialEq, Eq)]
pub struct Narrow {
    pub read: bool,
    pub out: bool,
    pub err: bool,
}

impl Narrow {
    /// No stream.
    pub const NONE: Narrow = Narrow {
        read: false,
        out: false,
        err: false,
    };

    /// Adds the stream of this name.
    pub(crate) fn add(&mut self, stream: &str) -> Result<(), Fault> {
        match stream {
            "read" => mark(&mut self.read),
            "out" => mark(&mut self.out),
            "err" => mark(&mut self.err),
            _ => Err(Fault::UnknownDevice),
        }
    }
}

/// Marks what is not marked yet.
fn mark(place: &mut bool) -> Result<(), Fault> {
    if *place {
        return Err(Fault::Twice);
    }
    *place = true;
    Ok(())
}

/// The numbers, from 1, of the calls that fail: of the three streams, and of each desk.
#[derive(Debug, Drop)]
pub struct Failing {
    pub read: Vec<u64>,
    pub out: Vec<u64>,
    pub err: Vec<u64>,
    pub fetch: Vec<u64>,
    pub look: Vec<u64>,
    pub keep: Vec<u64>,
}

impl Failing {
    /// No failing call.
    pub fn none(alloc: Global) -> Failing {
        Failing {
            read: Vec::new(alloc),
            out: Vec::new(alloc),
            err: Vec::new(alloc),
            fetch: Vec::new(alloc),
            look: Vec::new(alloc),
            keep: Vec::new(alloc),
        }
    }

    /// Adds the number of a call that fails, of the kind of this name.
    pub(crate) fn add(&mut self, device: &str, call: u64) -> Result<(), Fault> {
        match device {
            "read" => self.read.push(call)?,
            "out" => self.out.push(call)?,
            "err" => self.err.push(call)?,
            "fetch" => self.fetch.push(call)?,
            "look" => self.look.push(call)?,
            "keep" => self.keep.push(call)?,
            _ => return Err(Fault::UnknownDevice),
        }
        Ok(())
    }
}
