//! Desks over what a case says is outside.

ghost use Rattle.std.specs.Prelude.{◌≡◌, vec_len, IfOk};

use dh_cases::{CannotRun, Case, Entry, File, Found as CaseFound};
use dh_parse::parse;
use dh_ports::{
    Cache, CacheEntry, CallList, Content, Contents, DeskFails, Found, Got, MemDesk, are_short,
};
use dh_syntax::{Bytes, Digest, Expr, Loc, Many, Op};
use std::alloc::{AllocError, Global};

/// These bytes, in a list of their own.
pub(crate) fn bytes_of(alloc: Global, bytes: &[u8]) -> Result<Bytes, AllocError> {
    Ok(Bytes::of(Vec::from_slice(alloc, bytes)?))
}

/// These numbers of calls, in a list of their own.
pub(crate) fn calls_of(alloc: Global, calls: &Vec<u64>) -> Result<CallList, AllocError> {
    Ok(Many::of(Vec::from_slice(alloc, calls.as_slice())?))
}

/// The location that the text of a file's location spells.
fn location_of(alloc: Global, file: &File) -> Result<Loc, CannotRun> {
    let Ok(e) = parse(alloc, file.location.as_bytes()) else {
        return Err(CannotRun::NoLocation(file.line));
    };
    match &e {
        Expr::Node(Op::Import(import), _) => Ok(import.get().loc.copied(alloc)?),
        _ => Err(CannotRun::NoLocation(file.line)),
    }
}

/// The origin that a text allows to read it, if it allows one.
fn origin_of(alloc: Global, allow: &Option<Vec<u8>>) -> Result<Option<Bytes>, AllocError> {
    match allow {
        Some(origin) => Ok(Some(bytes_of(alloc, origin.as_slice())?)),
        None => Ok(None),
    }
}

/// What is found, as a desk has it.
fn got_of(alloc: Global, found: &CaseFound) -> Result<Got, AllocError> {
    match found {
        CaseFound::Text { bytes, allow } => Ok(Got::Found(Found {
            bytes: bytes_of(alloc, bytes.as_slice())?,
            allow: origin_of(alloc, allow)?,
        })),
        CaseFound::Status(status) => Ok(Got::Broken(*status)),
    }
}

/// A file, as a desk has it.
fn content_of(alloc: Global, file: &File) -> Result<Content, CannotRun> {
    let loc = location_of(alloc, file)?;
    let got = got_of(alloc, &file.found)?;
    Ok(Content { loc, got })
}

fn contents_of(alloc: Global, files: &[File]) -> Result<Contents, CannotRun> {
    let mut contents = Vec::new(alloc);
    for file in files {
        let content = content_of(alloc, file)?;
        contents.push(content).map_err(AllocError::from)?;
    }
    Ok(Many::of(contents))
}

fn cache_of(alloc: Global, entries: &[Entry]) -> Result<Cache, AllocError> {
    let mut cache = Vec::new(alloc);
    for entry in entries {
        let bytes = bytes_of(alloc, entry.bytes.as_slice())?;
        let digest = Digest(entry.digest);
        cache.push(CacheEntry { digest, bytes })?;
    }
    Ok(Many::of(cache))
}

/// A desk over what a case says.
fn desk_of(alloc: Global, case: &Case) -> Result<MemDesk, CannotRun> {
    let contents = contents_of(alloc, case.files.as_slice())?;
    let cache = cache_of(alloc, case.cache.as_slice())?;
    let fails = DeskFails {
        fetch: calls_of(alloc, &case.failing.fetch)?,
        look: calls_of(alloc, &case.failing.look)?,
        keep: calls_of(alloc, &case.failing.keep)?,
    };
    if !are_short(&contents) {
        return Err(CannotRun::TooLong);
    }
    Ok(MemDesk::new(alloc, contents, cache, fails))
}

/// As many desks as a case has.
pub(crate) fn desks_of(alloc: Global, case: &Case) -> Result<Vec<MemDesk>, CannotRun> {
    let mut desks = Vec::new(alloc);
    for _ in 0..case.desks {
        let desk = desk_of(alloc, case)?;
        desks.push(desk).map_err(AllocError::from)?;
    }
    Ok(desks)
}
