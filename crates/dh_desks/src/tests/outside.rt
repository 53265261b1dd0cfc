//! What the tests look at: an environment of their own, and folders in the working directory.

ghost use Rattle.std.specs.Io.{WritesAtMost};

use crate::Folder;
use dh_ports::{Desk, DeskError, Got, Silent};
use dh_syntax::{Bytes, Comps, Digest, Loc, Many, Piece};
use std::alloc::{AllocError, Global};
use std::env::{Env, FillError};
use std::fs::File;
use std::test::Fail;
use std::{fs, io, process};

/// An environment of three variables.
#[derive(Clone, Copy)]
pub(super) struct Variables<'a> {
    pub home: Option<&'a [u8]>,
    pub caches: Option<&'a [u8]>,
    pub text: Option<&'a [u8]>,
}

pub(super) const UNSET: Variables<'static> = Variables {
    home: None,
    caches: None,
    text: None,
};

fn fill(value: Option<&[u8]>, buf: &mut [u8]) -> Result<usize, FillError>
    ensures { WritesAtMost result buf.new }
{
    let Some(value) = value else {
        return Err(FillError::NotPresent);
    };
    let n = value.len();
    if n > buf.len() {
        return Err(FillError::TooLong);
    }
    buf[..n].copy_from_slice(value);
    Ok(n)
}

impl Env for Variables<'_> {
    fn arg(&self, _i: usize, _buf: &mut [u8]) -> Result<usize, FillError> {
        Err(FillError::NotPresent)
    }

    fn var(&self, name: &str, buf: &mut [u8]) -> Result<usize, FillError> {
        match name {
            "HOME" => fill(self.home, buf),
            "XDG_CACHE_HOME" => fill(self.caches, buf),
            "TEXT" => fill(self.text, buf),
            _ => Err(FillError::NotPresent),
        }
    }

    fn var_at(&self, _i: usize, _buf: &mut [u8]) -> Result<usize, FillError> {
        Err(FillError::NotPresent)
    }
}

/// A new folder in the working directory.
pub(super) fn new_folder(rt: &HostRuntime, test: &str) -> Result<String, Fail> {
    let id = process::id(rt.process());
    let folder = format!(in rt.alloc(); "dh_desks_{test}_{id}")?;
    let _ = fs::remove_dir_all(rt, folder.as_str());
    fs::create_dir(rt, folder.as_str())?;
    Ok(folder)
}

pub(super) fn path_in(alloc: Global, folder: &str, name: &str) -> Result<String, AllocError> {
    format!(in alloc; "{folder}/{name}")
}

pub(super) fn write(rt: &HostRuntime, folder: &str, name: &str, bytes: &[u8]) -> io::Result<()> {
    fs::write(rt, path_in(rt.alloc(), folder, name)?.as_str(), bytes)
}

/// A file of so many bytes, all zero.
pub(super) fn write_long(rt: &HostRuntime, folder: &str, name: &str, len: usize) -> io::Result<()> {
    let path = path_in(rt.alloc(), folder, name)?;
    File::create(rt, path.as_str())?.set_len(len as u64)
}

/// The name of the file of a digest whose bytes are all one byte, of these two digits.
pub(super) fn entry_named(alloc: Global, digits: &str) -> Result<String, AllocError> {
    let mut name = String::from_str(alloc, "1220")?;
    for _ in 0..32 {
        name.push_str(digits)?;
    }
    Ok(name)
}

/// How many names a folder has.
pub(super) fn count_of(rt: &HostRuntime, folder: &str) -> io::Result<usize> {
    Ok(fs::read_dir(rt, folder)?.count())
}

/// The components between the slashes of a path.
pub(super) fn comps(alloc: Global, path: &str) -> Result<Comps, AllocError> {
    let mut comps = Many::new(alloc);
    for part in path.split('/') {
        comps.push(Piece::new(alloc, part)?)?;
    }
    Ok(comps)
}

pub(super) fn at(alloc: Global, path: &str) -> Result<Folder, AllocError> {
    Ok(Folder::At(Piece::new(alloc, path)?))
}

/// The bytes that were found, or a word in brackets.
pub(super) fn told(answer: &Result<Got, DeskError>) -> &[u8] {
    match answer {
        Ok(Got::Found(found)) => found.bytes.as_slice(),
        Ok(Got::Absent) => b"(absent)",
        Ok(Got::Broken(0)) => b"(broken)",
        Ok(Got::Broken(_)) => b"(broken with a status)",
        Err(DeskError::Failed) => b"(failed)",
        Err(DeskError::Memory) => b"(memory)",
    }
}

/// The bytes of an entry, or a word in brackets.
fn shown(answer: &Result<Option<Bytes>, DeskError>) -> &[u8] {
    match answer {
        Ok(Some(bytes)) => bytes.as_slice(),
        Ok(None) => b"(none)",
        Err(DeskError::Failed) => b"(failed)",
        Err(DeskError::Memory) => b"(memory)",
    }
}

/// Whether a desk finds this at a location.
pub(super) fn finds<D: Desk<Silent>>(desk: &mut D, alloc: Global, loc: &Loc, want: &[u8]) -> bool {
    told(&desk.fetch(alloc, loc)) == want
}

/// Whether a desk finds this at a path from the working directory.
pub(super) fn finds_at<D: Desk<Silent>>(
    desk: &mut D,
    alloc: Global,
    path: &str,
    want: &[u8],
) -> Result<bool, AllocError> {
    Ok(finds(desk, alloc, &Loc::Here(comps(alloc, path)?), want))
}

/// How many bytes a desk finds at a path from the working directory.
pub(super) fn count_found<D: Desk<Silent>>(
    desk: &mut D,
    alloc: Global,
    path: &str,
) -> Result<Option<usize>, AllocError> {
    let loc = Loc::Here(comps(alloc, path)?);
    Ok(match desk.fetch(alloc, &loc) {
        Ok(Got::Found(found)) => Some(found.bytes.as_slice().len()),
        _ => None,
    })
}

/// Whether a desk has this in the cache.
pub(super) fn holds<D: Desk<Silent>>(desk: &mut D, alloc: Global, d: &Digest, want: &[u8]) -> bool {
    shown(&desk.look(alloc, d)) == want
}

/// How many bytes a desk has in the cache.
pub(super) fn count_held<D: Desk<Silent>>(
    desk: &mut D,
    alloc: Global,
    d: &Digest,
) -> Option<usize> {
    match desk.look(alloc, d) {
        Ok(Some(bytes)) => Some(bytes.as_slice().len()),
        _ => None,
    }
}
