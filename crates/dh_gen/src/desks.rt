//! A desk in the world of the generated texts.

ghost use Rattle.std.specs.Prelude.{◌≡◌, ◌≤◌, List, length, IfOk, map, replicate};
ghost use Rattle.dh_ports.specs.Desks.{IsShort};
ghost use Rattle.dh_gen.specs.Generated.{got_at, number_at, number_in, text_of as text_made};

use crate::numbers::number_of;
use crate::texts::text_of;
use crate::worlds::Gen;
use dh_ports::{Desk, DeskError, Found, Got};
use dh_syntax::{Bytes, Digest, Loc};
use std::alloc::{AllocError, Global};

/// A desk that makes the text that it is asked for. None of its calls fails but for want of memory. It has no cache, and keeps nothing.
#[derive(Debug, Drop)]
pub struct GenDesk {
    asked: u64,
}

impl GenDesk {
    /// How many texts were asked for. It stands still at `u64::MAX`.
    pub fn asked_count(&self) -> u64
        ensures { result ≡ self.now.asked }
    {
        self.asked
    }
}

/// A desk with the generated texts that was asked for none yet. It takes no memory.
pub fn made() -> GenDesk
    ensures { result.asked ≡ 0 }
{
    GenDesk { asked: 0 }
}

/// The number of the text at a file of this name.
fn number_in(name: &str) -> Option<u32>
    ensures { result ≡ number_in name.now }
{
    match name.strip_prefix('g') {
        Some(digits) => number_of(digits),
        None => None,
    }
}

/// The number of the text at a location.
fn number_at(loc: &Loc) -> Option<u32>
    ensures { result ≡ number_at loc.now }
{
    match loc {
        Loc::Here(comps) => match comps.as_slice() {
            [] => None,
            [name] => number_in(name.as_str()),
            [_folder, _name, ..] => None,
        },
        Loc::Abs(_) | Loc::Parent(_) | Loc::Home(_) => None,
        Loc::Http(_) | Loc::Https(_) | Loc::Env(_) | Loc::Missing => None,
    }
}

/// The text of a number, as what is found.
fn found(alloc: Global, number: u32) -> Result<Got, AllocError>
    ensures found { IfOk result (λ got. got ≡ got_at (Some number)) }
    ensures short { IfOk result IsShort }
{
    let text = text_of(alloc, number)?;
    Ok(Got::Found(Found {
        bytes: Bytes::of(text.into_bytes()),
        allow: None,
    }))
}

/// What is found at a location.
fn found_at(alloc: Global, loc: &Loc) -> Result<Got, AllocError>
    ensures found { IfOk result (λ got. got ≡ got_at (number_at loc.now)) }
    ensures short { IfOk result IsShort }
{
    match number_at(loc) {
        Some(number) => found(alloc, number),
        None => Ok(Got::Absent),
    }
}

impl Desk<Gen> for GenDesk {
    ghost faults = { λ _. 0 };

    ghost asked = { λ d. d.asked };

    fn fetch(&mut self, alloc: Global, loc: &Loc) -> Result<Got, DeskError> {
        self.asked = self.asked.saturating_add(1);
        let got = found_at(alloc, loc)?;
        Ok(got)
    }

    fn look(&mut self, _alloc: Global, _d: &Digest) -> Result<Option<Bytes>, DeskError> {
        Ok(None)
    }

    fn keep(&mut self, _d: &Digest, _bytes: &[u8]) -> Result<(), DeskError> {
        Ok(())
    }
}
